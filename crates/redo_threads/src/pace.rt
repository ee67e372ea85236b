// How a thread waits.
use crate::bells::{Bells, Call};
use crossbeam_utils::Backoff;
use redo_drive::Actor;
use redo_follow::Receiver;
use redo_ownrule::Player;
use redo_words::{Op, Word};
use std::sync::Wait;
use std::thread::yield_now;
use std::time::Duration;

/// How often a thread spins, each time for twice as long, and how often it yields then, before it sleeps.
#[derive(Clone, Copy)]
struct Patience {
    spins: u32,
    yields: u32,
}

/// Where it keeps nobody from a processor: for longer than a large group is written.
const LONG: Patience = Patience {
    spins: 7,
    yields: 256,
};

/// Where it may. Those that spin or yield for long keep the one that could go on from its turn.
const SHORT: Patience = Patience {
    spins: 2,
    yields: 20,
};

/// How long a thread sleeps that is called when there is something to do, in microseconds: at first, and then.
const NAP: u64 = 1_000;

const LONG_NAP: u64 = 1_000_000;

/// How long one sleeps that isn't called for all that it could do: at first, and at most.
const SHORT_NAP: u64 = 50;

const LONG_SHORT_NAP: u64 = 1_600;

/// How many batches the cleaner writes without a rest once somebody has waited for space: each page of the largest store eight
/// times. And how long it rests then after each, in microseconds.
const BATCHES_IN_HASTE: u32 = 64;

const REST: u64 = 1_000;

/// How many steps a user that writes for itself takes at most from one wait to the next where it comes to nothing: FAILED, a
/// tail loaded twice, taken, without a link, and freed; DEVICE, the tail loaded, taken, without a link, and freed, CKPT, and
/// DEVICE given.
const STEPS_OF_ERRAND: u64 = 13;

/// How many steps a player takes at most from one wait to the next where it comes to nothing.
pub(crate) fn steps_in_vain<F: Receiver>(player: &Player<F>) -> u64 {
    match player {
        Player::Plain(actor) => actor.steps_in_vain(),
        Player::Own(_) => STEPS_OF_ERRAND,
    }
}

/// Whether a player has gone on by an Op, after so many others since it waited: it reserves, copies, links, writes or syncs, or
/// has taken more steps than it takes in vain.
pub(crate) fn has_gone_on(done: Op, others: u64, in_vain: u64) -> bool {
    match done {
        Op::Store(Word::Wlink(_) | Word::Clink(_), length) if length != 0 => true,
        Op::Add(_, _) | Op::WriteTo(_) | Op::Sync => true,
        _ => others >= in_vain,
    }
}

/// How long a thread sleeps at first, how often as long from time to time, and at most.
#[derive(Clone, Copy)]
struct Naps {
    first: u64,
    factor: u64,
    longest: u64,
}

/// How a thread waits for another: it spins a little, leaves the processor to others a few times, and then sleeps until it is
/// called.
#[derive(Drop)]
pub(crate) struct Pace {
    backoff: Backoff,
    patience: Patience,
    // whether it has waited since it went on last, how often, and whether a sleep has come to its end without a call
    has_waited: bool,
    waits: u32,
    is_long: bool,
    // how many steps its player takes in vain, and has taken since it waited last
    in_vain: u64,
    steps: u64,
    // the bell at which it is counted, and how often that had rung
    call: Option<Call>,
    heard: u64,
    // how long it sleeps, and how long next
    naps: Naps,
    nap: u64,
    // how often those that wait for space had been called, and how many batches it has written since
    space_calls: u64,
    batches: u32,
}

impl Pace {
    fn of(bells: &Bells, in_vain: u64, naps: Naps) -> Pace {
        Pace {
            backoff: Backoff::new(),
            patience: if bells.is_roomy() { LONG } else { SHORT },
            has_waited: false,
            waits: 0,
            is_long: false,
            in_vain,
            steps: 0,
            call: None,
            heard: 0,
            naps,
            nap: naps.first,
            space_calls: 0,
            batches: 0,
        }
    }

    /// That of a player.
    pub(crate) fn new<F: Receiver>(player: &Player<F>, bells: &Bells) -> Pace {
        let naps = match player {
            Player::Plain(Actor::Closer(_) | Actor::Cleaner(_) | Actor::Checkpointer(_)) => Naps {
                first: SHORT_NAP,
                factor: 2,
                longest: LONG_SHORT_NAP,
            },
            _ => Naps {
                first: NAP,
                factor: LONG_NAP / NAP,
                longest: LONG_NAP,
            },
        };
        Pace::of(bells, steps_in_vain(player), naps)
    }

    /// That of a caller who plays for several, the actors of the pages among them.
    pub(crate) fn of_many(bells: &Bells) -> Pace {
        let naps = Naps {
            first: SHORT_NAP,
            factor: 2,
            longest: LONG_SHORT_NAP,
        };
        Pace::of(bells, 0, naps)
    }

    /// How often it waits before it sleeps.
    fn last_wait(&self) -> u32 {
        self.patience.spins.saturating_add(self.patience.yields)
    }

    /// It is counted among those that wait for this call.
    fn enter(&mut self, bells: &Bells, call: Call) {
        self.leave(bells);
        self.heard = bells.enter(call);
        self.call = Some(call);
    }

    /// It sleeps no more.
    pub(crate) fn leave(&mut self, bells: &Bells) {
        if let Some(call) = self.call {
            bells.leave(call);
            self.call = None;
        }
    }

    /// It has taken a step. Where it has gone on by that, it waits for as short as at first.
    pub(crate) fn steps_on(&mut self, bells: &Bells, done: Op) {
        if self.has_waited && has_gone_on(done, self.steps, self.in_vain) {
            self.goes_on(bells);
        }
        self.steps = self.steps.saturating_add(1);
    }

    /// It has gone on. After a long wait it doesn't spin and yield before the next one.
    pub(crate) fn goes_on(&mut self, bells: &Bells) {
        if self.has_waited {
            self.leave(bells);
            self.has_waited = false;
            self.waits = if self.is_long { self.last_wait() } else { 0 };
            self.is_long = false;
            self.nap = self.naps.first;
            self.backoff.reset();
        }
    }

    /// It sleeps by the bell at which it is counted, for longer from time to time.
    fn sleep<R: Wait>(&mut self, rt: &R, bells: &Bells, call: Call) {
        if call == Call::Room {
            self.heard = bells.sleep(rt, call, self.heard, Duration::from_micros(SHORT_NAP));
            return;
        }
        let heard = bells.sleep(rt, call, self.heard, Duration::from_micros(self.nap));
        self.is_long = self.is_long || heard == self.heard;
        self.heard = heard;
        self.nap = self
            .nap
            .saturating_mul(self.naps.factor)
            .min(self.naps.longest);
    }

    /// It waits for this call a little, and longer from time to time. Where it waits for space it is counted at once, since the
    /// cleaner may rest.
    pub(crate) fn waits<R: Wait>(&mut self, rt: &R, bells: &Bells, call: Call) {
        self.steps = 0;
        self.has_waited = true;
        let is_counted = self.call == Some(call);
        if call == Call::Space && !is_counted {
            self.enter(bells, call);
        }
        if self.waits < self.patience.spins {
            self.waits += 1;
            self.backoff.spin();
        } else if self.waits < self.last_wait() {
            self.waits += 1;
            yield_now();
        } else if is_counted {
            // it has idled since it was counted
            self.sleep(rt, bells, call);
        } else if self.call != Some(call) {
            self.enter(bells, call);
        }
    }

    /// It has written a batch of pages, and holds nothing. After many batches for which nobody has waited it sleeps a little: while it
    /// copies a page nobody else changes that, and in a log that has space pages needn't be written as often as can be.
    pub(crate) fn rests<R: Wait>(&mut self, rt: &R, bells: &Bells) {
        let calls = bells.space_calls();
        if bells.is_in_haste() || calls != self.space_calls {
            self.space_calls = calls;
            self.batches = 0;
        } else if self.batches < BATCHES_IN_HASTE {
            self.batches += 1;
        } else {
            let heard = bells.enter(Call::Pages);
            if !bells.is_in_haste() {
                bells.sleep(rt, Call::Pages, heard, Duration::from_micros(REST));
            }
            bells.leave(Call::Pages);
        }
    }
}
