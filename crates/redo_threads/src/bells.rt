// Who sleeps, and how it is woken.
use redo_drive::Actor;
use redo_follow::Receiver;
use redo_ownrule::Player;
use redo_words::{Op, Word};
use std::sync::Wait;
use std::sync::atomic::{AtomicBool, AtomicU64, Ordering};
use std::time::Duration;

/// What a thread waits for, by what ends its wait.
#[derive(Clone, Copy, Debug, PartialEq, Eq)]
pub(crate) enum Call {
    /// FLUSHED is stored: a user whose commit waits for it, and a follower.
    Flushed,
    /// WRITE is stored: a user whose commit waits for it, and the flusher.
    Written,
    /// A link is stored: the writer.
    Linked,
    /// DEVICE is given.
    Device,
    /// CKPT is stored: a user or the writer that has no space in the log.
    Space,
    /// A link, WRITE, FLUSHED or CKPT is stored: a user that writes for itself and has been on an errand in vain. There may be
    /// something new to write or to flush, or another has done that.
    Errand,
    /// What the closer, the cleaner, the checkpointer and the archiver wait for. They are called only while others wait for
    /// space.
    Pages,
    /// What a user waits for in the middle of a group: room in a buffer, a latch or a list. Nobody calls it: it looks again soon.
    Room,
    /// Any of these: the caller, who plays several actors.
    Any,
}

/// What an actor waits for that has idled by this Op.
fn call_of_actor<F: Receiver>(actor: &Actor<F>, done: Op) -> Call {
    match (actor, done) {
        (Actor::User(_) | Actor::Follower(_), Op::Load(Word::Flushed)) => Call::Flushed,
        (Actor::User(user), Op::Load(Word::Write)) if user.to_link() == 0 => Call::Written,
        (Actor::User(_), Op::Load(Word::Sn)) | (Actor::Writer(_), Op::Load(Word::Ckpt)) => {
            Call::Space
        }
        (Actor::User(_), _) => Call::Room,
        (_, Op::TakeDevice) => Call::Device,
        (Actor::Writer(_), _) => Call::Linked,
        (Actor::Flusher(_), _) => Call::Written,
        _ => Call::Pages,
    }
}

/// What a user that writes for itself waits for that has idled by this Op.
fn call_of_own(done: Op) -> Call {
    match done {
        Op::TakeDevice => Call::Device,
        Op::Load(Word::Sn) => Call::Space,
        Op::Load(Word::Flushed | Word::Write | Word::Wtail) => Call::Errand,
        _ => Call::Room,
    }
}

/// What a player waits for that has idled by this Op.
pub(crate) fn call_of<F: Receiver>(player: &Player<F>, done: Op) -> Call {
    match player {
        Player::Plain(actor) => call_of_actor(actor, done),
        Player::Own(_) => call_of_own(done),
    }
}

/// A bell: how many sleep by it or are about to, and how often it has rung.
#[derive(Drop)]
struct Bell {
    sleepers: AtomicU64,
    rings: AtomicU64,
}

impl Bell {
    fn new() -> Bell {
        Bell {
            sleepers: AtomicU64::new(0),
            rings: AtomicU64::new(0),
        }
    }

    fn has_sleepers(&self) -> bool {
        self.sleepers.load(Ordering::SeqCst) != 0
    }

    /// Wakes all that sleep by it. Where there are none it is one load.
    fn ring(&self) {
        if self.has_sleepers() {
            self.rings.fetch_add(1, Ordering::SeqCst);
            self.rings.wake_all();
        }
    }
}

/// How many users run, whether each that is busy has a processor, and a bell for each call. In a live run users go on once they
/// have ended, and are counted as one until the run is told to end.
///
/// No ring is lost. Who sleeps is counted first, then reads how often the bell has rung, and then takes its step once more, which
/// looks at all that it waits for. It sleeps only if that idled and the bell hasn't rung since. A cleaner that rests looks then
/// whether somebody waits for space, or no user runs. Who changes a word does that first,
/// and then reads the count. All this is sequentially consistent. If the count was 0, the sleeper was counted later, so its last
/// look came after the change. If it wasn't, the bell rings after the change. Either that is before the sleeper read the rings, and
/// then its last look came after the change too; or it is after, and then the kernel finds another number of rings, or wakes the
/// sleeper.
///
/// The last look of a user that writes for itself is a whole errand. Where it finds DEVICE held it sleeps until that is given. Where
/// it finds WTAIL held by another user, that one looks itself: its advance moves the tail, or it goes on an errand next. So
/// somebody comes to each link, and stores WRITE. A user that waits for space may have to flush before a checkpoint can free
/// that, and is called by links too.
#[derive(Drop)]
pub(crate) struct Bells {
    running: AtomicU64,
    is_live: bool,
    is_roomy: bool,
    // whether users write for themselves
    own_writes: bool,
    // whether the caller plays too
    has_stand_in: AtomicBool,
    flushed: Bell,
    written: Bell,
    linked: Bell,
    device: Bell,
    space: Bell,
    errand: Bell,
    pages: Bell,
    room: Bell,
    any: Bell,
}

impl Bells {
    fn of(users: u64, running: u64, is_live: bool, own_writes: bool, processors: u64) -> Bells {
        let others = if own_writes { 0 } else { 2 };
        Bells {
            running: AtomicU64::new(running),
            is_live,
            is_roomy: users.saturating_add(others) <= processors,
            own_writes,
            has_stand_in: AtomicBool::new(false),
            flushed: Bell::new(),
            written: Bell::new(),
            linked: Bell::new(),
            device: Bell::new(),
            space: Bell::new(),
            errand: Bell::new(),
            pages: Bell::new(),
            room: Bell::new(),
            any: Bell::new(),
        }
    }

    /// Of a run of so many users, which write for themselves or don't. It is roomy where these, and the writer and the flusher,
    /// if they play, have a processor each.
    pub(crate) fn new(users: u64, own_writes: bool, processors: u64) -> Bells {
        Bells::of(users, users, false, own_writes, processors)
    }

    /// Of a live run of so many users.
    pub(crate) fn live(users: u64, processors: u64) -> Bells {
        Bells::of(users, 1, true, false, processors)
    }

    fn bell(&self, call: Call) -> &Bell {
        match call {
            Call::Flushed => &self.flushed,
            Call::Written => &self.written,
            Call::Linked => &self.linked,
            Call::Device => &self.device,
            Call::Space => &self.space,
            Call::Errand => &self.errand,
            Call::Pages => &self.pages,
            Call::Room => &self.room,
            Call::Any => &self.any,
        }
    }

    /// Whether who waits keeps nobody from a processor.
    pub(crate) fn is_roomy(&self) -> bool {
        self.is_roomy
    }

    /// Whether a user runs.
    pub(crate) fn has_users(&self) -> bool {
        self.running.load(Ordering::SeqCst) != 0
    }

    /// The caller plays actors that got no thread. Which of them waits for space isn't told.
    pub(crate) fn stand_in(&self) {
        self.has_stand_in.store(true, Ordering::SeqCst);
    }

    /// Whether somebody waits for space, or may, or no user runs.
    pub(crate) fn is_in_haste(&self) -> bool {
        self.space.has_sleepers() || !self.has_users() || self.has_stand_in.load(Ordering::SeqCst)
    }

    /// How often those that waited for space have been called.
    pub(crate) fn space_calls(&self) -> u64 {
        self.space.rings.load(Ordering::SeqCst)
    }

    /// A user has ended. The last one wakes all. In a live run it may go on.
    pub(crate) fn user_ended(&self) {
        if !self.is_live && self.running.fetch_sub(1, Ordering::SeqCst) == 1 {
            self.ring_all();
        }
    }

    /// No user goes on any more: all are woken.
    pub(crate) fn end(&self) {
        self.running.store(0, Ordering::SeqCst);
        self.ring_all();
    }

    /// Counts one more that is about to sleep, and tells how often the bell has rung. Who waits for space wakes those that free it.
    pub(crate) fn enter(&self, call: Call) -> u64 {
        let bell = self.bell(call);
        bell.sleepers.fetch_add(1, Ordering::SeqCst);
        if call == Call::Space {
            self.pages.ring();
        }
        bell.rings.load(Ordering::SeqCst)
    }

    /// Sleeps for so long, unless the bell has rung more often than this or rings, and tells how often it has then. The kernel
    /// compares 32 bits.
    pub(crate) fn sleep<R: Wait>(&self, rt: &R, call: Call, heard: u64, time: Duration) -> u64 {
        let rings = &self.bell(call).rings;
        rings.park_timeout(rt, (heard & 0xffff_ffff) as u32, time);
        rings.load(Ordering::SeqCst)
    }

    /// Counts one fewer.
    pub(crate) fn leave(&self, call: Call) {
        self.bell(call).sleepers.fetch_sub(1, Ordering::SeqCst);
    }

    fn ring_all(&self) {
        self.flushed.ring();
        self.written.ring();
        self.linked.ring();
        self.device.ring();
        self.space.ring();
        self.errand.ring();
        self.pages.ring();
        self.any.ring();
    }

    /// Wakes users that write for themselves, since there may be something new to write or to flush. Who waits for space then may
    /// have to do that, before a checkpoint frees it.
    fn ring_own(&self) {
        if self.own_writes {
            self.errand.ring();
            self.space.ring();
        }
    }

    /// Wakes the actors of the pages, if somebody waits for space.
    fn ring_pages(&self) {
        if self.space.has_sleepers() {
            self.pages.ring();
        }
    }

    /// Wakes those that wait for what this Op has done.
    pub(crate) fn ring_after(&self, done: Op) {
        match done {
            // an advance stores 0 where it clears a link
            Op::Store(Word::Wlink(_), 0) => return,
            Op::Store(Word::Wlink(_), _) => {
                self.linked.ring();
                self.ring_own();
            }
            Op::Store(Word::Wtail, _) => self.linked.ring(),
            Op::Store(Word::Write, _) => {
                self.written.ring();
                self.ring_own();
            }
            Op::Store(Word::Flushed, _) => {
                self.flushed.ring();
                self.ring_own();
                self.ring_pages();
            }
            Op::Store(Word::Ctail | Word::Place(_), _) => self.ring_pages(),
            Op::Store(Word::Ckpt, _) => {
                self.space.ring();
                self.errand.ring();
            }
            Op::GiveDevice => self.device.ring(),
            Op::Store(Word::Failed, _) => self.ring_all(),
            _ => return,
        }
        self.any.ring();
    }
}
