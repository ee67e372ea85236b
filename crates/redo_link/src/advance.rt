// An advance of a tail, as users, the writer and the closer make it.
ghost use Rattle.std.specs.Prelude.{◌≡◌, ◌<◌, ◌^◌};
ghost use Rattle.model_core.specs.{advance_next, advance_op, advance_took, ends, frees, loaded_tail, no_advance, slot_at, stays_put, tail_at};
ghost use Rattle.redo_link.specs.Course.{FindsLsn, LeadsToLsn};

use crate::tails::{is_held, tail_of, tail_word};
use model_core::{ADVANCE_PLACES, AdvanceStep, CLOSED_LINKS, LinkBuffer, Op, WRITTEN_LINKS, Word};
use std::marker::Model;

/// An advance: the tail that it has loaded, the place to which it has followed links, and the link that it has found there.
/// Contracts see these. Its step stands with whoever makes it.
#[derive(Debug, Drop)]
pub struct Advance {
    tail: u64,
    place: u64,
    link: u64,
}

impl Model for Advance {
    ghost use Rattle.model_core.specs.{Advance};
    ghost use Rattle.redo_link.specs.Course.{IsAdvance};

    ghost Value = { Advance };

    ghost view = { λ v. record { tail = v.tail; place = v.place; link = v.link } };

    ghost invariant = { λ v. IsAdvance (record { tail = v.tail; place = v.place; link = v.link }) };
}

/// The word of a buffer's tail.
fn tail_at(buffer: LinkBuffer) -> Word
    ensures { result ≡ tail_at buffer }
{
    match buffer {
        LinkBuffer::Written => Word::Wtail,
        LinkBuffer::Closed => Word::Ctail,
    }
}

/// The word of the link that starts at a place.
fn slot_at(buffer: LinkBuffer, place: u64) -> Word
    ensures { result ≡ slot_at buffer place }
{
    match buffer {
        LinkBuffer::Written => Word::Wlink((place % WRITTEN_LINKS) as u32),
        LinkBuffer::Closed => Word::Clink((place % CLOSED_LINKS) as u32),
    }
}

impl Advance {
    /// One that hasn't begun.
    pub fn new() -> Advance
        ensures { result ≡ no_advance }
    {
        Advance {
            tail: 0,
            place: 0,
            link: 0,
        }
    }

    /// The place to which it has followed links.
    pub fn place(&self) -> u64
        ensures place { result ≡ self.now.place }
        ensures small { result < 2 ^ 61 }
    {
        self.place
    }

    /// The Op of a step.
    pub fn op(&self, buffer: LinkBuffer, step: AdvanceStep) -> Op
        ensures { result ≡ advance_op buffer self.now step }
    {
        match step {
            AdvanceStep::LoadTail => Op::Load(tail_at(buffer)),
            AdvanceStep::TakeTail => {
                let free = tail_word(self.tail, false);
                Op::Swap(tail_at(buffer), free, tail_word(self.tail, true))
            }
            AdvanceStep::LoadLink => Op::Load(slot_at(buffer, self.place)),
            AdvanceStep::ClearLink => Op::Store(slot_at(buffer, self.place), 0),
            AdvanceStep::FreeTail => Op::Store(tail_at(buffer), tail_word(self.place, false)),
        }
    }

    /// Whether it ends at this step with the tail where it was, where the Op found this.
    pub fn stays_put(&self, found: u64, step: AdvanceStep) -> bool
        ensures { result ≡ stays_put self.now found step }
    {
        match step {
            AdvanceStep::LoadTail => is_held(found),
            AdvanceStep::TakeTail => found != tail_word(self.tail, false),
            AdvanceStep::FreeTail => self.place == self.tail,
            AdvanceStep::LoadLink | AdvanceStep::ClearLink => false,
        }
    }

    /// Whether it ends at this step.
    pub fn ends(&self, found: u64, step: AdvanceStep) -> bool
        ensures { result ≡ ends self.now found step }
    {
        frees(step) || self.stays_put(found, step)
    }

    /// Its next step, where it goes on.
    pub fn next(&self, found: u64, step: AdvanceStep) -> AdvanceStep
        requires { LeadsToLsn self.now step }
        ensures { result ≡ advance_next self.now found step }
    {
        match step {
            AdvanceStep::LoadTail => AdvanceStep::TakeTail,
            AdvanceStep::TakeTail => AdvanceStep::LoadLink,
            AdvanceStep::LoadLink if found == 0 => AdvanceStep::FreeTail,
            AdvanceStep::LoadLink => AdvanceStep::ClearLink,
            AdvanceStep::ClearLink if self.place + self.link < self.tail + ADVANCE_PLACES => {
                AdvanceStep::LoadLink
            }
            AdvanceStep::ClearLink => AdvanceStep::FreeTail,
            AdvanceStep::FreeTail => AdvanceStep::LoadTail,
        }
    }

    /// Takes the answer to a step's Op, which found this.
    pub fn take(&mut self, found: u64, step: AdvanceStep)
        requires finds { FindsLsn self.old found step }
        requires leads { LeadsToLsn self.old step }
        ensures state { self.new ≡ advance_took self.old found step }
        ensures leads { LeadsToLsn self.new (advance_next self.old found step) }
    {
        match step {
            AdvanceStep::LoadTail => self.tail = tail_of(found),
            AdvanceStep::TakeTail => self.place = self.tail,
            AdvanceStep::LoadLink => self.link = found,
            AdvanceStep::ClearLink => {
                self.place += self.link;
                self.link = 0;
            }
            AdvanceStep::FreeTail => {}
        }
    }
}

/// The tail loaded last, where that was `tail` before this step, whose Op found this.
pub fn loaded_tail(tail: u64, found: u64, step: AdvanceStep) -> u64
    ensures { result ≡ loaded_tail tail found step }
{
    match step {
        AdvanceStep::LoadTail => tail_of(found),
        _ => tail,
    }
}

/// Whether a step frees the tail, which ends the advance.
pub fn frees(step: AdvanceStep) -> bool
    ensures { result ≡ frees step }
{
    matches!(step, AdvanceStep::FreeTail)
}
