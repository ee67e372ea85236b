// What the writer asks for, and what it makes of the answer.
ghost use Rattle.std.specs.Prelude.{◌≡◌, ◌<◌, ◌≤◌, ◌+◌, ◌/◌, ◌%◌, ◌^◌, ◌==◌, if◌then◌else◌, true, length, drop, vec_capacity};
ghost use Rattle.model_core.specs.States as actor;
ghost use Rattle.model_core.specs.{cell_of, checked_of, lane_of, left_in_word, lent, lsn, next, read_place, writer_ending, writer_program};
ghost use Rattle.redo_logactors.specs.WriterView.{WriterLeadsToLsn};
ghost use Rattle.redo_words.specs.{Lends};

use crate::writer::Writer;
use model_base::BLOCK_SIZE;
use model_core::{BUFFER_BLOCKS, LinkBuffer, WORD_LANES, WriterStep};
use redo_lsn::lsn_of;
use redo_words::{Lent, Op, Spot, Step, Word, spot_of};

/// The first so many bytes go.
pub(crate) fn drop_bytes(bytes: &mut Vec<u8>, count: usize)
    requires { count ≤ length bytes.old.items }
    ensures items { bytes.new.items ≡ drop count bytes.old.items }
    ensures shorter { length bytes.new.items ≤ length bytes.old.items }
    ensures room { vec_capacity bytes.new ≡ vec_capacity bytes.old }
{
    let rest = bytes.len() - count;
    bytes.copy_within(count.., 0);
    bytes.truncate(rest);
}

/// The first so many first offsets go.
pub(crate) fn drop_firsts(firsts: &mut Vec<u32>, count: usize)
    requires { count ≤ length firsts.old.items }
    ensures items { firsts.new.items ≡ drop count firsts.old.items }
    ensures shorter { length firsts.new.items ≤ length firsts.old.items }
    ensures room { vec_capacity firsts.new ≡ vec_capacity firsts.old }
{
    let rest = firsts.len() - count;
    firsts.copy_within(count.., 0);
    firsts.truncate(rest);
}

impl Writer {
    /// The lsn of its read place.
    #[tactic(auto, unfolding(model_core::specs::Lanes::lsn))]
    pub(crate) fn read_place(&self) -> u64
        ensures { result ≡ lsn (read_place self.now) }
    {
        lsn_of(self.from + self.kept.len() as u64)
    }

    /// Where the byte at its read place stands.
    pub(crate) fn read_spot(&self) -> Spot
        ensures cell { result.cell ≡ cell_of (read_place self.now) }
        ensures lane { result.lane ≡ lane_of (read_place self.now) }
        ensures left { result.left ≡ left_in_word (read_place self.now) }
        ensures fits { result.lane + result.left ≤ WORD_LANES }
    {
        spot_of(self.from + self.kept.len() as u64)
    }

    /// The Op that it asks for.
    pub fn next(&self) -> Op
        ensures { result ≡ next (actor.Writer self.now) }
    {
        if self.checks {
            return Op::Load(Word::Failed);
        }
        match self.step {
            WriterStep::Advance(step) => self.advance.op(LinkBuffer::Written, step),
            WriterStep::LoadCheckpoint => Op::Load(Word::Ckpt),
            WriterStep::LoadFirst => Op::Load(self.first_word()),
            WriterStep::ClearFirst => Op::Store(self.first_word(), 0),
            WriterStep::LoadCell => Op::Load(Word::Cell(self.read_spot().cell)),
            WriterStep::ClearCell => Op::Store(Word::Cell(self.read_spot().cell), 0),
            WriterStep::TakeDevice => Op::TakeDevice,
            WriterStep::GiveBroken | WriterStep::GiveDevice | WriterStep::GiveFailed => {
                Op::GiveDevice
            }
            WriterStep::WriteTo => Op::WriteTo(self.tail),
            WriterStep::StoreWrite => Op::Store(Word::Write, self.tail),
            WriterStep::StoreFailed => Op::Store(Word::Failed, u64::from(self.code)),
            WriterStep::Failed => Op::Rest,
        }
    }

    /// The first offset of the block at its read place.
    fn first_word(&self) -> Word
        ensures { result ≡ Word.First (lsn (read_place self.now) / BLOCK_SIZE % BUFFER_BLOCKS) }
    {
        Word::First((self.read_place() / BLOCK_SIZE % BUFFER_BLOCKS) as u32)
    }

    /// It lends what it has read.
    pub fn lent(&self) -> Lent<'_>
        ensures { Lends result (lent (actor.Writer self.now)) }
    {
        Lent::Blocks {
            bytes: self.kept.as_slice(),
            firsts: self.firsts.as_slice(),
        }
    }

    /// What it makes of FAILED.
    pub(crate) fn checked(&mut self, n: u64) -> Step
        requires { n < 2 ^ 32 }
        ensures state { self.new ≡ checked_of writer_program self.old n }
        ensures step { result ≡ (if n == 0 then Step.Moved else Step.Failed n) }
    {
        self.checks = false;
        if n == 0 {
            return Step::Moved;
        }
        self.code = n as u32;
        self.step = WriterStep::Failed;
        Step::Failed(self.code)
    }

    /// It goes on with this step.
    pub(crate) fn goes_on(&mut self, step: WriterStep) -> Step
        requires { WriterLeadsToLsn self.old.advance step }
        ensures state { self.new ≡ record self.old { step = step } }
        ensures step { result ≡ writer_ending self.old.code step }
    {
        self.step = step;
        match step {
            WriterStep::Failed => Step::Failed(self.code),
            _ => Step::Moved,
        }
    }

    /// It waits: it checks FAILED, and then takes the same step again.
    pub(crate) fn waits(&mut self) -> Step
        ensures state { self.new ≡ record self.old { checks = true } }
        ensures step { result ≡ Step.Idle }
    {
        self.checks = true;
        Step::Idle
    }
}
