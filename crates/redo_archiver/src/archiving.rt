// What the archiver asks for, and what it makes of the answer.
ghost use Rattle.std.specs.Prelude.{◌≡◌, ◌≤◌, ◌<◌, ◌^◌, ◌==◌, if◌then◌else◌, true};
ghost use Rattle.std.specs.Borrow.{sem};
ghost use Rattle.model_core.specs.States as actor;
ghost use Rattle.model_core.specs.{AnswerFits, after_of, archived, archives, checked_of, lent, next, reader_ending, reader_program, step_of};
ghost use Rattle.redo_archiver.specs.Lending.{LendsRoom};
ghost use Rattle.redo_archiver.specs.Rounds.{last_block};
ghost use Rattle.redo_words.specs.{Lends};

use crate::Archiver;
use model_base::BLOCK_SIZE;
use model_core::ReaderStep;
use model_log::BLOCK_HEADER;
use redo_words::{Answer, Lent, Op, Step, Word, code_of, old_of};

impl Archiver {
    /// The Op that it asks for.
    pub fn next(&self) -> Op
        ensures { result ≡ next (actor.Reader self.now) }
    {
        if self.checks {
            return Op::Load(Word::Failed);
        }
        match self.step {
            ReaderStep::LoadFlushed => Op::Load(Word::Flushed),
            ReaderStep::TakeDevice => Op::TakeDevice,
            ReaderStep::GiveBroken | ReaderStep::GiveDevice | ReaderStep::GiveFailed => {
                Op::GiveDevice
            }
            ReaderStep::ReadBlock => Op::ReadBlock(self.place),
            ReaderStep::Append => Op::Append(self.place + BLOCK_SIZE + BLOCK_HEADER),
            ReaderStep::StorePlace => Op::Store(Word::Place(0), self.place),
            ReaderStep::StoreFailed => Op::Store(Word::Failed, u64::from(self.code)),
            ReaderStep::StoreLost => Op::Store(Word::Failed, u64::from(self.lost)),
            ReaderStep::Failed => Op::Rest,
        }
    }

    /// It lends no call anything to read.
    pub fn lent(&self) -> Lent<'_>
        ensures { Lends result (lent (actor.Reader self.now)) }
    {
        Lent::Nothing
    }

    /// The room for a block: into it a call writes the block that the archiver asked for, before `took`.
    pub fn room(&mut self) -> &mut [u8; 512]
        ensures* writes_back { sem 𝓛 (LendsRoom self.entry result) }
        ensures value { result.now ≡ self.old.block }
    {
        &mut self.block
    }

    /// The block that it has read, which is what it asks to be appended.
    pub fn block(&self) -> &[u8; 512]
        ensures { result.now ≡ self.now.block }
    {
        &self.block
    }

    /// What it makes of FAILED.
    fn checked(&mut self, n: u64) -> Step
        requires { n < 2 ^ 32 }
        ensures state { self.new ≡ checked_of reader_program self.old n }
        ensures step { result ≡ (if n == 0 then Step.Moved else Step.Failed n) }
    {
        self.checks = false;
        if n == 0 {
            return Step::Moved;
        }
        self.code = n as u32;
        self.step = ReaderStep::Failed;
        Step::Failed(self.code)
    }

    /// It goes on with this step.
    fn goes_on(&mut self, step: ReaderStep) -> Step
        requires { self.old.place ≤ last_block step }
        ensures state { self.new ≡ record self.old { step = step } }
        ensures step { result ≡ reader_ending self.old.code step }
    {
        self.step = step;
        match step {
            ReaderStep::Failed => Step::Failed(self.code),
            _ => Step::Moved,
        }
    }

    /// It waits: it checks FAILED, and then takes the same step again.
    fn waits(&mut self) -> Step
        ensures state { self.new ≡ record self.old { checks = true } }
        ensures step { result ≡ Step.Idle }
    {
        self.checks = true;
        Step::Idle
    }

    /// Its block stands in the archive, or the append of it has failed.
    fn appends(&mut self, answer: Answer) -> Step
        requires { self.old.place ≤ last_block ReaderStep.Append }
        ensures state { self.new ≡ archived self.old answer }
        ensures step { result ≡ Step.Moved }
    {
        self.lost = code_of(answer);
        self.code = self.lost;
        match answer {
            Answer::Failed(_) => self.step = ReaderStep::StoreLost,
            _ => {
                self.step = ReaderStep::StorePlace;
                self.place += BLOCK_SIZE;
            }
        }
        Step::Moved
    }

    /// Takes the answer to the Op that it asked for.
    pub fn took(&mut self, answer: Answer) -> Step
        requires { AnswerFits (actor.Reader self.old) answer }
        ensures state { self.new ≡ after_of reader_program self.old answer }
        ensures step { result ≡ step_of (actor.Reader self.old) answer }
        ensures kind { archives self.old ≡ true }
    {
        if self.checks {
            return self.checked(old_of(answer));
        }
        match self.step {
            ReaderStep::LoadFlushed => {
                self.mark = old_of(answer);
                if self.mark - self.mark % BLOCK_SIZE <= self.place {
                    self.waits()
                } else {
                    self.goes_on(ReaderStep::TakeDevice)
                }
            }
            ReaderStep::TakeDevice => match answer {
                Answer::Taken(_) => self.goes_on(ReaderStep::ReadBlock),
                Answer::Broken => self.goes_on(ReaderStep::GiveBroken),
                _ => self.waits(),
            },
            ReaderStep::GiveBroken => {
                self.checks = true;
                self.goes_on(ReaderStep::TakeDevice)
            }
            ReaderStep::ReadBlock => {
                self.code = code_of(answer);
                match answer {
                    Answer::Failed(_) => self.goes_on(ReaderStep::StoreFailed),
                    _ => self.goes_on(ReaderStep::GiveDevice),
                }
            }
            ReaderStep::GiveDevice => self.goes_on(ReaderStep::Append),
            ReaderStep::Append => self.appends(answer),
            ReaderStep::StorePlace => {
                self.own = self.place;
                self.goes_on(ReaderStep::LoadFlushed)
            }
            ReaderStep::StoreFailed => self.goes_on(ReaderStep::GiveFailed),
            ReaderStep::GiveFailed | ReaderStep::StoreLost | ReaderStep::Failed => {
                self.goes_on(ReaderStep::Failed)
            }
        }
    }
}
