// What the checkpointer asks for, and what it makes of the answer.
ghost use Rattle.std.specs.Prelude.{◌≡◌, ◌-◌, ◌<◌, ◌≤◌, ◌^◌, ◌==◌, if◌then◌else◌, true, List, Option};
ghost use Rattle.model_core.specs.States as actor;
ghost use Rattle.model_core.specs.{AnswerFits, after_of, candidate, checked_of, checkpointer_ending, checkpointer_program, checkpointer_took, has_taken, is_above, lent, lowered, next, step_of};
ghost use Rattle.redo_pageactors.specs.CheckpointerView.{IsAtList, IsAtPlace};
ghost use Rattle.redo_words.specs.{Lends};

use crate::checkpointer::Checkpointer;
use model_base::BLOCK_SIZE;
use model_core::{CLOSED_LINKS, CheckpointerStep, FLUSH_LISTS};
use redo_link::tail_of;
use redo_words::{Answer, Lent, Op, Step, Word, code_of, old_of};

/// The candidate under a flush list's oldest end.
fn lowered(to: u64, oldest: Option<u64>) -> u64
    ensures { result ≡ lowered to oldest }
{
    match oldest {
        None => to,
        Some(oldest) => to.min(oldest.saturating_sub(CLOSED_LINKS)),
    }
}

impl Checkpointer {
    /// How many readers of the log there are: no checkpoint passes their places.
    pub fn reader_count(&self) -> u32
        ensures { result ≡ self.now.last - self.now.first }
    {
        self.last - self.first
    }

    /// The Op that it asks for.
    pub fn next(&self) -> Op
        ensures { result ≡ next (actor.Checkpointer self.now) }
    {
        if self.checks {
            return Op::Load(Word::Failed);
        }
        match self.step {
            CheckpointerStep::LoadCtail => Op::Load(Word::Ctail),
            CheckpointerStep::LoadPlace => Op::Load(Word::Place(self.reader)),
            CheckpointerStep::ReadList => Op::TakeOldest(self.list),
            CheckpointerStep::GiveList => Op::GiveList(self.list),
            CheckpointerStep::LoadFlushed => Op::Load(Word::Flushed),
            CheckpointerStep::TakeDevice => Op::TakeDevice,
            CheckpointerStep::GiveBroken
            | CheckpointerStep::GiveDevice
            | CheckpointerStep::GiveFailed => Op::GiveDevice,
            CheckpointerStep::Checkpoint => Op::Checkpoint(self.to),
            CheckpointerStep::StoreCheckpoint => Op::Store(Word::Ckpt, self.to),
            CheckpointerStep::StoreFailed => Op::Store(Word::Failed, u64::from(self.code)),
            CheckpointerStep::Failed => Op::Rest,
        }
    }

    /// It lends nothing.
    pub fn lent(&self) -> Lent<'_>
        ensures { Lends result (lent (actor.Checkpointer self.now)) }
    {
        Lent::Nothing
    }

    /// What it makes of FAILED.
    fn checked(&mut self, n: u64) -> Step
        requires { n < 2 ^ 32 }
        ensures state { self.new ≡ checked_of checkpointer_program self.old n }
        ensures step { result ≡ (if n == 0 then Step.Moved else Step.Failed n) }
    {
        self.checks = false;
        if n == 0 {
            return Step::Moved;
        }
        self.code = n as u32;
        self.step = CheckpointerStep::Failed;
        Step::Failed(self.code)
    }

    /// It goes on with this step.
    fn goes_on(&mut self, step: CheckpointerStep) -> Step
        requires list { IsAtList self.old.list step }
        requires reader { IsAtPlace self.old.reader self.old.last step }
        ensures state { self.new ≡ record self.old { step = step } }
        ensures step { result ≡ checkpointer_ending self.old.code step }
    {
        self.step = step;
        match step {
            CheckpointerStep::Failed => Step::Failed(self.code),
            _ => Step::Moved,
        }
    }

    /// It waits: it checks FAILED, and then goes on with this step.
    fn waits(&mut self, step: CheckpointerStep) -> Step
        requires list { IsAtList self.old.list step }
        requires reader { IsAtPlace self.old.reader self.old.last step }
        ensures state { self.new ≡ record self.old { checks = true; step = step } }
        ensures step { result ≡ Step.Idle }
    {
        self.checks = true;
        self.step = step;
        Step::Idle
    }

    /// It goes on with this reader's word, or with the lists where that was the last.
    fn reads_from(&mut self, reader: u32) -> Step
        requires list { self.old.list < FLUSH_LISTS }
        requires reader { reader ≤ self.old.last }
        ensures state { self.new ≡ record self.old { reader = reader; step = (if reader == self.old.last then CheckpointerStep.ReadList else CheckpointerStep.LoadPlace) } }
        ensures step { result ≡ Step.Moved }
    {
        self.reader = reader;
        self.step = if reader == self.last {
            CheckpointerStep::ReadList
        } else {
            CheckpointerStep::LoadPlace
        };
        Step::Moved
    }

    /// A flush list was read, or is held.
    fn reads_list(&mut self, answer: Answer) -> Step
        requires { self.old.list < FLUSH_LISTS }
        ensures state { self.new ≡ checkpointer_took self.old answer CheckpointerStep.ReadList }
        ensures step { result ≡ (if has_taken answer then Step.Moved else Step.Idle) }
    {
        match answer {
            Answer::Taken(oldest) => {
                self.to = lowered(self.to, oldest);
                self.goes_on(CheckpointerStep::GiveList)
            }
            _ => self.waits(CheckpointerStep::ReadList),
        }
    }

    /// That list was given back.
    fn gave_list(&mut self, answer: Answer) -> Step
        requires { self.old.list < FLUSH_LISTS }
        ensures state { self.new ≡ checkpointer_took self.old answer CheckpointerStep.GiveList }
        ensures step { result ≡ Step.Moved }
    {
        self.list += 1;
        self.step = if u64::from(self.list) == FLUSH_LISTS {
            CheckpointerStep::LoadFlushed
        } else {
            CheckpointerStep::ReadList
        };
        Step::Moved
    }

    /// The last bound of the candidate was loaded.
    fn chooses(&mut self, flushed: u64) -> Step
        ensures state { self.new ≡ checkpointer_took self.old (Answer.Old flushed) CheckpointerStep.LoadFlushed }
        ensures step { result ≡ (if is_above self.old flushed then Step.Moved else Step.Idle) }
    {
        let least = self.to.min(flushed);
        let candidate = least - least % BLOCK_SIZE;
        self.flushed = flushed;
        if self.own < candidate {
            self.to = candidate;
            self.goes_on(CheckpointerStep::TakeDevice)
        } else {
            self.waits(CheckpointerStep::LoadCtail)
        }
    }

    /// The checkpoint was written, or has failed.
    fn called(&mut self, answer: Answer) -> Step
        ensures state { self.new ≡ checkpointer_took self.old answer CheckpointerStep.Checkpoint }
        ensures step { result ≡ Step.Moved }
    {
        self.code = code_of(answer);
        match answer {
            Answer::Failed(_) => self.goes_on(CheckpointerStep::StoreFailed),
            _ => self.goes_on(CheckpointerStep::StoreCheckpoint),
        }
    }

    /// Takes the answer to the Op that it asked for.
    pub fn took(&mut self, answer: Answer) -> Step
        requires { AnswerFits (actor.Checkpointer self.old) answer }
        ensures state { self.new ≡ after_of checkpointer_program self.old answer }
        ensures step { result ≡ step_of (actor.Checkpointer self.old) answer }
    {
        if self.checks {
            return self.checked(old_of(answer));
        }
        match self.step {
            CheckpointerStep::LoadCtail => {
                self.ctail = tail_of(old_of(answer));
                self.to = self.ctail;
                self.list = 0;
                self.reads_from(self.first)
            }
            CheckpointerStep::LoadPlace => {
                self.to = self.to.min(old_of(answer));
                self.reads_from(self.reader + 1)
            }
            CheckpointerStep::ReadList => self.reads_list(answer),
            CheckpointerStep::GiveList => self.gave_list(answer),
            CheckpointerStep::LoadFlushed => self.chooses(old_of(answer)),
            CheckpointerStep::TakeDevice => match answer {
                Answer::Taken(_) => self.goes_on(CheckpointerStep::Checkpoint),
                Answer::Broken => self.goes_on(CheckpointerStep::GiveBroken),
                _ => self.waits(CheckpointerStep::TakeDevice),
            },
            CheckpointerStep::GiveBroken => {
                self.checks = true;
                self.goes_on(CheckpointerStep::TakeDevice)
            }
            CheckpointerStep::Checkpoint => self.called(answer),
            CheckpointerStep::StoreCheckpoint => {
                self.own = self.to;
                self.goes_on(CheckpointerStep::GiveDevice)
            }
            CheckpointerStep::GiveDevice => self.goes_on(CheckpointerStep::LoadCtail),
            CheckpointerStep::StoreFailed => self.goes_on(CheckpointerStep::GiveFailed),
            CheckpointerStep::GiveFailed | CheckpointerStep::Failed => {
                self.goes_on(CheckpointerStep::Failed)
            }
        }
    }
}
