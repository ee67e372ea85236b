// What the closer asks for, and what it makes of the answer.
ghost use Rattle.std.specs.Prelude.{◌≡◌, ◌<◌, ◌^◌, ◌==◌, if◌then◌else◌, true};
ghost use Rattle.model_core.specs.States as actor;
ghost use Rattle.model_core.specs.{AnswerFits, after_of, checked_of, closer_program, closer_took, lent, next, old_of, stays_put, step_of};
ghost use Rattle.redo_link.specs.{FindsLsn};
ghost use Rattle.redo_words.specs.{Lends};

use crate::closer::Closer;
use model_core::{AdvanceStep, CloserStep, LinkBuffer};
use redo_words::{Answer, Lent, Op, Step, Word, old_of};

impl Closer {
    /// The Op that it asks for.
    pub fn next(&self) -> Op
        ensures { result ≡ next (actor.Closer self.now) }
    {
        if self.checks {
            return Op::Load(Word::Failed);
        }
        match self.step {
            CloserStep::Advance(step) => self.advance.op(LinkBuffer::Closed, step),
            CloserStep::Failed => Op::Rest,
        }
    }

    /// It lends nothing.
    pub fn lent(&self) -> Lent<'_>
        ensures { Lends result (lent (actor.Closer self.now)) }
    {
        Lent::Nothing
    }

    /// What it makes of FAILED.
    fn checked(&mut self, n: u64) -> Step
        requires { n < 2 ^ 32 }
        ensures state { self.new ≡ checked_of closer_program self.old n }
        ensures step { result ≡ (if n == 0 then Step.Moved else Step.Failed n) }
    {
        self.checks = false;
        if n == 0 {
            return Step::Moved;
        }
        self.code = n as u32;
        self.step = CloserStep::Failed;
        Step::Failed(self.code)
    }

    /// A step of its advance was answered.
    fn advances(&mut self, answer: Answer, step: AdvanceStep) -> Step
        requires step { self.old.step ≡ CloserStep.Advance step }
        requires finds { FindsLsn self.old.advance (old_of answer) step }
        ensures state { self.new ≡ closer_took self.old answer (CloserStep.Advance step) }
        ensures step { result ≡ (if stays_put self.old.advance (old_of answer) step then Step.Idle else Step.Moved) }
    {
        let found = old_of(answer);
        let stays = self.advance.stays_put(found, step);
        let ends = self.advance.ends(found, step);
        let next = self.advance.next(found, step);
        self.advance.take(found, step);
        self.checks = stays;
        self.step = CloserStep::Advance(if ends { AdvanceStep::LoadTail } else { next });
        if stays { Step::Idle } else { Step::Moved }
    }

    /// Takes the answer to the Op that it asked for.
    pub fn took(&mut self, answer: Answer) -> Step
        requires { AnswerFits (actor.Closer self.old) answer }
        ensures state { self.new ≡ after_of closer_program self.old answer }
        ensures step { result ≡ step_of (actor.Closer self.old) answer }
    {
        if self.checks {
            return self.checked(old_of(answer));
        }
        match self.step {
            CloserStep::Advance(step) => self.advances(answer, step),
            CloserStep::Failed => Step::Failed(self.code),
        }
    }
}
