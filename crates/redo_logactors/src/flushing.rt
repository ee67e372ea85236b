// What the flusher asks for, and what it makes of the answer.
ghost use Rattle.std.specs.Prelude.{◌≡◌, ◌<◌, ◌^◌, ◌==◌, if◌then◌else◌, true};
ghost use Rattle.model_core.specs.States as actor;
ghost use Rattle.model_core.specs.{AnswerFits, after_of, checked_of, flusher_ending, flusher_program, lent, next, step_of};
ghost use Rattle.redo_words.specs.{Lends};

use crate::flusher::Flusher;
use model_core::FlusherStep;
use redo_words::{Answer, Lent, Op, Step, Word, code_of, old_of};

impl Flusher {
    /// The Op that it asks for.
    pub fn next(&self) -> Op
        ensures { result ≡ next (actor.Flusher self.now) }
    {
        if self.checks {
            return Op::Load(Word::Failed);
        }
        match self.step {
            FlusherStep::LoadWrite => Op::Load(Word::Write),
            FlusherStep::TakeDevice => Op::TakeDevice,
            FlusherStep::GiveBroken | FlusherStep::GiveDevice | FlusherStep::GiveFailed => {
                Op::GiveDevice
            }
            FlusherStep::Sync => Op::Sync,
            FlusherStep::StoreFlushed => Op::Store(Word::Flushed, self.mark),
            FlusherStep::StoreFailed => Op::Store(Word::Failed, u64::from(self.code)),
            FlusherStep::Failed => Op::Rest,
        }
    }

    /// It lends nothing.
    pub fn lent(&self) -> Lent<'_>
        ensures { Lends result (lent (actor.Flusher self.now)) }
    {
        Lent::Nothing
    }

    /// What it makes of FAILED.
    fn checked(&mut self, n: u64) -> Step
        requires { n < 2 ^ 32 }
        ensures state { self.new ≡ checked_of flusher_program self.old n }
        ensures step { result ≡ (if n == 0 then Step.Moved else Step.Failed n) }
    {
        self.checks = false;
        if n == 0 {
            return Step::Moved;
        }
        self.code = n as u32;
        self.step = FlusherStep::Failed;
        Step::Failed(self.code)
    }

    /// It goes on with this step.
    fn goes_on(&mut self, step: FlusherStep) -> Step
        ensures state { self.new ≡ record self.old { step = step } }
        ensures step { result ≡ flusher_ending self.old.code step }
    {
        self.step = step;
        match step {
            FlusherStep::Failed => Step::Failed(self.code),
            _ => Step::Moved,
        }
    }

    /// It waits: it checks FAILED, and then takes the same step again.
    fn waits(&mut self) -> Step
        ensures state { self.new ≡ record self.old { checks = true } }
        ensures step { result ≡ Step.Idle }
    {
        self.checks = true;
        Step::Idle
    }

    /// Takes the answer to the Op that it asked for.
    pub fn took(&mut self, answer: Answer) -> Step
        requires { AnswerFits (actor.Flusher self.old) answer }
        ensures state { self.new ≡ after_of flusher_program self.old answer }
        ensures step { result ≡ step_of (actor.Flusher self.old) answer }
    {
        if self.checks {
            return self.checked(old_of(answer));
        }
        match self.step {
            FlusherStep::LoadWrite => {
                self.write = old_of(answer);
                if self.write == self.last {
                    self.waits()
                } else {
                    self.goes_on(FlusherStep::TakeDevice)
                }
            }
            FlusherStep::TakeDevice => match answer {
                Answer::Taken(_) => self.goes_on(FlusherStep::Sync),
                Answer::Broken => self.goes_on(FlusherStep::GiveBroken),
                _ => self.waits(),
            },
            FlusherStep::GiveBroken => {
                self.checks = true;
                self.goes_on(FlusherStep::TakeDevice)
            }
            FlusherStep::Sync => {
                self.mark = old_of(answer);
                self.code = code_of(answer);
                match answer {
                    Answer::Failed(_) => self.goes_on(FlusherStep::StoreFailed),
                    _ => self.goes_on(FlusherStep::StoreFlushed),
                }
            }
            FlusherStep::StoreFlushed => {
                self.last = self.mark;
                self.goes_on(FlusherStep::GiveDevice)
            }
            FlusherStep::GiveDevice => self.goes_on(FlusherStep::LoadWrite),
            FlusherStep::StoreFailed => self.goes_on(FlusherStep::GiveFailed),
            FlusherStep::GiveFailed | FlusherStep::Failed => self.goes_on(FlusherStep::Failed),
        }
    }
}
