// A user that writes for itself.
ghost use Rattle.std.specs.Prelude.{◌≡◌, cond, false, true};
ghost use Rattle.model_core.specs.States as actor;
ghost use Rattle.model_core.specs.{AnswerFits, heard, next, step_of, user_took};
ghost use Rattle.model_core.specs.declared.ops.Op.TheVariants as op;
ghost use Rattle.model_own.specs.{errand_took, errand_waits, has_failed, own_goes_on, own_lends, own_next, own_step_of, own_stepped, sets_out, waiting, written, MayHelpAt, has_work};
ghost use Rattle.model_own.specs.ErrandFits.{ErrandFits};
ghost use Rattle.model_own.specs.OwnWrites as model;
ghost use Rattle.redo_ownuser.specs.OwnFits.{AloneFits, ErrandAnswerFits, OwnAnswerFits, WorkGoesOn, ends_as, is_idle};
ghost use Rattle.redo_ownuser.specs.OwnLink.{ComesNearer, ComesNearerAlone};
ghost use Rattle.redo_useractor.specs.ToLink.{to_link};
ghost use Rattle.redo_words.specs.{Lends};

use crate::work::LogWork;
use model_core::{FlusherStep, WriterStep};
use model_own::ErrandStep;
use redo_useractor::UserActor;
use redo_words::{Answer, Lent, Op, Step, Word, old_of};
use std::marker::Model;

/// A user that writes for itself: in place of a wait for the log it goes on an errand. Contracts see its state.
#[derive(Drop)]
pub struct OwnUser {
    pub(crate) user: UserActor,
    pub(crate) errand: ErrandStep,
    pub(crate) helped: bool,
}

impl Model for OwnUser {
    ghost use Rattle.model_own.specs.OwnWrites as model;

    ghost Value = { model.OwnUser };

    ghost view = { λ o. record { user = o.user; errand = o.errand; helped = o.helped } };
}

/// Whether a step waits.
fn is_idle(step: Step) -> bool
    ensures { result ≡ is_idle step }
{
    matches!(step, Step::Idle)
}

impl OwnUser {
    /// A user as a run begins, on no errand.
    pub fn new(user: UserActor) -> OwnUser
        ensures { result ≡ record { user = user; errand = ErrandStep.Done; helped = false } }
    {
        OwnUser {
            user,
            errand: ErrandStep::Done,
            helped: false,
        }
    }

    /// The user, without its errand.
    pub fn user(&self) -> &UserActor
        ensures { result.now ≡ self.now.user }
    {
        &self.user
    }

    /// The user alone: its errand is left out.
    pub fn into_user(self) -> UserActor
        ensures { result ≡ self.user }
    {
        self.user
    }

    /// The Op that it asks for, with the log's work where that is in its hand.
    pub fn next(&self, work: &LogWork) -> Op
        requires { WorkGoesOn self.now.errand work.now }
        ensures { result ≡ own_next self.now work.now }
    {
        if self.user.is_checking() {
            return Op::Load(Word::Failed);
        }
        match self.errand {
            ErrandStep::Done => self.user.next(),
            ErrandStep::TakeDevice => Op::TakeDevice,
            ErrandStep::GiveBroken => Op::GiveDevice,
            ErrandStep::Write => work.writer.next(),
            ErrandStep::Flush => work.flusher.next(),
        }
    }

    /// The Op that it asks for while it hasn't the log's work in hand.
    pub fn next_alone(&self) -> Op
        requires { has_work self.now.errand ≡ false }
        ensures { (work : model.LogWork) → result ≡ own_next self.now work }
    {
        if self.user.is_checking() {
            return Op::Load(Word::Failed);
        }
        match self.errand {
            ErrandStep::Done => self.user.next(),
            ErrandStep::TakeDevice => Op::TakeDevice,
            ErrandStep::GiveBroken | ErrandStep::Write | ErrandStep::Flush => unreachable!(),
        }
    }

    /// It lends what the writer has read.
    pub fn lent<'a>(&self, work: &'a LogWork) -> Lent<'a>
        ensures { Lends result (own_lends self.now work.now) }
    {
        match self.errand {
            ErrandStep::Write => work.writer.lent(),
            _ => Lent::Nothing,
        }
    }

    /// How many Ops of its own it has to go up to the store of its link, as `UserActor::to_link`. On an errand that stands still.
    pub fn to_link(&self) -> u64
        ensures { result ≡ to_link self.now.user }
    {
        self.user.to_link()
    }

    /// Its own step was answered: how that ends, and whether it sets out on an errand in place of a wait.
    #[tactic(auto, using(crate::proofs::Stepped::took_is, crate::proofs::Stepped::waits_is))]
    fn takes(&mut self, answer: Answer) -> (Step, bool)
        requires asks { self.old.user.checks ≡ false }
        requires fits { AnswerFits (actor.User self.old.user) answer }
        ensures user { self.new ≡ record self.old { user = user_took self.old.user (heard answer) self.old.user.step } }
        ensures step { result.0 ≡ step_of (actor.User self.old.user) answer }
        ensures out { result.1 ≡ sets_out self.old (heard answer) }
        ensures nearer { ComesNearer self.old.user result.0 self.new.user }
    {
        let helps = self.user.helps();
        let step = self.user.took(answer);
        (step, is_idle(step) && helps && !self.helped)
    }

    /// Its own step was answered: where it would wait, it may set out on an errand.
    #[tactic(auto, using(crate::proofs::Stepped::stepped_out, crate::proofs::Stepped::stepped_on))]
    fn stepped(&mut self, answer: Answer) -> Step
        requires asks { self.old.user.checks ≡ false }
        requires fits { AnswerFits (actor.User self.old.user) answer }
        requires off { self.old.errand ≡ ErrandStep.Done }
        ensures state { self.new ≡ own_stepped self.old (heard answer) }
        ensures step { result ≡ ends_as (errand_waits self.old answer ErrandStep.Done) self.new }
        ensures nearer { self.new.errand ≡ ErrandStep.Done → ComesNearer self.old.user result self.new.user }
    {
        let begins = self.user.begins_check();
        let (step, sets_out) = self.takes(answer);
        if sets_out {
            self.user.set_out();
            self.errand = ErrandStep::TakeDevice;
            return Step::Moved;
        }
        if !begins {
            self.helped = false;
        }
        step
    }

    /// It has ended by a failure of its errand.
    fn fail(&mut self, code: u32) -> Step
        ensures state { self.new ≡ has_failed self.old code }
        ensures step { result ≡ Step.Failed code }
    {
        self.user.fail(code);
        self.errand = ErrandStep::Done;
        self.helped = false;
        Step::Failed(code)
    }

    /// It waits, and begins anew with its condition.
    fn wait(&mut self) -> Step
        ensures state { self.new ≡ waiting self.old }
        ensures step { result ≡ Step.Idle }
    {
        self.user.wait_anew();
        self.errand = ErrandStep::Done;
        self.helped = false;
        Step::Idle
    }

    /// The writer's part is over.
    fn begin_flush(&mut self, work: &mut LogWork)
        ensures user { self.new ≡ (written self.old work.old work.old.writer).0 }
        ensures work { work.new ≡ (written self.old work.old work.old.writer).1 }
    {
        work.end_write(self.user.flushes());
        self.errand = ErrandStep::Flush;
    }

    /// An Op of the writer's part was answered.
    #[tactic(auto, using(crate::proofs::Stepped::stands))]
    fn wrote(&mut self, work: &mut LogWork, answer: Answer) -> Step
        requires goes_on { work.old.writer.checks ≡ false }
        requires fits { AnswerFits (actor.Writer work.old.writer) answer }
        requires stands { MayHelpAt self.old.user.step }
        ensures user { self.new ≡ (errand_took self.old work.old answer ErrandStep.Write).0 }
        ensures work { work.new ≡ (errand_took self.old work.old answer ErrandStep.Write).1 }
        ensures step { result ≡ ends_as false self.new }
    {
        let _ = work.writer.took(answer);
        match work.writer.step() {
            WriterStep::Advance(_) | WriterStep::LoadCheckpoint if work.writer.is_checking() =>
                self.begin_flush(work),
            WriterStep::TakeDevice => work.begin_write(),
            WriterStep::GiveDevice => self.begin_flush(work),
            WriterStep::Failed => return self.fail(work.writer.code()),
            _ => {}
        }
        Step::Moved
    }

    /// An Op of the flusher's part was answered.
    #[tactic(auto, using(crate::proofs::Stepped::stands))]
    fn flushed(&mut self, work: &mut LogWork, answer: Answer) -> Step
        requires goes_on { work.old.flusher.checks ≡ false }
        requires fits { AnswerFits (actor.Flusher work.old.flusher) answer }
        requires stands { MayHelpAt self.old.user.step }
        ensures user { self.new ≡ (errand_took self.old work.old answer ErrandStep.Flush).0 }
        ensures work { work.new ≡ (errand_took self.old work.old answer ErrandStep.Flush).1 }
        ensures step { result ≡ ends_as false self.new }
    {
        let _ = work.flusher.took(answer);
        match work.flusher.step() {
            FlusherStep::LoadWrite => {
                self.errand = ErrandStep::Done;
                self.helped = true;
            }
            FlusherStep::Failed => return self.fail(work.flusher.code()),
            _ => {}
        }
        Step::Moved
    }

    /// An Op of its errand was answered.
    #[tactic(auto, using(crate::proofs::Stepped::stands))]
    fn goes_on(&mut self, work: &mut LogWork, answer: Answer) -> Step
        requires asks { self.old.user.checks ≡ false }
        requires fits { ErrandAnswerFits self.old work.old answer self.old.errand }
        requires stands { ErrandFits self.old.user self.old.errand }
        ensures user { self.new ≡ (errand_took self.old work.old answer self.old.errand).0 }
        ensures work { work.new ≡ (errand_took self.old work.old answer self.old.errand).1 }
        ensures step { result ≡ ends_as (errand_waits self.old answer self.old.errand) self.new }
        ensures nearer { self.old.errand ≡ ErrandStep.Done → self.new.errand ≡ ErrandStep.Done → ComesNearer self.old.user result self.new.user }
    {
        match self.errand {
            ErrandStep::Done => self.stepped(answer),
            ErrandStep::TakeDevice => match answer {
                Answer::Taken(_) => {
                    work.take_up();
                    self.errand = ErrandStep::Write;
                    Step::Moved
                }
                Answer::Broken => {
                    work.take_up();
                    self.errand = ErrandStep::GiveBroken;
                    Step::Moved
                }
                _ => self.wait(),
            },
            ErrandStep::GiveBroken => {
                work.give_back();
                self.user.check_next();
                self.errand = ErrandStep::TakeDevice;
                Step::Moved
            }
            ErrandStep::Write => self.wrote(work, answer),
            ErrandStep::Flush => self.flushed(work, answer),
        }
    }

    /// Takes the answer to the Op that it asked for. Only its own Ops bring it nearer to its link.
    #[tactic(auto, using(crate::proofs::StandsStill::nearer_alone, crate::proofs::StandsStill::checks_only))]
    pub fn took(&mut self, work: &mut LogWork, answer: Answer) -> Step
        requires fits { OwnAnswerFits self.old work.old answer }
        requires stands { ErrandFits self.old.user self.old.errand }
        ensures user { self.new ≡ (own_goes_on self.old work.old answer).0 }
        ensures work { work.new ≡ (own_goes_on self.old work.old answer).1 }
        ensures step { result ≡ own_step_of self.old work.old answer }
        ensures way { ComesNearerAlone self.old result self.new }
    {
        if self.user.is_checking() {
            let step = self.user.took(answer);
            if old_of(answer) != 0 {
                self.errand = ErrandStep::Done;
            }
            return step;
        }
        self.goes_on(work, answer)
    }

    /// Takes the answer to the Op that it asked for, where it hasn't the log's work in hand, and doesn't get it either: that stays
    /// as it is, wherever it lies.
    #[tactic(auto, using(crate::proofs::Stepped::stands))]
    pub fn took_alone(&mut self, answer: Answer) -> Step
        requires fits { AloneFits self.old answer }
        ensures user { (work : model.LogWork) → self.new ≡ (own_goes_on self.old work answer).0 }
        ensures work { (work : model.LogWork) → work ≡ (own_goes_on self.old work answer).1 }
        ensures step { (work : model.LogWork) → result ≡ own_step_of self.old work answer }
    {
        if self.user.is_checking() {
            let step = self.user.took(answer);
            if old_of(answer) != 0 {
                self.errand = ErrandStep::Done;
            }
            return step;
        }
        match self.errand {
            ErrandStep::Done => self.stepped(answer),
            ErrandStep::TakeDevice => self.wait(),
            ErrandStep::GiveBroken | ErrandStep::Write | ErrandStep::Flush => unreachable!(),
        }
    }

    /// Whether it has the log's work in hand.
    pub fn has_work(&self) -> bool
        ensures { result ≡ has_work self.now.errand }
    {
        match self.errand {
            ErrandStep::Done | ErrandStep::TakeDevice => false,
            ErrandStep::GiveBroken | ErrandStep::Write | ErrandStep::Flush => true,
        }
    }

    /// It has ended, and so it rests: how its last step ended.
    #[tactic(auto, using(crate::proofs::Stepped::rests_same))]
    pub fn rests(&mut self) -> Step
        requires asks { next (actor.User self.old.user) ≡ op.Rest }
        requires fits { AnswerFits (actor.User self.old.user) Answer.Rested }
        ensures same { self.new ≡ self.old }
        ensures step { result ≡ step_of (actor.User self.old.user) Answer.Rested }
    {
        self.user.took(Answer::Rested)
    }
}
