// What a user that writes for itself does with its own state beside its program.
ghost use Rattle.std.specs.Prelude.{◌≡◌, false, true};
ghost use Rattle.model_own.specs.{begins_again, flushes_at, helps_at, keeps_helped, loads_again};

use crate::actor::UserActor;
use model_core::UserStep;

/// The load with which a user goes on after an errand: it makes no second advance.
fn loads_again(step: UserStep) -> UserStep
    ensures { result ≡ loads_again step }
{
    match step {
        UserStep::LoadWtail => UserStep::ReloadWtail,
        step => step,
    }
}

/// The load with which it begins anew after a wait.
fn begins_again(step: UserStep) -> UserStep
    ensures { result ≡ begins_again step }
{
    match step {
        UserStep::ReloadWtail => UserStep::LoadWtail,
        step => step,
    }
}

impl UserActor {
    /// Whether its next Op is a check for a failure.
    pub fn is_checking(&self) -> bool
        ensures { result ≡ self.now.checks }
    {
        self.checks
    }

    /// Whether a wait at its step is one in whose place it goes on an errand.
    pub fn helps(&self) -> bool
        ensures { result ≡ helps_at self.now.step }
    {
        matches!(
            self.step,
            UserStep::LoadSn
                | UserStep::LoadWrite
                | UserStep::AdvanceWritten(_)
                | UserStep::ReloadWtail
                | UserStep::AwaitMark
        )
    }

    /// Whether its step is the first of the free-space check's two loads.
    pub fn begins_check(&self) -> bool
        ensures { result ≡ keeps_helped self.now.step }
    {
        matches!(self.step, UserStep::LoadCheckpoint)
    }

    /// Whether its errand flushes too.
    pub fn flushes(&self) -> bool
        ensures { result ≡ flushes_at self.now self.now.step }
    {
        match self.step {
            UserStep::LoadCheckpoint => true,
            UserStep::AwaitMark => self.line().mode == 1,
            _ => false,
        }
    }

    /// It doesn't wait, but sets out on an errand, after which it loads the word of its condition again.
    pub fn set_out(&mut self)
        ensures { self.new ≡ record self.old { checks = false; step = loads_again self.old.step } }
    {
        self.checks = false;
        self.step = loads_again(self.step);
    }

    /// It checks for a failure before its next Op.
    pub fn check_next(&mut self)
        ensures { self.new ≡ record self.old { checks = true } }
    {
        self.checks = true;
    }

    /// It waits, and begins anew with its condition.
    pub fn wait_anew(&mut self)
        ensures { self.new ≡ record self.old { checks = true; step = begins_again self.old.step } }
    {
        self.checks = true;
        self.step = begins_again(self.step);
    }

    /// It has ended by a failure of its errand.
    pub fn fail(&mut self, code: u32)
        ensures { self.new ≡ record self.old { code = code; checks = false; step = UserStep.Failed } }
    {
        self.code = code;
        self.checks = false;
        self.step = UserStep::Failed;
    }
}
