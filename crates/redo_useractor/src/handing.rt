// A user that is handed in one line more.
ghost use Rattle.std.specs.Prelude.{◌≡◌, IfErr, IfOk};
ghost use Rattle.model_base.specs.{IsWithinLimits};
ghost use Rattle.model_core.specs.{line_of};
ghost use Rattle.redo_useractor.specs.Handing.{with_line};
ghost use Rattle.redo_useractor.specs.Lines.{IsUserLine};

use crate::actor::UserActor;
use model_base::Shape;
use model_core::UserStep;
use model_log::Group;
use redo_lsn::NoMemory;
use std::alloc::Global;

impl UserActor {
    /// Goes on to one line more, a user that has done all that it had. It takes the room for all that the line needs, and frees
    /// the line before unless it keeps all. Where there is no room the user is as it was, and the group comes back.
    pub fn take_line(
        &mut self,
        alloc: Global,
        mode: u32,
        group: Group,
        shape: &Shape,
        log_only: bool,
    ) -> Result<(), (NoMemory, Group)>
        requires limits { IsWithinLimits shape.now }
        requires line { IsUserLine shape.now (mode, group) }
        requires done { self.old.step ≡ UserStep.Done }
        ensures ok { IfOk result (λ _. self.new ≡ with_line self.old (line_of log_only shape.now mode group)) }
        ensures err { IfErr result (λ back. (self.new ≡ self.old) × (back.1 ≡ group)) }
    {
        self.book.take_line(alloc, mode, group, shape, log_only)?;
        self.checks = true;
        self.step = UserStep::LoadCheckpoint;
        Ok(())
    }
}
