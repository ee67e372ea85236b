// A user takes a line, if the store has room for it.
ghost use Rattle.std.specs.Prelude.{◌≡◌, IfErr, OnOk};
ghost use Rattle.model_core.specs.declared.steps.UserStep.TheVariants as user_step;
ghost use Rattle.redo_live.specs.Committing.{HasTaken, IsRefusedFor};
ghost use Rattle.redo_live.specs.Holding.{IsLineOf, IsUserOf, state_of};

use crate::giving::give_line;
use crate::refused::Refused;
use crate::store::Store;
use crate::user::User;
use model_script::{ScriptLine, fitting_script};
use redo_disk::Sectors;
use redo_script::{Unfit, judge_line};
use std::alloc::Global;

impl<L: Sectors, D: Sectors> User<L, D> {
    /// Takes the line, to which the user goes on, if it fits the store and the user's groups have room for it. Else the user is as
    /// it was.
    pub(crate) fn take(
        &mut self,
        store: &Store<L, D>,
        alloc: Global,
        line: &ScriptLine,
    ) -> Result<(), Refused>
        requires user { IsUserOf store.now self.old }
        requires done { (state_of self.old).step ≡ user_step.Done }
        requires line { IsLineOf self.old line.now }
        ensures ok { OnOk result (HasTaken store.now self.old line.now self.new) }
        ensures same { IfErr result (λ _. self.new ≡ self.old) }
        ensures refused { IfErr result (IsRefusedFor store.now self.old line.now) }
    {
        fitting_script();
        let (group, length) = match judge_line(alloc, &store.shape, line) {
            Ok(made) => made,
            Err(Unfit::Misfit(misfit)) => return Err(Refused::Unfit(misfit)),
            Err(Unfit::NoMemory) => return Err(Refused::NoMemory),
        };
        if store.quota - self.used < length {
            return Err(Refused::Full);
        }
        match give_line(
            alloc,
            store.shared.ring(),
            &mut self.seat,
            &mut self.player,
            line,
            group,
            &store.shape,
            store.log_only,
        ) {
            Ok(()) => {}
            Err(_) => return Err(Refused::NoMemory),
        }
        self.used += length;
        Ok(())
    }
}
