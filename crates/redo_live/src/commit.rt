// A user commits.
ghost use Rattle.std.specs.Prelude.{◌≡◌, IfErr, IfOk};
ghost use Rattle.model_core.specs.{UserState};
ghost use Rattle.model_script.specs.{IsScriptLine};
ghost use Rattle.redo_live.specs.Committing.{HasCommitted, HasPlayed, IsRefusedSo, MayPlay};
ghost use Rattle.redo_live.specs.Holding.{IsUserOf, line_by, state_of};
ghost use Rattle.redo_rule.specs.Mine.{number_of};

use crate::refused::Refused;
use crate::store::Store;
use crate::telling::{outcome, user_in};
use crate::user::User;
use model_script::{Items, ScriptLine};
use redo_disk::Sectors;
use redo_threads::play_to_end;
use std::alloc::Global;
use std::sync::Wait;

impl<L: Sectors, D: Sectors> User<L, D> {
    /// Plays the user until its last line is answered, or it has failed.
    fn play<T: Wait>(&mut self, store: &Store<L, D>, rt: &T)
        requires { (u : UserState) × MayPlay store.now u self.old }
        ensures { (u : UserState) → MayPlay store.now u self.old → HasPlayed store.now u self.old self.new }
    {
        let layout = store.shared.layout();
        play_to_end(
            rt,
            store.shared.ring(),
            layout,
            &store.calls,
            &mut self.seat,
            &mut self.player,
        );
    }

    /// Commits a group of these operations, and answers the lsn at which it ends: once it is flushed (mode 1), once it is written
    /// (2), or once it is in the log (0). Where the group can't be committed the operations come back with why.
    pub fn commit<T: Wait>(
        &mut self,
        store: &Store<L, D>,
        rt: &T,
        alloc: Global,
        mode: u32,
        items: Items,
    ) -> Result<u64, (Refused, Items)>
        requires user { IsUserOf store.now self.old }
        requires line { IsScriptLine (line_by self.old mode items) }
        ensures mine { IsUserOf store.now self.new }
        ensures place { number_of self.new.seat.me.0 ≡ number_of self.old.seat.me.0 }
        ensures ok { IfOk result (HasCommitted store.now self.old mode items self.new) }
        ensures err { IfErr result (λ back. IsRefusedSo store.now self.old mode items back.0 self.new) }
        ensures items { IfErr result (λ back. back.1 ≡ items) }
    {
        let user = user_in(&self.player);
        if let Some(code) = user.failure() {
            return Err((Refused::Device(code), items));
        }
        let line = ScriptLine {
            user: user.number(),
            mode,
            items,
        };
        match self.take(store, alloc, &line) {
            Ok(()) => {}
            Err(refused) => return Err((refused, line.items)),
        }
        self.play(store, rt);
        match outcome(user_in(&self.player)) {
            Ok(end) => Ok(end),
            Err(code) => Err((Refused::Device(code), line.items)),
        }
    }
}
