// A store after its run.
ghost use Rattle.std.specs.Prelude.{◌≡◌, ◌+◌, List, is_some, length, map, Bool, Option};
ghost use Rattle.std.specs.List.{AllZip};
ghost use Rattle.model_own.specs.{LogWork};
ghost use Rattle.redo_drive.specs.{ListsInOrder, views_of};
ghost use Rattle.redo_ownrule.specs.Leaving.{LeavesHeard};
ghost use Rattle.redo_ownrule.specs.Players.{AreInOrder, IsSamePlayer, actor_of, crew, workers};
ghost use Rattle.redo_ownrule.specs.Sharing.{AllAtRest, AreActorsOf, AreSeatsOf, IsFixed, IsSeated, opened_of, own_of, shared_script, starts_of, table_of};
ghost use Rattle.redo_ownrule.specs.declared.player.Player.{Player as ThePlayer};
ghost use Rattle.redo_rule.specs.Closing.{IsOwedRun, TellsLoss};
ghost use Rattle.redo_rule.specs.Cutting.{HoldNothing};
ghost use Rattle.redo_rule.specs.Failing.{CodeHasCause};
ghost use Rattle.redo_rule.specs.Reached.{ReachesAll};
ghost use Rattle.redo_rule.specs.Sharing.{HaveHeard};

use crate::leaving::give_actors;
use crate::player::Player;
use crate::seats::take_all;
use crate::shared::Shared;
use redo_disk::{DevError, Sectors};
use redo_drive::{Actor, Closed, history_of};
use redo_follow::Receiver;
use redo_rule::{Left, Seat, close_table};

impl<L: Sectors, D: Sectors, R: Receiver + Drop> Shared<L, D, R> {
    /// What the run of a script leaves, given the seats of all players, each of which is at rest, and what the append to the
    /// archive met that failed: its history, its marks, both parts, and the code in FAILED; and its actors, with the writer and
    /// the flusher as far as users that wrote for themselves have brought them.
    pub fn finish(
        self,
        seats: Vec<Seat<L, D>>,
        players: Vec<Player<R>>,
        lost: Option<DevError>,
    ) -> (Closed<L, D>, Vec<Actor<R>>)
        requires seated { IsSeated self }
        requires fixed { IsFixed self }
        requires seats { AreSeatsOf (table_of self) (own_of self) seats.items players.items }
        requires order { AreInOrder (own_of self) players.items }
        requires all { length players.items + workers (own_of self) ≡ length (starts_of self) }
        requires rest { AllAtRest players.items }
        requires lost { TellsLoss self.board.shared.key.plan.archive (views_of (map actor_of players.items)) lost }
        ensures actors { AreActorsOf (own_of self) players.items result.1.items }
        ensures rest { HoldNothing (views_of result.1.items) }
        ensures leaves { (work : Option LogWork) (starts : List (ThePlayer R)) → is_some work ≡ own_of self
            → AllZip IsSamePlayer starts players.items
            → HaveHeard R.stands_for (map actor_of starts) seats.items (map actor_of players.items)
            → LeavesHeard L.seen L.gives D.seen D.gives R.stands_for (opened_of self) (shared_script self) self.board.shared.key.plan
            (crew work starts) result.1.items seats.items result.0 }
        ensures listed { ListsInOrder result.0.marks (views_of result.1.items) result.0.history }
        ensures owed { IsOwedRun L.seen L.gives D.seen D.gives (opened_of self) (shared_script self) (views_of result.1.items) result.0 }
        ensures reaches { ReachesAll (views_of result.1.items) result.0 }
        ensures cause { CodeHasCause L.seen D.seen result.0.code (opened_of self).log result.0.log (opened_of self).store result.0.store result.0.lost }
        ensures loses { result.0.lost ≡ lost }
    {
        let Shared {
            board,
            mut first,
            layout: _,
            seats: _,
            actors: room,
            entries,
        } = self;
        take_all(&board.shared, &mut first, seats, players.as_slice());
        let Left {
            marks,
            log,
            store,
            code,
            work,
        } = close_table(board, first);
        let actors = give_actors(room, players, work);
        let history = history_of(entries, actors.as_slice(), &marks);
        let closed = Closed {
            history,
            marks,
            log,
            store,
            code,
            lost,
        };
        (closed, actors)
    }
}
