// A store after a live run.
ghost use Rattle.std.specs.Prelude.{false, ◌≡◌, length};
ghost use Rattle.redo_ownrule.specs.LiveClosing.{AreTheirSeats, HaveAllFrom, LeavesGiven, user_count};
ghost use Rattle.redo_ownrule.specs.Sharing.{AllAtRest, IsLive, IsSeated, opened_of, own_of, starts_of, table_of};

use crate::player::Player;
use crate::seats::take_all;
use crate::shared::Shared;
use redo_disk::Sectors;
use redo_follow::Receiver;
use redo_rule::{Left, Seat, close_known};
use std::sync::Wait;

impl<L: Sectors, D: Sectors, R: Receiver + Drop> Shared<L, D, R> {
    /// What a live run leaves, given the seats of all players but users, and of any users, each of which is at rest: its marks,
    /// both parts and the code in FAILED. Its script is what its users were handed in. Its history isn't kept, but follows from
    /// what the users know of their groups. A user whose seat isn't given was dropped.
    pub fn finish_live<T: Wait>(
        self,
        rt: &T,
        seats: Vec<Seat<L, D>>,
        players: Vec<Player<R>>,
    ) -> Left<L, D>
        requires seated { IsSeated self }
        requires live { IsLive self }
        requires plain { own_of self ≡ false }
        requires seats { AreTheirSeats (table_of self) seats.items players.items }
        requires others { HaveAllFrom (user_count self) (length (starts_of self)) seats.items }
        requires rest { AllAtRest players.items }
        ensures { LeavesGiven L.seen L.gives D.seen D.gives (opened_of self) self.board.shared.key.plan.log_only (user_count self)
            seats.items players.items result }
    {
        let Shared {
            board,
            mut first,
            layout: _,
            seats: _,
            actors: _,
            entries: _,
        } = self;
        take_all(&board.shared, &mut first, seats, players.as_slice());
        close_known(rt, board, first)
    }
}
