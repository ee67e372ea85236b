// One seat for each player, and all seats taken in again.
ghost use Rattle.std.specs.Prelude.{[], Some, ◌≡◌, ◌≤◌, length, vec_capacity, Bool, ℕ, map};
ghost use lib.ListN.{get_elem?};
ghost use mathlib.Core.Option.{some};
ghost use Rattle.model_core.specs.States as model;
ghost use Rattle.redo_drive.specs.{views_of};
ghost use Rattle.redo_ownrule.specs.Gathering.{AreHandedOut, HasPlayer, IsHeadOf};
ghost use Rattle.redo_ownrule.specs.Players.{actor_of, place, seated};
ghost use Rattle.redo_ownrule.specs.Sharing.{AllAtRest, AreSeatsOf, IsSeated, IsUnseated, own_of, table_of};
ghost use Rattle.redo_rule.specs.Cutting.{IsFirst};
ghost use Rattle.redo_rule.specs.Gathering.{HasOneCleaner, PartIsKept};
ghost use Rattle.redo_rule.specs.Ruled.{none_heard};
ghost use Rattle.redo_rule.specs.Seating.{HasPart, IsCleaner};
ghost use Rattle.redo_rule.specs.Seats.{cut_left, cut_right};
ghost use Rattle.redo_rule.specs.Sharing.{AreFresh, AreLaidOut, heard_by};

use crate::player::Player;
use crate::plays::OwnLooked;
use crate::shared::Shared;
use redo_disk::Sectors;
use redo_follow::Receiver;
use redo_rule::{Ring, Seat, cut_off, cut_seat, take_in};

/// A seat for the first of the players that have none.
fn cut_one<L: Sectors, D: Sectors, R: Receiver>(
    table: &Ring<L, D>,
    first: &mut Seat<L, D>,
    player: &Player<R>,
) -> Seat<L, D>
    requires first { IsFirst table.now.table_id first.old }
    requires head { IsHeadOf first.old.me.0 player.now }
    ensures first { IsFirst table.now.table_id first.new }
    ensures left { first.new.me.0 ≡ cut_left first.old.me.0 }
    ensures right { result.me.0 ≡ cut_right first.old.me.0 }
    ensures mine { HasPlayer table.now.table_id result player.now }
{
    match player {
        Player::Plain(_) => cut_off(table, first),
        Player::Own(_) => {
            let mut token = cut_seat(table, first);
            table.load::<OwnLooked>(&mut token, 0);
            token
        }
    }
}

/// Cuts a seat off the first one for each player.
fn cut_all<L: Sectors, D: Sectors, R: Receiver>(
    table: &Ring<L, D>,
    first: &mut Seat<L, D>,
    mut seats: Vec<Seat<L, D>>,
    players: &[Player<R>],
) -> Vec<Seat<L, D>>
    requires apart { (own : Bool) × AreHandedOut table.now.table_id (place own players.now) none_heard players.now first.old seats.items }
    requires part { HasPart first.old.me.0 }
    requires cleaner { HasOneCleaner (views_of (map actor_of players.now)) }
    requires none { seats.items ≡ [] }
    requires room { length players.now ≤ vec_capacity seats }
    ensures apart { (own : Bool) → AreHandedOut table.now.table_id (place own players.now) none_heard players.now first.old seats.items
        → AreHandedOut table.now.table_id (place own players.now) none_heard players.now first.new result.items }
    ensures all { length result.items ≡ length players.now }
    ensures part { PartIsKept (length players.now) (views_of (map actor_of players.now)) first.new }
    ensures fresh { AreFresh first.old.me.0.about result.items }
    ensures layout { AreLaidOut first.old.me.0.layout result.items }
{
    while seats.len() < players.len() {
        let seat = cut_one(table, first, &players[seats.len()]);
        seats.push_reserved(seat);
    }
    seats
}

/// Takes all seats in, the last one first.
pub(crate) fn take_all<L: Sectors, D: Sectors, R: Receiver>(
    table: &Ring<L, D>,
    first: &mut Seat<L, D>,
    mut seats: Vec<Seat<L, D>>,
    players: &[Player<R>],
)
    requires apart { (number : ℕ → ℕ) × AreHandedOut table.now.table_id number (heard_by seats.items) players.now first.old seats.items }
    requires rest { AllAtRest players.now }
    requires all { length seats.items ≡ length players.now }
    ensures first { IsFirst table.now.table_id first.new }
    ensures all { (number : ℕ → ℕ) → AreHandedOut table.now.table_id number (heard_by seats.items) players.now first.old seats.items
        → first.new.me.0.seats ≡ seated number (heard_by seats.items) 0 players.now }
    ensures part { HasPart first.old.me.0 → HasPart first.new.me.0 }
    ensures cleaner { (i : ℕ) (a : model.Actor) → get_elem? (views_of (map actor_of players.now)) i ≡ some a → IsCleaner a → HasPart first.new.me.0 }
{
    while let Some(seat) = seats.pop() {
        take_in(table, first, seat);
    }
}

impl<L: Sectors, D: Sectors, R: Receiver + Drop> Shared<L, D, R> {
    /// The seats of the players, one of each, in their order. They are given once.
    pub fn seats(&mut self, players: &[Player<R>]) -> Vec<Seat<L, D>>
        requires { IsUnseated self.old players.now }
        ensures seated { IsSeated self.new }
        ensures same { self.new.board ≡ self.old.board }
        ensures seats { AreSeatsOf (table_of self.new) (own_of self.new) result.items players.now }
        ensures fresh { AreFresh (Some self.new.board.shared.key) result.items }
        ensures layout { (self.new.layout ≡ self.old.layout) × AreLaidOut self.new.layout result.items }
    {
        let Some(room) = self.seats.take() else {
            unreachable!()
        };
        let board = &self.board;
        cut_all(&board.shared, &mut self.first, room, players)
    }
}
