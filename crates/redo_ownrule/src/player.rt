// Who plays at a table.
ghost use Rattle.std.specs.Prelude.{true, ◌≡◌};
ghost use Rattle.redo_ownrule.specs.OwnCauses.{PlayerEndsSo};
ghost use Rattle.redo_ownrule.specs.Players.{IsAtRest, IsSamePlayer, MayRest, actor_of};
ghost use Rattle.redo_ownrule.specs.Playing.{IsPlayerSeat, PlayerAsks, PlayerHasGone};
ghost use Rattle.redo_rule.specs.Mine.{IsSameSeat};

use crate::own::{ask_own, play_own};
use redo_disk::Sectors;
use redo_drive::Actor;
use redo_follow::Receiver;
use redo_ownuser::OwnUser;
use redo_rule::{Ring, Seat, holds_nothing};
use redo_words::{Layout, Op, Step};

/// Who plays at a table: an actor by its own program, or a user that writes for itself.
#[derive(Drop)]
pub enum Player<R: Receiver> {
    Plain(Actor<R>),
    Own(OwnUser),
}

/// Whether a player surely holds nothing, so that its store may be finished: a user that writes for itself has ended then.
pub fn is_at_rest<R: Receiver>(player: &Player<R>) -> bool
    requires { MayRest player.now }
    ensures { result ≡ true → IsAtRest player.now }
{
    match player {
        Player::Plain(actor) => holds_nothing(actor),
        Player::Own(user) => user.user().has_ended(),
    }
}

/// The Op that a player asks for.
pub fn ask<L: Sectors, D: Sectors, R: Receiver>(
    table: &Ring<L, D>,
    seat: &mut Seat<L, D>,
    player: &Player<R>,
) -> Op
    requires { IsPlayerSeat table.now.table_id seat.old player.now }
    ensures seat { IsPlayerSeat table.now.table_id seat.new player.now }
    ensures same { seat.new.me ≡ seat.old.me }
    ensures asks { PlayerAsks seat.new.me.0 player.now result }
{
    match player {
        Player::Plain(actor) => actor.next(),
        Player::Own(user) => ask_own(table, seat, user),
    }
}

/// Plays the Op that a player asks for in its seat, and tells how its step ended. The words
/// are numbered by the seat's layout. It doesn't wait, and takes no memory.
pub fn play<L: Sectors, D: Sectors, R: Receiver>(
    table: &Ring<L, D>,
    seat: &mut Seat<L, D>,
    player: &mut Player<R>,
    layout: Layout,
    op: Op,
) -> Step
    requires layout { seat.old.me.0.layout ≡ layout }
    requires seat { IsPlayerSeat table.now.table_id seat.old player.old }
    requires asks { PlayerAsks seat.old.me.0 player.old op }
    ensures seat { IsPlayerSeat table.now.table_id seat.new player.new }
    ensures same { IsSameSeat R.stands_for seat.old.me.0 (actor_of player.old) seat.new.me.0 (actor_of player.new) }
    ensures player { IsSamePlayer player.old player.new }
    ensures played { PlayerHasGone L.seen D.seen seat.old.me.0 player.old result player.new }
    ensures ends { PlayerEndsSo L.seen D.seen seat.old.me.0 player.old result player.new }
{
    match player {
        Player::Plain(actor) => redo_rule::play(table, seat, actor, layout, op),
        Player::Own(user) => play_own(table, seat, user, layout, op),
    }
}
