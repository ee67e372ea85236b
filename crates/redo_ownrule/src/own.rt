// One Op of a user that writes for itself, on the shared table.
ghost use Rattle.std.specs.Prelude.{◌≡◌};
ghost use Rattle.redo_ownrule.specs.OwnCauses.{OwnEndsSo};
ghost use Rattle.redo_ownrule.specs.OwnMine.{IsOwnSeat, KeepsOwnSeat, OwnHasGone};
ghost use Rattle.redo_ownrule.specs.Playing.{OwnAsks};

use crate::device::{give_device, sync, take_device, write_to};
use crate::listing::{give_list, take_add};
use crate::slots::next_at;
use crate::steps::{add, load, store, swap};
use redo_disk::Sectors;
use redo_ownuser::OwnUser;
use redo_rule::{LOG_SLOT, Ring, Seat};
use redo_words::{Layout, Op, Step};

/// The Op that a user asks for: its own, or one of the log's work, if that is in its hand.
pub(crate) fn ask_own<L: Sectors, D: Sectors>(
    table: &Ring<L, D>,
    seat: &mut Seat<L, D>,
    user: &OwnUser,
) -> Op
    requires { IsOwnSeat table.now.table_id seat.old user.now }
    ensures seat { IsOwnSeat table.now.table_id seat.new user.now }
    ensures same { seat.new.me ≡ seat.old.me }
    ensures asks { OwnAsks seat.new.me.0 user.now result }
{
    if user.has_work() {
        next_at(seat.slot_mut(table, LOG_SLOT), user)
    } else {
        user.next_alone()
    }
}

/// Plays the Op that a user asks for.
fn play_next<L: Sectors, D: Sectors>(
    table: &Ring<L, D>,
    seat: &mut Seat<L, D>,
    user: &mut OwnUser,
    layout: Layout,
    op: Op,
) -> Step
    requires layout { seat.old.me.0.layout ≡ layout }
    requires seat { IsOwnSeat table.now.table_id seat.old user.old }
    requires asks { OwnAsks seat.old.me.0 user.old op }
    ensures seat { IsOwnSeat table.now.table_id seat.new user.new }
    ensures same { KeepsOwnSeat seat.old.me.0 seat.new.me.0 }
    ensures played { OwnHasGone L.seen D.seen seat.old.me.0 user.old result user.new }
{
    match op {
        Op::Load(word) => load(table, seat, user, layout, word),
        Op::Store(word, number) => store(table, seat, user, layout, word, number),
        Op::Add(word, number) => add(table, seat, user, layout, word, number),
        Op::Swap(word, old, new) => swap(table, seat, user, layout, word, old, new),
        Op::TakeDevice => take_device(table, seat, user),
        Op::GiveDevice => give_device(table, seat, user),
        Op::TakeAdd(page, oldest) => take_add(table, seat, user, page, oldest),
        Op::GiveList(list) => give_list(table, seat, user, list),
        Op::WriteTo(mark) => write_to(table, seat, user, mark),
        Op::Sync => sync(table, seat, user),
        Op::Rest => user.rests(),
        // neither a user nor the log's work asks for these
        Op::TakeRemove(_)
        | Op::TakeOldest(_)
        | Op::Checkpoint(_)
        | Op::ReadBlock(_)
        | Op::WriteBatch
        | Op::Append(_) => unreachable!(),
    }
}

/// Plays the Op that a user asks for whose state is the seat's view, and tells how its step ended.
pub(crate) fn play_own<L: Sectors, D: Sectors>(
    table: &Ring<L, D>,
    seat: &mut Seat<L, D>,
    user: &mut OwnUser,
    layout: Layout,
    op: Op,
) -> Step
    requires layout { seat.old.me.0.layout ≡ layout }
    requires seat { IsOwnSeat table.now.table_id seat.old user.old }
    requires asks { OwnAsks seat.old.me.0 user.old op }
    ensures seat { IsOwnSeat table.now.table_id seat.new user.new }
    ensures same { KeepsOwnSeat seat.old.me.0 seat.new.me.0 }
    ensures played { OwnHasGone L.seen D.seen seat.old.me.0 user.old result user.new }
    ensures ends { OwnEndsSo L.seen D.seen seat.old.me.0 user.old result user.new }
{
    play_next(table, seat, user, layout, op)
}
