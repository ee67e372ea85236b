// One Op of one actor, on the shared table: the flush lists.
ghost use Rattle.std.specs.Prelude.{suc, ◌+◌, ◌<◌, ◌≡◌};
ghost use Rattle.model_core.specs.declared.limits.TheConstants.{FLUSH_LISTS};
ghost use Rattle.model_core.specs.declared.ops.Op.TheVariants as op;
ghost use Rattle.redo_drive.specs.{view_of};
ghost use Rattle.redo_rule.specs.declared.law.TheConstants.{LOG_TURN};
ghost use Rattle.redo_rule.specs.Ops.{HasPlayedOp, MayPlay};

use crate::law::{LOG_TURN, Ring, Seat};
use crate::plays::{Gave, SeizedList};
use crate::slots::{add_slot, oldest_slot, remove_slot};
use model_core::FLUSH_LISTS;
use redo_disk::Sectors;
use redo_drive::Actor;
use redo_follow::Receiver;
use redo_words::{Answer, Step};

/// The turn word of a flush list, and its slot.
pub fn list_turn(list: u32) -> usize
    requires { list < FLUSH_LISTS }
    ensures { result ≡ suc LOG_TURN + list }
{
    LOG_TURN + 1 + list as usize
}

/// The slot of a flush list.
pub fn list_slot(list: u32) -> usize
    ensures { result ≡ suc list }
{
    list as usize + 1
}

/// `TakeAdd page oldest`.
pub(crate) fn take_add<L: Sectors, D: Sectors, R: Receiver>(
    table: &Ring<L, D>,
    token: &mut Seat<L, D>,
    actor: &mut Actor<R>,
    page: u32,
    oldest: u64,
) -> Step
    requires { MayPlay table.now.table_id token.old (view_of actor.old) (op.TakeAdd page oldest) }
    ensures { HasPlayedOp L.seen D.seen R.stands_for table.now.table_id token.old actor.old result token.new actor.new }
{
    let list = page % FLUSH_LISTS as u32;
    if table.compare_exchange::<SeizedList>(token, list_turn(list), 0, 1) != 0 {
        return actor.took(Answer::Held);
    }
    add_slot(token.slot_mut(table, list_slot(list)), page, oldest);
    actor.took(Answer::Taken(None))
}

/// `TakeRemove page`.
pub(crate) fn take_remove<L: Sectors, D: Sectors, R: Receiver>(
    table: &Ring<L, D>,
    token: &mut Seat<L, D>,
    actor: &mut Actor<R>,
    page: u32,
) -> Step
    requires { MayPlay table.now.table_id token.old (view_of actor.old) (op.TakeRemove page) }
    ensures { HasPlayedOp L.seen D.seen R.stands_for table.now.table_id token.old actor.old result token.new actor.new }
{
    let list = page % FLUSH_LISTS as u32;
    if table.compare_exchange::<SeizedList>(token, list_turn(list), 0, 1) != 0 {
        return actor.took(Answer::Held);
    }
    remove_slot(token.slot_mut(table, list_slot(list)), page);
    actor.took(Answer::Taken(None))
}

/// `TakeOldest list`.
pub(crate) fn take_oldest<L: Sectors, D: Sectors, R: Receiver>(
    table: &Ring<L, D>,
    token: &mut Seat<L, D>,
    actor: &mut Actor<R>,
    list: u32,
) -> Step
    requires { MayPlay table.now.table_id token.old (view_of actor.old) (op.TakeOldest list) }
    ensures { HasPlayedOp L.seen D.seen R.stands_for table.now.table_id token.old actor.old result token.new actor.new }
{
    if table.compare_exchange::<SeizedList>(token, list_turn(list), 0, 1) != 0 {
        return actor.took(Answer::Held);
    }
    let oldest = oldest_slot(token.slot_mut(table, list_slot(list)), list);
    actor.took(Answer::Taken(oldest))
}

/// `GiveList list`.
pub(crate) fn give_list<L: Sectors, D: Sectors, R: Receiver>(
    table: &Ring<L, D>,
    token: &mut Seat<L, D>,
    actor: &mut Actor<R>,
    list: u32,
) -> Step
    requires { MayPlay table.now.table_id token.old (view_of actor.old) (op.GiveList list) }
    ensures { HasPlayedOp L.seen D.seen R.stands_for table.now.table_id token.old actor.old result token.new actor.new }
{
    table.store::<Gave>(token, list_turn(list), 0);
    actor.took(Answer::Taken(None))
}
