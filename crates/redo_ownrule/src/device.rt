// One Op of a user that writes for itself, on the shared table: the log part, with the log's work.
ghost use Rattle.model_core.specs.declared.ops.Op.TheVariants as op;
ghost use Rattle.redo_ownrule.specs.OwnOp.{OwnHasPlayedOp, OwnMayPlay};

use crate::answering::{answered_alone, answered_at};
use crate::plays::{OwnCalled, OwnGave, OwnSeized};
use crate::slots::{took_at, write_at};
use redo_disk::Sectors;
use redo_drive::{Device, answer_of};
use redo_ownuser::OwnUser;
use redo_rule::{LOG_SLOT, LOG_TURN, Ring, Seat, sync_slot, taken_answer};
use redo_words::{Answer, Step};

/// `TakeDevice`.
pub(crate) fn take_device<L: Sectors, D: Sectors>(
    table: &Ring<L, D>,
    token: &mut Seat<L, D>,
    user: &mut OwnUser,
) -> Step
    requires { OwnMayPlay table.now.table_id token.old user.old op.TakeDevice }
    ensures { OwnHasPlayedOp L.seen D.seen table.now.table_id token.old user.old result token.new user.new }
{
    if table.compare_exchange::<OwnSeized>(token, LOG_TURN, 0, 1) != 0 {
        return answered_alone(table, token, user, Answer::Held);
    }
    let answer = taken_answer(token.slot_mut(table, LOG_SLOT));
    answered_at(table, token, user, answer)
}

/// `GiveDevice`. The log's work takes the answer before others get it.
pub(crate) fn give_device<L: Sectors, D: Sectors>(
    table: &Ring<L, D>,
    token: &mut Seat<L, D>,
    user: &mut OwnUser,
) -> Step
    requires { OwnMayPlay table.now.table_id token.old user.old op.GiveDevice }
    ensures { OwnHasPlayedOp L.seen D.seen table.now.table_id token.old user.old result token.new user.new }
{
    let step = took_at(token.slot_mut(table, LOG_SLOT), user, Answer::Taken(None));
    table.store::<OwnGave>(token, LOG_TURN, 0);
    step
}

/// `WriteTo mark`.
pub(crate) fn write_to<L: Sectors, D: Sectors>(
    table: &Ring<L, D>,
    token: &mut Seat<L, D>,
    user: &mut OwnUser,
    mark: u64,
) -> Step
    requires { OwnMayPlay table.now.table_id token.old user.old (op.WriteTo mark) }
    ensures { OwnHasPlayedOp L.seen D.seen table.now.table_id token.old user.old result token.new user.new }
{
    let ended = write_at(token.slot_mut(table, LOG_SLOT), &*user, mark);
    table.load::<OwnCalled>(token, 0);
    answered_at(table, token, user, answer_of(Device::Log, ended, 0))
}

/// `Sync`.
pub(crate) fn sync<L: Sectors, D: Sectors>(
    table: &Ring<L, D>,
    token: &mut Seat<L, D>,
    user: &mut OwnUser,
) -> Step
    requires { OwnMayPlay table.now.table_id token.old user.old op.Sync }
    ensures { OwnHasPlayedOp L.seen D.seen table.now.table_id token.old user.old result token.new user.new }
{
    let (ended, stable) = sync_slot(token.slot_mut(table, LOG_SLOT));
    table.load::<OwnCalled>(token, 0);
    answered_at(table, token, user, answer_of(Device::Log, ended, stable))
}
