// One Op of a user that writes for itself, on the shared table: the flush lists.
ghost use Rattle.model_core.specs.declared.ops.Op.TheVariants as op;
ghost use Rattle.redo_ownrule.specs.OwnOp.{OwnHasPlayedOp, OwnMayPlay};

use crate::answering::answered_alone;
use crate::plays::{OwnGave, OwnSeizedList};
use model_core::FLUSH_LISTS;
use redo_disk::Sectors;
use redo_ownuser::OwnUser;
use redo_rule::{Ring, Seat, add_slot, list_slot, list_turn};
use redo_words::{Answer, Step};

/// `TakeAdd page oldest`.
pub(crate) fn take_add<L: Sectors, D: Sectors>(
    table: &Ring<L, D>,
    token: &mut Seat<L, D>,
    user: &mut OwnUser,
    page: u32,
    oldest: u64,
) -> Step
    requires { OwnMayPlay table.now.table_id token.old user.old (op.TakeAdd page oldest) }
    ensures { OwnHasPlayedOp L.seen D.seen table.now.table_id token.old user.old result token.new user.new }
{
    let list = page % FLUSH_LISTS as u32;
    if table.compare_exchange::<OwnSeizedList>(token, list_turn(list), 0, 1) != 0 {
        return answered_alone(table, token, user, Answer::Held);
    }
    add_slot(token.slot_mut(table, list_slot(list)), page, oldest);
    answered_alone(table, token, user, Answer::Taken(None))
}

/// `GiveList list`.
pub(crate) fn give_list<L: Sectors, D: Sectors>(
    table: &Ring<L, D>,
    token: &mut Seat<L, D>,
    user: &mut OwnUser,
    list: u32,
) -> Step
    requires { OwnMayPlay table.now.table_id token.old user.old (op.GiveList list) }
    ensures { OwnHasPlayedOp L.seen D.seen table.now.table_id token.old user.old result token.new user.new }
{
    table.store::<OwnGave>(token, list_turn(list), 0);
    answered_alone(table, token, user, Answer::Taken(None))
}
