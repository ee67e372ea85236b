// One Op of one actor, on the shared table: the writing of a batch.
ghost use Rattle.model_core.specs.declared.ops.Op.TheVariants as op;
ghost use Rattle.redo_drive.specs.{view_of};
ghost use Rattle.redo_rule.specs.Ops.{HasPlayedOp, MayPlay};

use crate::law::{DATA_SLOT, Ring, Seat};
use crate::plays::{Batched, Reached};
use crate::slots::batch_slot;
use redo_disk::Sectors;
use redo_drive::{Actor, Device, answer_of};
use redo_follow::Receiver;
use redo_words::Step;

/// `WriteBatch`.
pub(crate) fn write_batch<L: Sectors, D: Sectors, R: Receiver>(
    table: &Ring<L, D>,
    token: &mut Seat<L, D>,
    actor: &mut Actor<R>,
) -> Step
    requires { MayPlay table.now.table_id token.old (view_of actor.old) op.WriteBatch }
    ensures { HasPlayedOp L.seen D.seen R.stands_for table.now.table_id token.old actor.old result token.new actor.new }
{
    table.load::<Reached>(token, 0);
    let ended = batch_slot(token.slot_mut(table, DATA_SLOT), actor.lent());
    table.load::<Batched>(token, 0);
    actor.took(answer_of(Device::Data, ended, 0))
}
