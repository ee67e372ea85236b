// One Op of one actor, on the shared table: the log part.
ghost use Rattle.std.specs.Prelude.{None};
ghost use Rattle.model_core.specs.{AnswerFits};
ghost use Rattle.model_core.specs.declared.ops.Answer.TheVariants as answer;
ghost use Rattle.model_core.specs.declared.ops.Op.TheVariants as op;
ghost use Rattle.redo_drive.specs.{MarkFits, view_of};
ghost use Rattle.redo_rule.specs.Ops.{HasPlayedOp, MayPlay};
ghost use Rattle.redo_rule.specs.Readers.{HasBlock, HasGivenBack, ReadsBlock};

use crate::law::{LOG_SLOT, LOG_TURN, Ring, Seat};
use crate::plays::{Called, Gave, Seized};
use crate::slots::{checkpoint_slot, read_slot, sync_slot, taken_answer, write_slot};
use redo_disk::Sectors;
use redo_drive::{Actor, Device, answer_of};
use redo_follow::Receiver;
use redo_words::{Answer, Step};

/// `TakeDevice`.
pub(crate) fn take_device<L: Sectors, D: Sectors, R: Receiver>(
    table: &Ring<L, D>,
    token: &mut Seat<L, D>,
    actor: &mut Actor<R>,
) -> Step
    requires { MayPlay table.now.table_id token.old (view_of actor.old) op.TakeDevice }
    ensures { HasPlayedOp L.seen D.seen R.stands_for table.now.table_id token.old actor.old result token.new actor.new }
{
    if table.compare_exchange::<Seized>(token, LOG_TURN, 0, 1) != 0 {
        return actor.took(Answer::Held);
    }
    let answer = taken_answer(token.slot_mut(table, LOG_SLOT));
    actor.took(answer)
}

/// Puts the block that was read into the room that a reader of the log has for it.
fn put_block<R: Receiver>(actor: &mut Actor<R>, block: &[u8; 512])
    requires { ReadsBlock (view_of actor.old) }
    ensures { HasBlock actor.old block.now actor.new }
{
    match actor {
        Actor::Archiver(archiver) => *archiver.room() = *block,
        Actor::Follower(follower) => *follower.room() = *block,
        _ => unreachable!(),
    }
}

/// What whoever gives the log part back makes of that.
fn gives_back<R: Receiver>(actor: &mut Actor<R>) -> Step
    requires fits { AnswerFits (view_of actor.old) (answer.Taken None) }
    requires mark { MarkFits (view_of actor.old) (answer.Taken None) }
    ensures { HasGivenBack R.stands_for actor.old result actor.new }
{
    match actor {
        Actor::Archiver(archiver) => archiver.took(Answer::Taken(None)),
        Actor::Follower(follower) => follower.took(Answer::Taken(None)),
        _ => actor.took(Answer::Taken(None)),
    }
}

/// `GiveDevice`. A follower hands its groups on before others get the log part.
pub(crate) fn give_device<L: Sectors, D: Sectors, R: Receiver>(
    table: &Ring<L, D>,
    token: &mut Seat<L, D>,
    actor: &mut Actor<R>,
) -> Step
    requires { MayPlay table.now.table_id token.old (view_of actor.old) op.GiveDevice }
    ensures { HasPlayedOp L.seen D.seen R.stands_for table.now.table_id token.old actor.old result token.new actor.new }
{
    let step = gives_back(actor);
    table.store::<Gave>(token, LOG_TURN, 0);
    step
}

/// `ReadBlock lsn`.
pub(crate) fn read_block<L: Sectors, D: Sectors, R: Receiver>(
    table: &Ring<L, D>,
    token: &mut Seat<L, D>,
    actor: &mut Actor<R>,
    lsn: u64,
) -> Step
    requires { MayPlay table.now.table_id token.old (view_of actor.old) (op.ReadBlock lsn) }
    ensures { HasPlayedOp L.seen D.seen R.stands_for table.now.table_id token.old actor.old result token.new actor.new }
{
    let mut block = [0; 512];
    let ended = read_slot(token.slot_mut(table, LOG_SLOT), lsn, &mut block);
    put_block(actor, &block);
    table.load::<Called>(token, 0);
    actor.took(answer_of(Device::Log, ended, 0))
}

/// `WriteTo mark`.
pub(crate) fn write_to<L: Sectors, D: Sectors, R: Receiver>(
    table: &Ring<L, D>,
    token: &mut Seat<L, D>,
    actor: &mut Actor<R>,
    mark: u64,
) -> Step
    requires { MayPlay table.now.table_id token.old (view_of actor.old) (op.WriteTo mark) }
    ensures { HasPlayedOp L.seen D.seen R.stands_for table.now.table_id token.old actor.old result token.new actor.new }
{
    let ended = write_slot(token.slot_mut(table, LOG_SLOT), mark, actor.lent());
    table.load::<Called>(token, 0);
    actor.took(answer_of(Device::Log, ended, 0))
}

/// `Sync`.
pub(crate) fn sync<L: Sectors, D: Sectors, R: Receiver>(
    table: &Ring<L, D>,
    token: &mut Seat<L, D>,
    actor: &mut Actor<R>,
) -> Step
    requires { MayPlay table.now.table_id token.old (view_of actor.old) op.Sync }
    ensures { HasPlayedOp L.seen D.seen R.stands_for table.now.table_id token.old actor.old result token.new actor.new }
{
    let (ended, stable) = sync_slot(token.slot_mut(table, LOG_SLOT));
    table.load::<Called>(token, 0);
    actor.took(answer_of(Device::Log, ended, stable))
}

/// `Checkpoint lsn`.
pub(crate) fn checkpoint<L: Sectors, D: Sectors, R: Receiver>(
    table: &Ring<L, D>,
    token: &mut Seat<L, D>,
    actor: &mut Actor<R>,
    lsn: u64,
) -> Step
    requires { MayPlay table.now.table_id token.old (view_of actor.old) (op.Checkpoint lsn) }
    ensures { HasPlayedOp L.seen D.seen R.stands_for table.now.table_id token.old actor.old result token.new actor.new }
{
    let ended = checkpoint_slot(token.slot_mut(table, LOG_SLOT), lsn);
    table.load::<Called>(token, 0);
    actor.took(answer_of(Device::Log, ended, 0))
}
