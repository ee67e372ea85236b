// One Op of one actor, on the shared table.
ghost use Rattle.std.specs.Prelude.{◌≡◌};
ghost use Rattle.model_core.specs.{next};
ghost use Rattle.redo_drive.specs.{view_of};
ghost use Rattle.redo_rule.specs.Causes.{EndsSo};
ghost use Rattle.redo_rule.specs.Mine.{HasGone, IsSameSeat};
ghost use Rattle.redo_rule.specs.Ops.{HasPlayedOp, MayPlay};
ghost use Rattle.redo_rule.specs.Seating.{IsBare, IsSeatOf};

use crate::appending::append;
use crate::batch::write_batch;
use crate::device::{checkpoint, give_device, read_block, sync, take_device, write_to};
use crate::law::{Ring, Seat};
use crate::listing::{give_list, take_add, take_oldest, take_remove};
use crate::steps::{add, load, store, swap};
use redo_disk::{DevError, Sectors};
use redo_drive::Actor;
use redo_follow::Receiver;
use redo_words::{Answer, Layout, Op, Step};

/// Plays an Op on the words, the log part or a list.
fn play_token<L: Sectors, D: Sectors, R: Receiver>(
    table: &Ring<L, D>,
    token: &mut Seat<L, D>,
    actor: &mut Actor<R>,
    layout: Layout,
    op: Op,
) -> Step
    requires layout { token.old.me.0.layout ≡ layout }
    requires may { MayPlay table.now.table_id token.old (view_of actor.old) op }
    requires bare { IsBare op }
    ensures { HasPlayedOp L.seen D.seen R.stands_for table.now.table_id token.old actor.old result token.new actor.new }
{
    match op {
        Op::Load(word) => load(table, token, actor, layout, word),
        Op::Store(word, number) => store(table, token, actor, layout, word, number),
        Op::Add(word, number) => add(table, token, actor, layout, word, number),
        Op::Swap(word, old, new) => swap(table, token, actor, layout, word, old, new),
        Op::TakeDevice => take_device(table, token, actor),
        Op::GiveDevice => give_device(table, token, actor),
        Op::TakeAdd(page, oldest) => take_add(table, token, actor, page, oldest),
        Op::TakeRemove(page) => take_remove(table, token, actor, page),
        Op::TakeOldest(list) => take_oldest(table, token, actor, list),
        Op::GiveList(list) => give_list(table, token, actor, list),
        Op::WriteTo(mark) => write_to(table, token, actor, mark),
        Op::Sync => sync(table, token, actor),
        Op::Checkpoint(lsn) => checkpoint(table, token, actor, lsn),
        Op::ReadBlock(lsn) => read_block(table, token, actor, lsn),
        // these aren't bare
        Op::WriteBatch | Op::Append(_) | Op::Rest => unreachable!(),
    }
}

/// Plays the Op that an actor asks for.
fn play_next<L: Sectors, D: Sectors, R: Receiver>(
    table: &Ring<L, D>,
    seat: &mut Seat<L, D>,
    actor: &mut Actor<R>,
    layout: Layout,
    op: Op,
) -> Step
    requires layout { seat.old.me.0.layout ≡ layout }
    requires seat { IsSeatOf table.now.table_id seat.old (view_of actor.old) }
    requires asks { next (view_of actor.old) ≡ op }
    ensures seat { IsSeatOf table.now.table_id seat.new (view_of actor.new) }
    ensures same { IsSameSeat R.stands_for seat.old.me.0 actor.old seat.new.me.0 actor.new }
    ensures played { HasGone L.seen D.seen seat.old.me.0 (view_of actor.old) result (view_of actor.new) }
{
    match op {
        Op::WriteBatch => write_batch(table, seat, actor),
        Op::Rest => actor.took(Answer::Rested),
        // without its archive an append has no memory
        Op::Append(_) => append(table, seat, actor, Some(DevError::NoMemory)),
        _ => play_token(table, seat, actor, layout, op),
    }
}

/// Plays the Op that the actor asks for whose state is the seat's view, and tells how its step ended. It doesn't wait, and takes
/// no memory. The words are numbered by the seat's layout. An append of the archiver is played by `append`; here it fails for want of memory.
pub fn play<L: Sectors, D: Sectors, R: Receiver>(
    table: &Ring<L, D>,
    seat: &mut Seat<L, D>,
    actor: &mut Actor<R>,
    layout: Layout,
    op: Op,
) -> Step
    requires layout { seat.old.me.0.layout ≡ layout }
    requires seat { IsSeatOf table.now.table_id seat.old (view_of actor.old) }
    requires asks { next (view_of actor.old) ≡ op }
    ensures seat { IsSeatOf table.now.table_id seat.new (view_of actor.new) }
    ensures same { IsSameSeat R.stands_for seat.old.me.0 actor.old seat.new.me.0 actor.new }
    ensures played { HasGone L.seen D.seen seat.old.me.0 (view_of actor.old) result (view_of actor.new) }
    ensures ends { EndsSo L.seen D.seen seat.old.me.0 (view_of actor.old) result (view_of actor.new) }
{
    play_next(table, seat, actor, layout, op)
}
