// Calls of what lies in a slot.
ghost use Rattle.std.specs.Prelude.{◌≡◌, ℕ, None, is_some};
ghost use Rattle.model_core.specs.States as model;
ghost use Rattle.model_base.specs.declared.shape.Shape.{Shape};
ghost use Rattle.model_core.specs.{DataServed, KeptPage, LogServed};
ghost use Rattle.redo_drive.specs.DataPartSide as data_part;
ghost use Rattle.model_core.specs.declared.ops.Op.TheVariants as op;
ghost use Rattle.model_parts.specs.{MayBeNext};
ghost use Rattle.redo_logdev.specs.{MayRead};
ghost use Rattle.redo_logdev.specs.Part as log_dev;
ghost use Rattle.redo_drive.specs.{call_code, HasWholePages, MayBatchLent, MayWriteLent};
ghost use Rattle.redo_drive.specs.declared.device.Device.TheVariants as device;
ghost use Rattle.redo_drive.specs.LogPartSide as log_part;
ghost use Rattle.redo_rule.specs.Plays.{ListFits, list_behind, list_said, taking};
ghost use Rattle.redo_rule.specs.Slots.{IsBatched, IsCalled, IsData, IsLog, IsPages, block_of};
ghost use Rattle.redo_rule.specs.declared.law.Desk.{Desk};
ghost use Rattle.redo_store.specs.Part as store_dev;
ghost use Rattle.redo_words.specs.{Lends};

use crate::law::{Desk, Slot};
use redo_disk::{DevError, Sectors};
use redo_drive::{call_batch, call_checkpoint, call_read, call_sync, call_write};
use redo_store::DataPart;
use redo_words::{Answer, Lent};
use std::sync::Wait;

/// The answer to whoever has taken the log part.
pub fn taken_answer<L: Sectors, D: Sectors>(slot: &Slot<L, D>) -> Answer
    requires { IsLog slot.now (λ p. Unit {0}) }
    ensures { (desk : Desk L) → slot.now ≡ Slot.Log desk → result ≡ taking (is_some desk.part.failed) }
{
    match slot {
        Slot::Log(desk) => match desk.part.failed() {
            None => Answer::Taken(None),
            Some(_) => Answer::Broken,
        },
        Slot::Pages(_) | Slot::Data(_) => unreachable!(),
    }
}

/// Writes the log up to a mark.
pub(crate) fn write_slot<L: Sectors, D: Sectors>(
    slot: &mut Slot<L, D>,
    mark: u64,
    lent: Lent<'_>,
) -> Result<(), DevError>
    requires { IsLog slot.old (λ p. MayWriteLent p mark lent) }
    ensures { IsCalled L.gives slot.old slot.new result (λ p q. (faults start : ℕ) (first : log_dev.Part L) (l : model.Lent) → Lends lent.entry l
        → LogServed (log_part.log_side L.seen faults first.marks.number (log_part.HasBegun L.seen start first)) p l (op.WriteTo mark) (call_code device.Log q.failed) q) }
{
    match slot {
        Slot::Log(desk) => call_write(&mut desk.part, mark, lent),
        Slot::Pages(_) | Slot::Data(_) => unreachable!(),
    }
}

/// How a sync ended, and the stable mark after it.
pub fn sync_slot<L: Sectors, D: Sectors>(slot: &mut Slot<L, D>) -> (Result<(), DevError>, u64)
    requires { IsLog slot.old (λ p. p.failed ≡ None) }
    ensures called { IsCalled L.gives slot.old slot.new result.0 (λ p q. (faults start : ℕ) (first : log_dev.Part L) (l : model.Lent)
        → LogServed (log_part.log_side L.seen faults first.marks.number (log_part.HasBegun L.seen start first)) p l op.Sync (call_code device.Log q.failed) q) }
    ensures stable { (desk : Desk L) → slot.new ≡ Slot.Log desk → result.1 ≡ desk.part.marks.stable }
{
    match slot {
        Slot::Log(desk) => {
            let ended = call_sync(&mut desk.part);
            (ended, desk.part.stable())
        }
        Slot::Pages(_) | Slot::Data(_) => unreachable!(),
    }
}

/// Writes a checkpoint at an lsn.
pub(crate) fn checkpoint_slot<L: Sectors, D: Sectors>(
    slot: &mut Slot<L, D>,
    lsn: u64,
) -> Result<(), DevError>
    requires { IsLog slot.old (λ p. (p.failed ≡ None) × MayBeNext p.marks lsn) }
    ensures { IsCalled L.gives slot.old slot.new result (λ p q. (faults start : ℕ) (first : log_dev.Part L) (l : model.Lent)
        → LogServed (log_part.log_side L.seen faults first.marks.number (log_part.HasBegun L.seen start first)) p l (op.Checkpoint lsn) (call_code device.Log q.failed) q) }
{
    match slot {
        Slot::Log(desk) => call_checkpoint(&mut desk.part, lsn),
        Slot::Pages(_) | Slot::Data(_) => unreachable!(),
    }
}

/// Reads the block at an lsn, which is the one that was read last then, and puts it into this room.
pub(crate) fn read_slot<L: Sectors, D: Sectors>(
    slot: &mut Slot<L, D>,
    lsn: u64,
    room: &mut [u8; 512],
) -> Result<(), DevError>
    requires { IsLog slot.old (λ p. MayRead p lsn) }
    ensures called { IsCalled L.gives slot.old slot.new result (λ p q. (faults start : ℕ) (first : log_dev.Part L)
        → LogServed (log_part.log_side L.seen faults first.marks.number (log_part.HasBegun L.seen start first)) p (model.Room room.new) (op.ReadBlock lsn) (call_code device.Log q.failed) q) }
    ensures block { room.new ≡ block_of slot.new }
{
    match slot {
        Slot::Log(desk) => {
            let ended = call_read(&mut desk.part, lsn, &mut desk.block);
            *room = desk.block;
            ended
        }
        Slot::Pages(_) | Slot::Data(_) => unreachable!(),
    }
}

/// Writes a batch of pages.
pub(crate) fn batch_slot<L: Sectors, D: Sectors>(
    slot: &mut Slot<L, D>,
    lent: Lent<'_>,
) -> Result<(), DevError>
    requires { IsData slot.old (λ p. MayBatchLent p lent) }
    ensures { IsBatched D.gives slot.old slot.new result (λ p q. (faults : ℕ) (shape : Shape) (opened : ℕ → KeptPage) (first : store_dev.Part D) (l : model.Lent) → Lends lent.entry l
        → HasWholePages p.shape op.WriteBatch l
        → DataServed (data_part.data_side D.seen faults shape (data_part.HasBegun D.seen opened first)) p l op.WriteBatch (call_code device.Data q.failed) q) }
{
    match slot {
        Slot::Data(part) => call_batch(part, lent),
        Slot::Log(_) | Slot::Pages(_) => unreachable!(),
    }
}

/// Lists a page.
pub fn add_slot<L: Sectors, D: Sectors>(slot: &mut Slot<L, D>, page: u32, oldest: u64)
    requires { IsPages slot.old (ListFits (op.TakeAdd page oldest)) }
    ensures { IsPages slot.old (λ l. slot.new ≡ Slot.Pages (list_behind (op.TakeAdd page oldest) l)) }
{
    match slot {
        Slot::Pages(list) => list.add(page, oldest),
        Slot::Log(_) | Slot::Data(_) => unreachable!(),
    }
}

/// Takes a page off its list.
pub(crate) fn remove_slot<L: Sectors, D: Sectors>(slot: &mut Slot<L, D>, page: u32)
    requires { IsPages slot.old (ListFits (op.TakeRemove page)) }
    ensures { IsPages slot.old (λ l. slot.new ≡ Slot.Pages (list_behind (op.TakeRemove page) l)) }
{
    match slot {
        Slot::Pages(list) => list.remove(page),
        Slot::Log(_) | Slot::Data(_) => unreachable!(),
    }
}

/// The oldest modification of the page that entered a list first.
pub(crate) fn oldest_slot<L: Sectors, D: Sectors>(slot: &Slot<L, D>, list: u32) -> Option<u64>
    requires { IsPages slot.now (λ l. Unit {0}) }
    ensures { IsPages slot.now (λ l. result ≡ list_said (op.TakeOldest list) l) }
{
    match slot {
        Slot::Pages(list) => list.oldest_end(),
        Slot::Log(_) | Slot::Data(_) => unreachable!(),
    }
}

/// What lies in the log part's slot.
pub(crate) fn desk_in<L: Sectors, D: Sectors>(slot: Slot<L, D>) -> Desk<L>
    requires { IsLog slot (λ p. Unit {0}) }
    ensures { slot ≡ Slot.Log result }
{
    match slot {
        Slot::Log(desk) => desk,
        Slot::Pages(_list) => unreachable!(),
        Slot::Data(_part) => unreachable!(),
    }
}

/// The data part that lies in a slot.
pub(crate) fn data_in<L: Sectors, D: Sectors>(slot: Slot<L, D>) -> DataPart<D>
    requires { IsData slot (λ d. Unit {0}) }
    ensures { slot ≡ Slot.Data result }
{
    match slot {
        Slot::Log(_part) => unreachable!(),
        Slot::Pages(_list) => unreachable!(),
        Slot::Data(part) => part,
    }
}

/// Lets the flush list go that lies in a slot.
pub(crate) fn drop_list<L: Sectors, D: Sectors>(slot: Slot<L, D>)
    requires { IsPages slot (λ l. Unit {0}) }
{
    match slot {
        Slot::Log(_part) => unreachable!(),
        Slot::Pages(_list) => {}
        Slot::Data(_part) => unreachable!(),
    }
}

/// Lets the flush list go that lies in a slot. Where none does it waits for ever: whoever held the list was dropped.
pub(crate) fn await_list<T: Wait, L: Sectors, D: Sectors>(rt: &T, slot: Slot<L, D>) {
    match slot {
        Slot::Pages(_list) => {}
        Slot::Log(_) | Slot::Data(_) => {
            // a seat that was dropped keeps its slot out, and what then stands in the slot is any value
            for _ in rt.forever() {}
            unreachable!()
        }
    }
}
