// The calls of both device parts, as the running store makes them.
ghost use Rattle.std.specs.Prelude.{◌≡◌, None, ℕ};
ghost use Rattle.model_base.specs.declared.shape.Shape.{Shape};
ghost use Rattle.model_core.specs.States as model;
ghost use Rattle.model_core.specs.{DataServed, KeptPage, LogServed};
ghost use Rattle.model_core.specs.declared.ops.Op.TheVariants as op;
ghost use Rattle.model_parts.specs.{MayBeNext};
ghost use Rattle.redo_disk.specs.{EndWith, MakesCalls, Serve, error_of};
ghost use Rattle.redo_drive.specs.Asking.{lent_pages, lent_writes, checkpoint_requests, read_requests, sync_requests, call_code};
ghost use Rattle.redo_drive.specs.DataPartSide as data_part;
ghost use Rattle.redo_drive.specs.LogPartSide as log_part;
ghost use Rattle.redo_drive.specs.Running.{HasWholePages, MayBatchLent, MayWriteLent};
ghost use Rattle.redo_drive.specs.declared.device.Device.TheVariants as device;
ghost use Rattle.redo_logdev.specs.{MayRead};
ghost use Rattle.redo_logdev.specs.Part as log_dev;
ghost use Rattle.redo_store.specs.Part as store_dev;
ghost use Rattle.redo_words.specs.{Lends};

use redo_disk::{DevError, Sectors};
use redo_logdev::LogPart;
use redo_store::DataPart;
use redo_words::Lent;

/// Writes the log up to a mark, with what an actor lends.
pub fn call_write<L: Sectors>(
    log: &mut LogPart<L>,
    mark: u64,
    lent: Lent<'_>,
) -> Result<(), DevError>
    requires { MayWriteLent log.old mark lent }
    ensures served { (faults start : ℕ) (first : log_dev.Part L) (l : model.Lent) → Lends lent.entry l
        → LogServed (log_part.log_side L.seen faults first.marks.number (log_part.HasBegun L.seen start first)) log.old l (op.WriteTo mark) (call_code device.Log log.new.failed) log.new }
    ensures ended { log.new.failed ≡ error_of result }
    ensures asked { (l : model.Lent) → Lends lent.entry l
        → MakesCalls L.gives log.old.dev log.new.dev (Serve (lent_writes log.old l) log.new.failed) }
    ensures calls { MakesCalls L.gives log.old.dev log.new.dev (EndWith log.new.failed) }
{
    match lent {
        Lent::Blocks { bytes, firsts } => log.write_to(mark, bytes, firsts),
        _ => unreachable!(),
    }
}

/// Flushes the log.
pub fn call_sync<L: Sectors>(log: &mut LogPart<L>) -> Result<(), DevError>
    requires { log.old.failed ≡ None }
    ensures synced { log_part.LogSynced L.seen (call_code device.Log log.new.failed) log.old log.new }
    ensures ended { log.new.failed ≡ error_of result }
    ensures calls { MakesCalls L.gives log.old.dev log.new.dev (Serve sync_requests log.new.failed) }
{
    log.sync()
}

/// Writes a checkpoint at an lsn.
pub fn call_checkpoint<L: Sectors>(log: &mut LogPart<L>, lsn: u64) -> Result<(), DevError>
    requires live { log.old.failed ≡ None }
    requires next { MayBeNext log.old.marks lsn }
    ensures checkpointed { log_part.LogCheckpointed L.seen lsn (call_code device.Log log.new.failed) log.old log.new }
    ensures ended { log.new.failed ≡ error_of result }
    ensures calls { MakesCalls L.gives log.old.dev log.new.dev (Serve (checkpoint_requests log.old lsn) log.new.failed) }
{
    log.checkpoint(lsn)
}

/// Reads the block of the log at an lsn into the room that an actor has for it.
pub fn call_read<L: Sectors>(
    log: &mut LogPart<L>,
    lsn: u64,
    room: &mut [u8; 512],
) -> Result<(), DevError>
    requires { MayRead log.old lsn }
    ensures read { log_part.LogRead L.seen lsn room.new (call_code device.Log log.new.failed) log.old log.new }
    ensures ended { log.new.failed ≡ error_of result }
    ensures calls { MakesCalls L.gives log.old.dev log.new.dev (Serve (read_requests log.old lsn) log.new.failed) }
{
    log.read_block(lsn, room)
}

/// Writes a batch of pages, which an actor lends.
pub fn call_batch<D: Sectors>(store: &mut DataPart<D>, lent: Lent<'_>) -> Result<(), DevError>
    requires { MayBatchLent store.old lent }
    ensures served { (faults : ℕ) (shape : Shape) (opened : ℕ → KeptPage) (first : store_dev.Part D) (l : model.Lent) → Lends lent.entry l
        → HasWholePages store.old.shape op.WriteBatch l
        → DataServed (data_part.data_side D.seen faults shape (data_part.HasBegun D.seen opened first)) store.old l op.WriteBatch (call_code device.Data store.new.failed) store.new }
    ensures ended { store.new.failed ≡ error_of result }
    ensures asked { (l : model.Lent) → Lends lent.entry l → HasWholePages store.old.shape op.WriteBatch l
        → MakesCalls D.gives store.old.dev store.new.dev (Serve (lent_pages store.old l) store.new.failed) }
    ensures calls { MakesCalls D.gives store.old.dev store.new.dev (EndWith store.new.failed) }
{
    match lent {
        Lent::Batch { pages, frames } => store.write_batch(pages, frames),
        _ => unreachable!(),
    }
}
