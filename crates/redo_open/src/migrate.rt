// The log of a store of format 1 becomes one of format 2, once each page is in its place.
ghost use Rattle.std.specs.Prelude.{◌≡◌, ◌≤◌, ◌<◌, ◌^◌};
ghost use Rattle.model_base.specs.{IsWithinLimits};
ghost use Rattle.model_base.specs.declared.limits.TheConstants.{START_LSN};
ghost use Rattle.model_device.specs.{IsWithin};
ghost use Rattle.model_log.specs.{log_device_length};
ghost use Rattle.redo_disk.specs.{error_of, MakesCalls};
ghost use Rattle.redo_open.specs.Put.{MigrateStep};
ghost use Rattle.redo_open.specs.Puts.{PutsWhere};

use crate::put::{put_checkpoint, put_head};
use crate::zeros::erase_and_sync;
use model_base::Shape;
use model_log::HEADER_BYTES;
use redo_disk::{DevError, Sectors};
use redo_lsn::{log_device_length, run_layout};

/// Takes all log blocks away, for good, puts the next checkpoint at the same lsn by the layout of format 2, and then its
/// header, into the first header block last: until that stays, the store is one of format 1.
pub(crate) fn migrate_log<L: Sectors>(
    log: &mut L,
    shape: &Shape,
    number: u64,
    lsn: u64,
) -> Result<(), DevError>
    requires limits { IsWithinLimits shape.now }
    requires long { log_device_length shape.now ≤ (L.seen log.old).size }
    requires started { START_LSN ≤ lsn }
    requires small { lsn < 2 ^ 61 }
    ensures step { MigrateStep shape.now number lsn (L.seen log.old) result (L.seen log.new) }
    ensures calls { MakesCalls L.gives log.old log.new (PutsWhere (IsWithin (log_device_length shape.now)) (error_of result)) }
{
    erase_and_sync(log, HEADER_BYTES, log_device_length(shape))?;
    put_checkpoint(log, &run_layout(shape), number, lsn)?;
    put_head(log, 2, shape)?;
    put_head(log, 0, shape)
}
