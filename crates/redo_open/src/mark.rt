// The checkpoint that opening makes by the format that was found.
ghost use Rattle.std.specs.Prelude.{◌≡◌, ◌≤◌, ◌<◌, ◌^◌};
ghost use Rattle.model_base.specs.{IsWithinLimits};
ghost use Rattle.model_base.specs.declared.limits.TheConstants.{START_LSN};
ghost use Rattle.model_device.specs.{IsWithin};
ghost use Rattle.model_log.specs.{log_device_length, place_of};
ghost use Rattle.model_parts.specs.{next_number};
ghost use Rattle.redo_disk.specs.{error_of, MakesCalls};
ghost use Rattle.redo_open.specs.Mark.{next_text};
ghost use Rattle.redo_open.specs.Put.{PutStep};
ghost use Rattle.redo_open.specs.Puts.{PutsWhere};

use crate::put::put_checkpoint;
use model_base::Shape;
use model_log::Format;
use redo_disk::{DevError, Sectors};
use redo_lsn::layout_of;

/// Puts the checkpoint after the one of this number at this lsn, by the layout of the format that was found.
pub(crate) fn mark<L: Sectors>(
    log: &mut L,
    format: Format,
    shape: &Shape,
    number: u64,
    lsn: u64,
) -> Result<(), DevError>
    requires limits { IsWithinLimits shape.now }
    requires long { log_device_length shape.now ≤ (L.seen log.old).size }
    requires started { START_LSN ≤ lsn }
    requires small { lsn < 2 ^ 61 }
    ensures step { PutStep (place_of (next_number number)) (next_text format shape.now number lsn)
        (L.seen log.old) result (L.seen log.new) }
    ensures calls { MakesCalls L.gives log.old log.new (PutsWhere (IsWithin (log_device_length shape.now)) (error_of result)) }
{
    put_checkpoint(log, &layout_of(format, shape), number.wrapping_add(1), lsn)
}
