// Formatting both devices of a store.
ghost use Rattle.std.specs.Prelude.{◌≤◌, OnOk, IfErr, IfSome};
ghost use Rattle.model_base.specs.{IsWithinLimits};
ghost use Rattle.model_device.specs.{IsWithin};
ghost use Rattle.model_log.specs.{log_device_length};
ghost use Rattle.model_parts.specs.{IsFormatted, KeepsNoStore};
ghost use Rattle.model_page.specs.{data_device_length};
ghost use Rattle.redo_disk.specs.{HasSize};
ghost use Rattle.redo_open.specs.Devices.{AreCalled, WhereBothTell};
ghost use Rattle.redo_open.specs.Opening.{FormatCalls, HasFormatCause, JudgesLengths};
ghost use Rattle.redo_open.specs.Puts.{ArePuts};

use crate::blank::{clear_blocks, clear_heads, clear_pages, put_new_log};
use model_base::Shape;
use redo_disk::Sectors;
use redo_recover::{RecFault, check_lengths, data_fault, log_fault};

/// Formats both devices, which are long enough. The header goes first, out of both its blocks, and comes back last.
fn format_devices<L: Sectors, D: Sectors>(
    log: &mut L,
    data_device: &mut D,
    shape: &Shape,
) -> Result<(), RecFault>
    requires limits { IsWithinLimits shape.now }
    requires log_long { log_device_length shape.now ≤ (L.seen log.old).size }
    requires data_long { data_device_length shape.now ≤ (D.seen data_device.old).size }
    requires log_sized { IfSome (L.seen log.old).tells (HasSize (L.seen log.old).size) }
    requires data_sized { IfSome (D.seen data_device.old).tells (HasSize (D.seen data_device.old).size) }
    ensures formatted { OnOk result (WhereBothTell (L.seen log.new).tells (D.seen data_device.new).tells
        (IsFormatted shape.now)) }
    ensures keeps { WhereBothTell (L.seen log.old).tells (D.seen data_device.old).tells (λ log_before data_before.
        WhereBothTell (L.seen log.new).tells (D.seen data_device.new).tells (KeepsNoStore shape.now log_before data_before)) }
    ensures cause { IfErr result (HasFormatCause shape.now (L.seen log.old) (D.seen data_device.old)
        (L.seen log.new) (D.seen data_device.new)) }
    ensures called { AreCalled L.seen D.seen L.gives D.gives (ArePuts (IsWithin (log_device_length shape.now))) (ArePuts (IsWithin (data_device_length shape.now)))
        log.old log.new data_device.old data_device.new }
    ensures calls { FormatCalls L.gives D.gives log.old log.new data_device.old data_device.new result }
{
    match clear_heads(log) {
        Ok(()) => {}
        Err(error) => return Err(log_fault(error)),
    }
    match clear_blocks(log, shape) {
        Ok(()) => {}
        Err(error) => return Err(log_fault(error)),
    }
    match clear_pages(data_device, shape) {
        Ok(()) => {}
        Err(error) => return Err(data_fault(error)),
    }
    match put_new_log(log, shape) {
        Ok(()) => Ok(()),
        Err(error) => Err(log_fault(error)),
    }
}

/// Formats both devices with the sizes of the shape. The header goes first, out of block 2 and then out of block 0, and
/// comes back last, into block 0 and then into block 2. So a stop leaves what was there; between the sync of the zeros in
/// block 0 and the write of the header into it, a store that is refused as unformatted; and after that the new store.
pub fn format<L: Sectors, D: Sectors>(
    log: &mut L,
    data_device: &mut D,
    shape: &Shape,
) -> Result<(), RecFault>
    requires { IsWithinLimits shape.now }
    ensures formatted { OnOk result (WhereBothTell (L.seen log.new).tells (D.seen data_device.new).tells
        (IsFormatted shape.now)) }
    ensures keeps { WhereBothTell (L.seen log.old).tells (D.seen data_device.old).tells (λ log_before data_before.
        WhereBothTell (L.seen log.new).tells (D.seen data_device.new).tells (KeepsNoStore shape.now log_before data_before)) }
    ensures lengths { JudgesLengths shape.now (L.seen log.old).size (D.seen data_device.old).size result }
    ensures cause { IfErr result (HasFormatCause shape.now (L.seen log.old) (D.seen data_device.old)
        (L.seen log.new) (D.seen data_device.new)) }
    ensures called { AreCalled L.seen D.seen L.gives D.gives (ArePuts (IsWithin (log_device_length shape.now))) (ArePuts (IsWithin (data_device_length shape.now)))
        log.old log.new data_device.old data_device.new }
    ensures calls { FormatCalls L.gives D.gives log.old log.new data_device.old data_device.new result }
{
    match check_lengths(shape, log.len(), data_device.len()) {
        Ok(()) => format_devices(log, data_device, shape),
        Err(fault) => Err(fault),
    }
}
