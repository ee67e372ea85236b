// The way of a store to the format of runs, link by link.
ghost use Rattle.std.specs.Prelude.{◌≡◌, ◌≤◌, ◌<◌, ◌^◌, IfSome};
ghost use Rattle.model_base.specs.{IsWithinLimits, run_shape};
ghost use Rattle.model_base.specs.declared.limits.TheConstants.{FIRST_DATA_LSN};
ghost use Rattle.model_device.specs.{IsWithin};
ghost use Rattle.model_log.specs.{log_device_length, start_after};
ghost use Rattle.model_log.specs.declared.head.Format.TheVariants.{One, Two, Three};
ghost use Rattle.model_page.specs.{data_device_length};
ghost use Rattle.redo_apply.specs.{ArePagesOf};
ghost use Rattle.redo_disk.specs.{MakesCalls, MayEndWith, Seen};
ghost use Rattle.redo_open.specs.Chain.{LinkStep, next_format};
ghost use Rattle.redo_open.specs.Devices.{AreCalled, IsSameDevice};
ghost use Rattle.redo_open.specs.Opening.{WritesInside};
ghost use Rattle.redo_open.specs.Puts.{ArePuts};
ghost use Rattle.redo_recover.specs.{data_error_of, log_error_of, reading_of};

use crate::enlarge::{enlarge, put_run_heads};
use crate::migrate::migrate_log;
use model_log::{BLOCK_HEADER, Format};
use redo_disk::Sectors;
use redo_recover::{RecFault, Recovered, data_fault, log_fault};

/// The format that comes after this one, if it isn't that of runs.
fn next(format: Format) -> Option<Format>
    ensures { result ≡ next_format format }
{
    match format {
        Format::One => Some(Format::Two),
        Format::Two => Some(Format::Three),
        Format::Three => None,
    }
}

/// From format 1 to format 2: the log device alone changes.
fn to_second<L: Sectors>(log: &mut L, recovered: &Recovered, start: u64) -> Result<(), RecFault>
    requires limits { IsWithinLimits recovered.now.shape }
    requires long { log_device_length recovered.now.shape ≤ (L.seen log.old).size }
    requires behind { start ≡ start_after recovered.now.end }
    requires first { FIRST_DATA_LSN ≤ start }
    requires small { start < 2 ^ 61 }
    ensures step { (data_device : Seen) → LinkStep One Two (reading_of recovered.now) (L.seen log.old) data_device
        result (L.seen log.new) data_device }
    ensures same { IsSameDevice (L.seen log.old) (L.seen log.new) }
    ensures calls { MakesCalls L.gives log.old log.new (MayEndWith (log_error_of result)) }
    ensures inside { MakesCalls L.gives log.old log.new (ArePuts (IsWithin (log_device_length recovered.now.shape))) }
{
    let number = recovered.number.wrapping_add(2);
    match migrate_log(log, &recovered.shape, number, start - BLOCK_HEADER) {
        Ok(()) => Ok(()),
        Err(error) => Err(log_fault(error)),
    }
}

/// From format 2 to format 3: the slots and places of a run first, and then its headers. A store that has these sizes already
/// stays as it is.
fn to_third<L: Sectors, D: Sectors>(
    log: &mut L,
    data_device: &mut D,
    recovered: &Recovered,
) -> Result<(), RecFault>
    requires limits { IsWithinLimits recovered.now.shape }
    requires log_long { log_device_length recovered.now.shape ≤ (L.seen log.old).size }
    requires data_long { data_device_length (run_shape recovered.now.shape) ≤ (D.seen data_device.old).size }
    requires pages { ArePagesOf recovered.now.shape recovered.now.pages }
    ensures step { LinkStep Two Three (reading_of recovered.now) (L.seen log.old) (D.seen data_device.old)
        result (L.seen log.new) (D.seen data_device.new) }
    ensures called { AreCalled L.seen D.seen L.gives D.gives (MayEndWith (log_error_of result)) (MayEndWith (data_error_of result))
        log.old log.new data_device.old data_device.new }
    ensures inside { WritesInside L.gives D.gives (run_shape recovered.now.shape) log.old log.new data_device.old data_device.new }
{
    if recovered.shape == recovered.shape.run_shape() {
        return Ok(());
    }
    match enlarge(data_device, &recovered.shape, &recovered.pages) {
        Ok(()) => {}
        Err(error) => return Err(data_fault(error)),
    }
    match put_run_heads(log, &recovered.shape) {
        Ok(()) => Ok(()),
        Err(error) => Err(log_fault(error)),
    }
}

/// Takes a store that is ready by this format to the one after it.
fn migrate<L: Sectors, D: Sectors>(
    log: &mut L,
    data_device: &mut D,
    recovered: &Recovered,
    start: u64,
    format: Format,
) -> Result<(), RecFault>
    requires limits { IsWithinLimits recovered.now.shape }
    requires log_long { log_device_length recovered.now.shape ≤ (L.seen log.old).size }
    requires data_long { data_device_length (run_shape recovered.now.shape) ≤ (D.seen data_device.old).size }
    requires pages { ArePagesOf recovered.now.shape recovered.now.pages }
    requires behind { start ≡ start_after recovered.now.end }
    requires first { FIRST_DATA_LSN ≤ start }
    requires small { start < 2 ^ 61 }
    ensures step { IfSome (next_format format) (λ after. LinkStep format after (reading_of recovered.now)
        (L.seen log.old) (D.seen data_device.old) result (L.seen log.new) (D.seen data_device.new)) }
    ensures called { AreCalled L.seen D.seen L.gives D.gives (MayEndWith (log_error_of result)) (MayEndWith (data_error_of result))
        log.old log.new data_device.old data_device.new }
    ensures inside { WritesInside L.gives D.gives (run_shape recovered.now.shape) log.old log.new data_device.old data_device.new }
{
    match format {
        Format::One => to_second(log, recovered, start),
        Format::Two => to_third(log, data_device, recovered),
        Format::Three => Ok(()),
    }
}

/// Takes a store that is ready by this format to that of runs, one format after another.
pub(crate) fn migrate_from<L: Sectors, D: Sectors>(
    log: &mut L,
    data_device: &mut D,
    recovered: &Recovered,
    start: u64,
    format: Format,
) -> Result<(), RecFault>
    requires limits { IsWithinLimits recovered.now.shape }
    requires log_long { log_device_length recovered.now.shape ≤ (L.seen log.old).size }
    requires data_long { data_device_length (run_shape recovered.now.shape) ≤ (D.seen data_device.old).size }
    requires pages { ArePagesOf recovered.now.shape recovered.now.pages }
    requires behind { start ≡ start_after recovered.now.end }
    requires first { FIRST_DATA_LSN ≤ start }
    requires small { start < 2 ^ 61 }
    ensures step { LinkStep format Three (reading_of recovered.now) (L.seen log.old) (D.seen data_device.old)
        result (L.seen log.new) (D.seen data_device.new) }
    ensures called { AreCalled L.seen D.seen L.gives D.gives (MayEndWith (log_error_of result)) (MayEndWith (data_error_of result))
        log.old log.new data_device.old data_device.new }
    ensures inside { WritesInside L.gives D.gives (run_shape recovered.now.shape) log.old log.new data_device.old data_device.new }
{
    let after = match next(format) {
        Some(after) => after,
        None => return Ok(()),
    };
    match migrate(log, data_device, recovered, start, format) {
        Ok(()) => {}
        Err(fault) => return Err(fault),
    }
    migrate_from(log, data_device, recovered, start, after)
}
