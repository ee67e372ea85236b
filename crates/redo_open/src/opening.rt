// Opening a store.
ghost use Rattle.std.specs.Prelude.{◌≡◌, ◌≤◌, ◌<◌, ◌^◌, IfOk, IfErr, IfSome, None};
ghost use Rattle.model_base.specs.{IsWithinLimits, run_shape};
ghost use Rattle.model_base.specs.declared.limits.TheConstants.{FIRST_DATA_LSN};
ghost use Rattle.model_log.specs.{IsAtDataStart, log_device_length};
ghost use Rattle.model_page.specs.{data_device_length};
ghost use Rattle.model_parts.specs.{numbers_taken};
ghost use Rattle.model_store.specs.{IsOrderly, Reading};
ghost use Rattle.redo_disk.specs.{MayEndWith};
ghost use Rattle.redo_open.specs.Devices.{AreCalled, WhereBothTell};
ghost use Rattle.redo_open.specs.Opening.{WritesInside, log_device_left, data_device_left, log_error_in, data_error_in, HasFaultCause, IsOpeningOf, IsStarted, OpensInside, OpensLog, OpensSafely, OpensRecovered, WhereStillTold};
ghost use Rattle.redo_open.specs.Mend.{IsSettledData};
ghost use Rattle.redo_store.specs.{IsRunnable};
ghost use Rattle.redo_recover.specs.{AreFoundOn, IsOfDevices, OnContents, reading_of};

use crate::chain::migrate_from;
use crate::devices::open_devices;
use crate::heads::{make_alike, read_heads};
use model_log::Format;
use redo_disk::Sectors;
use redo_logdev::LogPart;
use redo_lsn::start_after;
use redo_recover::{RecFault, Recovered, check_lengths, data_fault, log_fault, recover};
use redo_store::{DataPart, Opened};
use std::alloc::Global;

/// How many checkpoints opening makes of a store of this format.
fn numbers_taken(format: Format) -> u64
    ensures { result ≡ numbers_taken format }
{
    match format {
        Format::One => 2,
        Format::Two | Format::Three => 1,
    }
}

/// What a run takes, once both devices are ready for it. Both parts have the sizes of a run, and the log part is made last.
fn start_run<L: Sectors, D: Sectors>(
    alloc: Global,
    log: L,
    data_device: D,
    recovered: Recovered,
    start: u64,
) -> Result<Opened<L, D>, (RecFault, L, D)>
    requires limits { IsWithinLimits recovered.shape }
    requires log_long { log_device_length recovered.shape ≤ (L.seen log).size }
    requires data_long { data_device_length (run_shape recovered.shape) ≤ (D.seen data_device).size }
    requires place { IsAtDataStart start }
    requires first { FIRST_DATA_LSN ≤ start }
    requires small { start < 2 ^ 61 }
    ensures { IsStarted log data_device recovered start result }
{
    let Recovered {
        format,
        shape,
        number,
        pages,
        ..
    } = recovered;
    let run = shape.run_shape();
    let store = match DataPart::new(alloc, data_device, &run) {
        Ok(store) => store,
        Err((_, data_device)) => return Err((RecFault::NoMemory, log, data_device)),
    };
    let number = number.wrapping_add(numbers_taken(format));
    match LogPart::new(alloc, log, &run, start, number) {
        Ok(log) => Ok(Opened {
            shape: run,
            start,
            pages,
            log,
            store,
        }),
        Err((_, log)) => Err((RecFault::NoMemory, log, store.into_dev())),
    }
}

/// Opens a store that was recovered, on a data device on which nothing is pending.
fn open_recovered<L: Sectors, D: Sectors>(
    alloc: Global,
    mut log: L,
    data_device: D,
    recovered: Recovered,
) -> Result<Opened<L, D>, (RecFault, L, D)>
    requires of_devices { IsOfDevices (L.seen log).size (D.seen data_device).size recovered }
    requires room { data_device_length (run_shape recovered.shape) ≤ (D.seen data_device).size }
    requires settled { IfSome (D.seen data_device).tells (IsSettledData recovered.shape) }
    requires found { IfSome (D.seen data_device).tells
        (λ disk. AreFoundOn recovered.shape recovered.places recovered.pages disk.base) }
    ensures step { OpensRecovered L.seen D.seen (reading_of recovered) recovered.tail (L.seen log) (D.seen data_device) result }
    ensures called { AreCalled L.seen D.seen L.gives D.gives (MayEndWith (log_error_in result)) (MayEndWith (data_error_in result))
        log (log_device_left result) data_device (data_device_left result) }
    ensures inside { WritesInside L.gives D.gives (run_shape recovered.shape) log (log_device_left result) data_device (data_device_left result) }
{
    let mut store = match DataPart::new(alloc, data_device, &recovered.shape) {
        Ok(store) => store,
        Err((_, data_device)) => return Err((RecFault::NoMemory, log, data_device)),
    };
    let start = start_after(recovered.end);
    match open_devices(alloc, &mut log, &mut store, &recovered, start) {
        Ok(()) => {}
        Err(fault) => return Err((fault, log, store.into_dev())),
    }
    let mut data_device = store.into_dev();
    match migrate_from(
        &mut log,
        &mut data_device,
        &recovered,
        start,
        recovered.format,
    ) {
        Ok(()) => {}
        Err(fault) => return Err((fault, log, data_device)),
    }
    start_run(alloc, log, data_device, recovered, start)
}

/// Opens the store on two devices, so that a run can start on it: reads it, makes its two header blocks alike, clears away
/// what stands on the log past its end, repairs the places of pages that don't pass, writes each page as it was read where
/// that isn't in its place then, moves the checkpoint, and takes a store of format 1 to format 2. A store that doesn't have the
/// slots of format 3 is taken to that format then: the new slots are filled with zeros that aren't among its old slots and
/// places, each page is written into its new place, and the header comes last, into its first block last of all.
///
/// A store that is refused is as it was; so is one of an earlier format whose data device is too short for format 3, for which
/// the length that it asks for is answered. Where it opens, or the devices tell what they hold to the end, nothing is written
/// beyond the lengths that the shape of a run asks for, and nothing is read once the store is.
///
/// What the devices were handed in with unsynced is read like the rest, and may be lost until it is synced: so both
/// are synced before the first write. From then on, and where nothing was unsynced from the start, whatever a crash
/// leaves of the two devices is read with the same pages, wherever opening ends. The devices of a store that isn't
/// opened are handed back beside the fault.
pub fn open_store<L: Sectors, D: Sectors>(
    alloc: Global,
    mut log: L,
    mut data_device: D,
) -> Result<Opened<L, D>, (RecFault, L, D)>
    ensures safely { (opened : Reading) → WhereStillTold (L.seen (log_device_left result)).tells (D.seen (data_device_left result)).tells
        (WhereBothTell (L.seen log).tells (D.seen data_device).tells (λ log_disk data_disk.
        IsOrderly log_disk.reads data_disk.reads opened → OpensSafely L.seen D.seen opened log_disk data_disk result)) }
    ensures read { IfOk result (λ store. WhereStillTold (L.seen store.log.dev).tells (D.seen store.store.dev).tells
        (OnContents (L.seen log).tells (D.seen data_device).tells (λ log_bytes data_bytes. IsOpeningOf log_bytes data_bytes store))) }
    ensures runnable { IfOk result (λ store. IsRunnable store) }
    ensures cause { IfErr result (λ error. HasFaultCause (L.seen log) (D.seen data_device)
        (L.seen error.1) (D.seen error.2) error.0) }
    ensures called { AreCalled L.seen D.seen L.gives D.gives (OpensLog (L.seen log).size (log_error_in result)) (MayEndWith (data_error_in result))
        log (log_device_left result) data_device (data_device_left result) }
    ensures inside { OpensInside L.gives D.gives (L.seen log).tells (D.seen data_device).tells
        (L.seen (log_device_left result)).tells (D.seen (data_device_left result)).tells log data_device result }
{
    let recovered = match recover(alloc, &mut log, &mut data_device) {
        Ok(recovered) => recovered,
        Err(fault) => return Err((fault, log, data_device)),
    };
    match check_lengths(&recovered.shape.run_shape(), log.len(), data_device.len()) {
        Ok(()) => {}
        Err(fault) => return Err((fault, log, data_device)),
    }
    let heads = match read_heads(&mut log, recovered.format, &recovered.shape) {
        Ok(heads) => heads,
        Err(error) => return Err((log_fault(error), log, data_device)),
    };
    match log.sync() {
        Ok(()) => {}
        Err(error) => return Err((log_fault(error), log, data_device)),
    }
    match data_device.sync() {
        Ok(()) => {}
        Err(error) => return Err((data_fault(error), log, data_device)),
    }
    match make_alike(&mut log, &heads, recovered.format, &recovered.shape) {
        Ok(()) => {}
        Err(error) => return Err((log_fault(error), log, data_device)),
    }
    open_recovered(alloc, log, data_device, recovered)
}
