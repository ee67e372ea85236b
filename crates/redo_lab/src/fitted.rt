// A store that stands opened for the run of a script: both devices are prepared, and the script is judged.
ghost use Rattle.std.specs.Prelude.{◌≡◌, ◌≤◌, ◌<◌, ◌^◌, IfOk};
ghost use Rattle.std.specs.List.{AllByRecursion};
ghost use Rattle.model_base.specs.{IsWithinLimits};
ghost use Rattle.model_log.specs.declared.layout.TheConstants.{BLOCK_HEADER};
ghost use Rattle.model_script.specs.{ArchiveFits, IsScriptLine};
ghost use Rattle.model_script.specs.declared.asked.Command.{Command};
ghost use Rattle.model_script.specs.declared.asked.Drive.{Drive as Asked};
ghost use Rattle.redo_drive.specs.{room_from, MayBegin};
ghost use Rattle.redo_memdisk.specs.{entry_of};
ghost use Rattle.redo_lab.specs.declared.playing.Course.TheVariants as ended;
ghost use Rattle.redo_lab.specs.declared.playing.Stops.{Stops};
ghost use Rattle.redo_lab.specs.Devices.{AreArmed, AreAsArmed};
ghost use Rattle.redo_lab.specs.Cause.{archive_size};
ghost use Rattle.redo_lab.specs.Call.{call_on, Handed};
ghost use Rattle.redo_lab.specs.Runs.{AreEntered, AreReady, CommandRuns, unopened};

use crate::faults::fault_of;
use crate::laws::laws;
use crate::playing::{Course, Ran, Stops};
use crate::prepare::prepare;
use model_base::Shape;
use model_log::BLOCK_HEADER;
use model_report::Fault;
use model_script::{Script, fitting_archive, fitting_script};
use redo_disk::Sectors;
use redo_lsn::{round_of, run_layout};
use redo_memdisk::Fused;
use redo_open::open_store;
use redo_recover::RecFault;
use redo_script::{Unfit, judge};
use redo_store::Opened;
use std::alloc::Global;

/// How far the log has room where it runs alone: one round from the checkpoint on, which stands where a run begins.
fn room_from(log_only: bool, shape: &Shape, start: u64) -> Option<u64>
    requires limits { IsWithinLimits shape.now }
    requires header { BLOCK_HEADER ≤ start }
    requires small { start < 2 ^ 61 }
    ensures { result ≡ room_from log_only shape.now start }
{
    if log_only {
        Some(start - BLOCK_HEADER + round_of(&run_layout(shape)))
    } else {
        None
    }
}

/// A run that ended so before its first line, with both devices as they were.
pub(crate) fn unplayed<L: Sectors, D: Sectors>(
    fault: Fault,
    log: Fused<L>,
    store: Fused<D>,
) -> Ran<L, D>
    ensures course { result.course ≡ ended.Ended fault }
    ensures log { result.log ≡ log }
    ensures store { result.store ≡ store }
{
    Ran {
        course: Course::Ended(fault),
        log,
        store,
    }
}

/// How a run came to an end whose store wasn't opened.
fn unopened(fault: RecFault) -> Course
    ensures { result ≡ unopened fault }
{
    match fault {
        RecFault::LogDev | RecFault::DataDev => Course::Stopped(fault_of(fault)),
        _ => Course::Ended(fault_of(fault)),
    }
}

/// Opens the store on both devices, whose fuses are armed, for the run of a script that fits it, and an archive's
/// device of so many bytes, if there is one.
fn open_fitted<L: Sectors, D: Sectors>(
    alloc: Global,
    script: &Script,
    log_only: bool,
    archive_len: Option<u64>,
    log: Fused<L>,
    store: Fused<D>,
) -> Result<Opened<Fused<L>, Fused<D>>, Ran<L, D>>
    requires { AllByRecursion IsScriptLine script.now }
    ensures begins { IfOk result (λ opened. MayBegin opened script.now log_only) }
    ensures archive_fits { IfOk result (λ opened. ArchiveFits opened.shape opened.start archive_len script.now) }
    ensures ready { (handed : Handed) (log_entry : L) (data_entry : D) (command : Command) (asked : Asked) (stops : Stops)
        → CommandRuns handed.source handed.source_now command asked script.now → log_only ≡ asked.log_only → archive_len ≡ archive_size handed.archive asked
        → AreArmed (call_on L.seen L.gives D.seen D.gives handed log_entry data_entry log store) stops
        → AreAsArmed (call_on L.seen L.gives D.seen D.gives handed log_entry data_entry log store)
        → AreReady L.seen D.seen (call_on L.seen L.gives D.seen D.gives handed log_entry data_entry) command asked stops script.now result }
    ensures entered { AreEntered (entry_of log) (entry_of store) result }
{
    laws();
    fitting_script();
    fitting_archive();
    let opened = match open_store(alloc, log, store) {
        Ok(opened) => opened,
        Err((fault, log, store)) => {
            return Err(Ran {
                course: unopened(fault),
                log,
                store,
            });
        }
    };
    let start = opened.start;
    let room_end = room_from(log_only, &opened.shape, start);
    match judge(alloc, &opened.shape, start, room_end, archive_len, script) {
        Ok(()) => Ok(opened),
        Err(Unfit::Misfit(misfit)) => Err(unplayed(
            Fault::Fit(misfit),
            opened.log.into_dev(),
            opened.store.into_dev(),
        )),
        Err(Unfit::NoMemory) => Err(unplayed(
            Fault::Memory,
            opened.log.into_dev(),
            opened.store.into_dev(),
        )),
    }
}

/// Prepares both devices, arms their fuses, and opens the store for the run of a script that fits it, and an archive's
/// device of so many bytes, if there is one.
pub(crate) fn ready<L: Sectors, D: Sectors>(
    alloc: Global,
    script: &Script,
    log_only: bool,
    archive_len: Option<u64>,
    stops: Stops,
    log: L,
    store: D,
) -> Result<Opened<Fused<L>, Fused<D>>, Ran<L, D>>
    requires { AllByRecursion IsScriptLine script.now }
    ensures begins { IfOk result (λ opened. MayBegin opened script.now log_only) }
    ensures archive_fits { IfOk result (λ opened. ArchiveFits opened.shape opened.start archive_len script.now) }
    ensures ready { (handed : Handed) (command : Command) (asked : Asked)
        → CommandRuns handed.source handed.source_now command asked script.now → log_only ≡ asked.log_only → archive_len ≡ archive_size handed.archive asked
        → AreReady L.seen D.seen (call_on L.seen L.gives D.seen D.gives handed log store) command asked stops script.now result }
    ensures entered { AreEntered log store result }
{
    let mut log = Fused::plain(log);
    let mut store = Fused::plain(store);
    match prepare(&mut log, &mut store) {
        Ok(()) => {}
        Err(fault) => {
            return Err(Ran {
                course: Course::Ended(fault_of(fault)),
                log,
                store,
            });
        }
    }
    log.arm(stops.log);
    store.arm(stops.store);
    open_fitted(alloc, script, log_only, archive_len, log, store)
}
