// The command `crash`.
ghost use Rattle.std.specs.Prelude.{◌≤◌, Some, IfOk, length, ◌≡◌, false};
ghost use Rattle.model_base.specs.declared.limits.TheConstants.{MAX_PAGES};
ghost use Rattle.model_script.specs.declared.asked.Drive.{Drive as Asked};
ghost use Rattle.model_script.specs.declared.words.TheConstants.{MAX_WORKERS};
ghost use Rattle.redo_drive.specs.declared.drive.RunEnd.TheVariants as ended;
ghost use Rattle.redo_memdisk.specs.{entry_of};
ghost use Rattle.redo_lab.specs.Call.{IsScriptRead, AreOf, call_on, Handed};
ghost use Rattle.redo_lab.specs.Cause.{EndsWith};
ghost use Rattle.redo_lab.specs.Runs.{IsLeftBy, IsRanBy, IsReportOf, IsToldRightly, command_with, played_follows, played_run};

use crate::faults::fault_of;
use crate::laws::laws;
use crate::outcome::{Done, Outcome};
use crate::playing::{Course, Played, Ran, Stops};
use crate::reading::contents;
use crate::reporting::report_of;
use model_script::Script;
use redo_disk::Sectors;
use redo_io::Text;
use redo_lsn::NoMemory;
use redo_memdisk::Fused;
use redo_recover::{Recovered, recover_with};
use std::alloc::Global;
use std::thread::Threads;

/// What a crash asks for beside its drive: where the devices stop, which sectors they keep, and by how many workers the store is
/// read then.
#[derive(Clone, Copy)]
pub(crate) struct Crashing {
    pub(crate) stops: Stops,
    pub(crate) pick: u64,
    pub(crate) workers: u32,
}

/// The report of a run and of what was read after the crash.
fn report_crash(
    alloc: Global,
    script: &Script,
    played: Option<&Played>,
    recovered: &Recovered,
) -> Result<Text, NoMemory>
    requires { length recovered.now.pages ≤ MAX_PAGES }
    ensures { IfOk result (λ text. IsReportOf script.now (played_run played.entry) (played_follows played.entry) (Some (recovered.now.end, recovered.now.pages)) text) }
{
    let pages = contents(alloc, &recovered.pages)?;
    report_of(
        alloc,
        script,
        played,
        Some((recovered.end, pages.as_slice())),
    )
}

/// Crashes both devices, and reads the store off what they kept.
fn crash_and_read<R: Threads + Sync, L: Sectors, D: Sectors>(
    rt: &R,
    alloc: Global,
    script: &Script,
    crash: Crashing,
    played: Option<&Played>,
    log: &mut Fused<L>,
    store: &mut Fused<D>,
) -> Outcome
    requires { (1 ≤ crash.workers) × (crash.workers ≤ MAX_WORKERS) }
    ensures ends { (asked : Asked) (handed : Handed) (log_entry : L) (data_entry : D)
        → IsScriptRead handed.source handed.source_now script.now
        → IsLeftBy (call_on L.seen L.gives D.seen D.gives handed log_entry data_entry log.old store.old) (command_with asked (Some crash)) asked crash.stops
        script.now (played_run played.entry) (played_follows played.entry) ended.Done
        → IsToldRightly (call_on L.seen L.gives D.seen D.gives handed log_entry data_entry log.old store.old) asked
        script.now (played_run played.entry) (played_follows played.entry)
        → asked.archive ≡ false
        → EndsWith (call_on L.seen L.gives D.seen D.gives handed log_entry data_entry log.new store.new) (command_with asked (Some crash)) result }
    ensures entered { AreOf (entry_of log.old) (entry_of store.old) log.new store.new }
{
    laws();
    log.crash(crash.pick);
    store.crash(crash.pick);
    match recover_with(rt, alloc, log, store, crash.workers) {
        Ok(recovered) => Outcome::of_text(report_crash(alloc, script, played, &recovered)),
        Err(fault) => Outcome::Fault(fault_of(fault)),
    }
}

/// Crashes both devices after a run of the script, reads the store, and reports it all. A device that failed from the arming of
/// its fuse to the crash ended the run and doesn't end the command.
pub(crate) fn crash_command<R: Threads + Sync, L: Sectors, D: Sectors>(
    rt: &R,
    alloc: Global,
    script: &Script,
    ran: Ran<L, D>,
    crash: Crashing,
) -> Done<L, D>
    requires { (1 ≤ crash.workers) × (crash.workers ≤ MAX_WORKERS) }
    ensures ends { (asked : Asked) (handed : Handed) (log : L) (store : D)
        → IsRanBy (call_on L.seen L.gives D.seen D.gives handed log store) (command_with asked (Some crash)) asked crash.stops script.now ran
        → IsScriptRead handed.source handed.source_now script.now → asked.archive ≡ false
        → EndsWith (call_on L.seen L.gives D.seen D.gives handed log store result.log result.store) (command_with asked (Some crash)) result.outcome }
    ensures entered { (log : L) (store : D) → AreOf log store ran.log ran.store → AreOf log store result.log result.store }
{
    let Ran {
        course,
        mut log,
        mut store,
    } = ran;
    let outcome = match course {
        Course::Ended(fault) => Outcome::Fault(fault),
        Course::Stopped(_) => crash_and_read(rt, alloc, script, crash, None, &mut log, &mut store),
        Course::Played(played, _) => {
            crash_and_read(
                rt,
                alloc,
                script,
                crash,
                Some(&played),
                &mut log,
                &mut store,
            )
        }
    };
    Done {
        outcome,
        log,
        store,
    }
}
