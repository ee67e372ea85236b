// The run of a script on two devices that stand ready for it: its lines are run, by turns or in threads, and archived or not.
ghost use Rattle.std.specs.Prelude.{◌≡◌, ◌≤◌, true, false, is_some};
ghost use Rattle.std.specs.List.{AllByRecursion};
ghost use Rattle.model_script.specs.{IsScriptLine};
ghost use Rattle.model_script.specs.declared.asked.Command.{Command};
ghost use Rattle.model_script.specs.declared.asked.Command.TheVariants.{Run};
ghost use Rattle.model_script.specs.declared.words.TheConstants.{MAX_FOLLOWERS};
ghost use Rattle.redo_lab.specs.Call.{AreOf, call_on, Handed};
ghost use Rattle.redo_lab.specs.Runs.{AreWellCalled, CommandRuns, IsGivenBack, IsRanBy, SparedBy};
ghost use Rattle.redo_lab.specs.Archiving.{IsUnfused};

use crate::closing::close_run;
use crate::drives::run_drive;
use crate::laws::laws;
use crate::start::{Begun, begin_run};
use model_archive::archive_reads;
use model_report::{Fault, Followed, History, Marks};
use model_script::{Drive, Script};
use redo_disk::Sectors;
use redo_memdisk::Fused;
use redo_threads::Gate;
use std::alloc::Global;
use std::sync::Wait;
use std::thread::Threads;

/// After how many calls each device stops, if it is to stop.
#[derive(Clone, Copy)]
pub struct Stops {
    pub log: Option<u64>,
    pub store: Option<u64>,
}

/// The lines that were run: from this lsn on these groups were reserved, so far the run came, and this is told of followers.
#[derive(Drop)]
pub struct Played {
    pub start: u64,
    pub history: History,
    pub marks: Marks,
    pub follows: Vec<Followed>,
}

/// How far a run came.
#[derive(Drop)]
pub enum Course {
    /// It ended before its first line, and not by a device that failed in opening; or its turns were spent, or a device had
    /// no memory.
    Ended(Fault),
    /// A device failed in opening.
    Stopped(Fault),
    /// Its lines were run: all of them, or up to those at which the users met a device's failure.
    Played(Played, Option<Fault>),
}

/// A run, and both devices after it.
#[derive(Drop)]
pub struct Ran<L, D> {
    pub course: Course,
    pub log: Fused<L>,
    pub store: Fused<D>,
}

/// Runs the lines of a script by this drive, with its followers: on both devices, prepared, and with these stops once their fuses
/// are armed. Where a device is handed on for it, the run is archived. A gate may hold the users of a run in threads.
pub(crate) fn play<
    R: Threads + Wait + Sync,
    L: Sectors + Send,
    D: Sectors + Send,
    A: Sectors + Send,
    G: Gate,
>(
    rt: &R,
    alloc: Global,
    script: &Script,
    drive: &Drive,
    gate: &G,
    stops: Stops,
    log: L,
    store: D,
    arch: Option<A>,
) -> (Ran<L, D>, Option<A>)
    requires lines { AllByRecursion IsScriptLine script.now }
    requires few { drive.now.followers ≤ MAX_FOLLOWERS }
    requires archives { is_some arch ≡ drive.now.archive }
    ensures comes_to { (handed : Handed) (command : Command)
        → CommandRuns handed.source handed.source_now command drive.now script.now → (drive.now.archive ≡ true → command ≡ Run drive.now)
        → IsUnfused A.seen arch result.1 handed.archive
        → IsRanBy (call_on L.seen L.gives D.seen D.gives handed log store) command drive.now stops script.now result.0 }
    ensures given_back { IsGivenBack A.seen (SparedBy result.0.course) arch result.1 }
    ensures well { AreWellCalled A.gives result.0.course arch result.1 }
    ensures entered { AreOf log store result.0.log result.0.store }
{
    laws();
    archive_reads();
    let begun = match begin_run(alloc, script, drive, stops, log, store, arch) {
        Ok(begun) => begun,
        Err(left) => return left,
    };
    let Begun {
        opened,
        archive,
        followers,
        follows,
    } = begun;
    let start = opened.start;
    let after = run_drive(rt, alloc, opened, script, drive, archive, followers, gate);
    close_run(start, after, follows)
}

/// The same of a run that isn't archived.
pub(crate) fn play_unarchived<
    R: Threads + Wait + Sync,
    L: Sectors + Send,
    D: Sectors + Send,
    G: Gate,
>(
    rt: &R,
    alloc: Global,
    script: &Script,
    drive: &Drive,
    gate: &G,
    stops: Stops,
    log: L,
    store: D,
) -> Ran<L, D>
    requires lines { AllByRecursion IsScriptLine script.now }
    requires few { drive.now.followers ≤ MAX_FOLLOWERS }
    requires unarchived { drive.now.archive ≡ false }
    ensures comes_to { (handed : Handed) (command : Command)
        → CommandRuns handed.source handed.source_now command drive.now script.now
        → IsRanBy (call_on L.seen L.gives D.seen D.gives handed log store) command drive.now stops script.now result }
    ensures entered { AreOf log store result.log result.store }
{
    let arch: Option<L> = None;
    let (ran, left) = play(rt, alloc, script, drive, gate, stops, log, store, arch);
    match left {
        None => ran,
        Some(_arch) => unreachable!(),
    }
}
