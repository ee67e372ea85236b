// The command `run`.
ghost use Rattle.std.specs.Prelude.{None};
ghost use Rattle.model_script.specs.declared.asked.Command.TheVariants.{Run};
ghost use Rattle.model_script.specs.declared.asked.Drive.{Drive as Asked};
ghost use Rattle.redo_lab.specs.Call.{IsScriptRead, Unfused, AreOf, call_on, Handed};
ghost use Rattle.redo_lab.specs.Cause.{EndsWith, SparesArchive, WhereDone};
ghost use Rattle.redo_lab.specs.Runs.{IsRanBy, IsRunPrinted, IsUncut, SparedBy, ran_of, stops_of};

use crate::laws::laws;
use crate::outcome::{Done, Outcome};
use crate::playing::{Course, Played, Ran};
use crate::reporting::report_of;
use model_report::Fault;
use model_script::Script;
use redo_disk::Sectors;
use std::alloc::Global;

/// What there is to print of lines that were run: the report, and after it the fault of the device that ended the run.
fn print_run(alloc: Global, script: &Script, played: &Played, fault: Option<Fault>) -> Outcome
    ensures { IsRunPrinted script.now (ran_of played.now) played.now.follows.items fault result }
{
    match (report_of(alloc, script, Some(played), None), fault) {
        (Err(_), _) => Outcome::Fault(Fault::Memory),
        (Ok(text), None) => Outcome::Text(text),
        (Ok(text), Some(fault)) => Outcome::Report(text, fault),
    }
}

/// Reports a run of the script on devices that weren't to stop.
pub(crate) fn run_command<L: Sectors, D: Sectors>(
    alloc: Global,
    script: &Script,
    ran: Ran<L, D>,
) -> Done<L, D>
    ensures ends { (asked : Asked) (handed : Handed) (log : L) (store : D)
        → IsRanBy (call_on L.seen L.gives D.seen D.gives handed log store) (Run asked) asked (stops_of None) script.now ran
        → IsScriptRead handed.source handed.source_now script.now
        → EndsWith (call_on L.seen L.gives D.seen D.gives handed log store result.log result.store) (Run asked) result.outcome }
    ensures spares { (archive : Unfused) → SparedBy ran.course archive → SparesArchive archive result.outcome }
    ensures uncut { WhereDone result.outcome (IsUncut ran.course) }
    ensures entered { (log : L) (store : D) → AreOf log store ran.log ran.store → AreOf log store result.log result.store }
{
    laws();
    let Ran { course, log, store } = ran;
    let outcome = match course {
        Course::Ended(fault) | Course::Stopped(fault) => Outcome::Fault(fault),
        Course::Played(played, fault) => print_run(alloc, script, &played, fault),
    };
    Done {
        outcome,
        log,
        store,
    }
}
