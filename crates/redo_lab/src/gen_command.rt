// The command `gen`.
ghost use Rattle.std.specs.Prelude.{ℕ, ◌≡◌, ◌≤◌, List, None, IfOk, length, true, false};
ghost use Rattle.std.specs.List.{AllByRecursion};
ghost use Rattle.model_base.specs.declared.limits.TheConstants.{MAX_PAGES};
ghost use Rattle.model_script.specs.declared.asked.Command.TheVariants.{Gen};
ghost use Rattle.model_script.specs.{generated_lines, IsScriptLine};
ghost use Rattle.model_script.specs.declared.misfit.TheConstants.{MAX_USERS};
ghost use Rattle.model_script.specs.declared.script.ScriptLine.{ScriptLine};
ghost use Rattle.redo_memdisk.specs.{entry_of};
ghost use Rattle.redo_recover.specs.{reading_of};
ghost use Rattle.redo_lab.specs.Call.{drive_of_seed, AreOf, call_on, Handed};
ghost use Rattle.redo_lab.specs.declared.playing.Course.TheVariants as course;
ghost use Rattle.redo_lab.specs.Cause.{EndsWith};
ghost use Rattle.redo_lab.specs.Runs.{ComesTo, CommandRuns, ran_of, stops_of, summary_of};
ghost use Rattle.redo_lab.specs.Done.{IsUnreadEnd};

use crate::faults::fault_of;
use crate::laws::laws;
use crate::outcome::{Done, Outcome, unasked};
use crate::playing::{Course, Played, Ran, Stops, play_unarchived};
use crate::reading::contents;
use model_report::Fault;
use model_script::{Drive, Script};
use redo_disk::Sectors;
use redo_io::Text;
use redo_lsn::NoMemory;
use redo_memdisk::Fused;
use redo_recover::{Recovered, recover};
use redo_report::summary;
use redo_script::{generate, generate_lines, generated_lines_are_ranged};
use redo_threads::Gate;
use std::alloc::Global;
use std::sync::Wait;
use std::thread::Threads;

/// Prints the script of the seed.
fn print_script<L: Sectors, D: Sectors>(
    alloc: Global,
    seed: u64,
    users: u32,
    groups: u64,
    log: L,
    store: D,
) -> Done<L, D>
    requires some_users { 1 ≤ users }
    requires few_users { users ≤ MAX_USERS }
    ensures { (max : ℕ) → IsUnreadEnd L.seen L.gives D.seen D.gives log store (Gen seed users groups false max) result }
{
    Done {
        outcome: Outcome::of_text(generate(alloc, seed, users, groups)),
        log: Fused::plain(log),
        store: Fused::plain(store),
    }
}

/// The summary of a run, and of what was read after it.
fn summarize(alloc: Global, played: &Played, recovered: &Recovered) -> Result<Text, NoMemory>
    requires { length recovered.now.pages ≤ MAX_PAGES }
    ensures { IfOk result (λ text. text ≡ summary_of (ran_of played.now) (reading_of recovered.now)) }
{
    let pages = contents(alloc, &recovered.pages)?;
    summary(
        alloc,
        played.history.0.len(),
        played.marks.flushed,
        played.marks.ckpt,
        pages.as_slice(),
    )
}

/// Reads the store after a run, and sums both up.
fn read_after<L: Sectors, D: Sectors>(
    alloc: Global,
    played: &Played,
    log: &mut Fused<L>,
    store: &mut Fused<D>,
) -> Outcome
    ensures ends { (handed : Handed) (log_entry : L) (data_entry : D) (seed users groups max : ℕ) (script : List ScriptLine)
        → CommandRuns handed.source handed.source_now (Gen seed users groups true max) (drive_of_seed seed max) script
        → ComesTo (call_on L.seen L.gives D.seen D.gives handed log_entry data_entry log.old store.old) (Gen seed users groups true max) (drive_of_seed seed max)
        (stops_of None) script (course.Played played.now None)
        → EndsWith (call_on L.seen L.gives D.seen D.gives handed log_entry data_entry log.new store.new) (Gen seed users groups true max) result }
    ensures entered { AreOf (entry_of log.old) (entry_of store.old) log.new store.new }
{
    laws();
    match recover(alloc, log, store) {
        Ok(recovered) => Outcome::of_text(summarize(alloc, played, &recovered)),
        Err(fault) => Outcome::Fault(fault_of(fault)),
    }
}

/// How the script of a seed is run: by the turns of the same seed.
fn drive_of_seed(seed: u64, max: u64) -> Drive
    ensures { result ≡ drive_of_seed seed max }
{
    Drive {
        seed,
        max,
        threads: false,
        log_only: false,
        own_writes: false,
        followers: 0,
        archive: false,
    }
}

/// Runs the script of the seed by its turns, and sums the run up; of a fault there is its line alone.
fn run_script<R: Threads + Wait + Sync, L: Sectors + Send, D: Sectors + Send, G: Gate>(
    rt: &R,
    alloc: Global,
    gate: &G,
    script: &Script,
    seed: u64,
    max: u64,
    log: L,
    store: D,
) -> Done<L, D>
    requires { AllByRecursion IsScriptLine script.now }
    ensures { (users groups : ℕ) → script.now ≡ generated_lines seed users groups → IsUnreadEnd L.seen L.gives D.seen D.gives log store (Gen seed users groups true max) result }
{
    laws();
    let drive = drive_of_seed(seed, max);
    let stops = Stops {
        log: None,
        store: None,
    };
    let Ran {
        course,
        mut log,
        mut store,
    } = play_unarchived(rt, alloc, script, &drive, gate, stops, log, store);
    let outcome = match course {
        Course::Ended(fault) | Course::Stopped(fault) => Outcome::Fault(fault),
        Course::Played(played, ended) => match ended {
            Some(fault) => Outcome::Fault(fault),
            None => read_after(alloc, &played, &mut log, &mut store),
        },
    };
    Done {
        outcome,
        log,
        store,
    }
}

/// Generates the script of the seed, and runs it by the turns of the same seed.
fn run_seed<R: Threads + Wait + Sync, L: Sectors + Send, D: Sectors + Send, G: Gate>(
    rt: &R,
    alloc: Global,
    gate: &G,
    seed: u64,
    users: u32,
    groups: u64,
    max: u64,
    log: L,
    store: D,
) -> Done<L, D>
    requires some_users { 1 ≤ users }
    requires few_users { users ≤ MAX_USERS }
    ensures { IsUnreadEnd L.seen L.gives D.seen D.gives log store (Gen seed users groups true max) result }
{
    laws();
    generated_lines_are_ranged();
    match generate_lines(alloc, seed, users, groups) {
        Ok(script) => run_script(rt, alloc, gate, &script, seed, max, log, store),
        Err(_) => unasked(Fault::Memory, log, store),
    }
}

/// Generates the script of the seed, and prints it or runs it. It reads no source.
pub(crate) fn gen_command<R: Threads + Wait + Sync, L: Sectors + Send, D: Sectors + Send, G: Gate>(
    rt: &R,
    alloc: Global,
    gate: &G,
    seed: u64,
    users: u32,
    groups: u64,
    run: bool,
    max: u64,
    log: L,
    store: D,
) -> Done<L, D>
    requires some_users { 1 ≤ users }
    requires few_users { users ≤ MAX_USERS }
    ensures { IsUnreadEnd L.seen L.gives D.seen D.gives log store (Gen seed users groups run max) result }
{
    if run {
        run_seed(rt, alloc, gate, seed, users, groups, max, log, store)
    } else {
        print_script(alloc, seed, users, groups, log, store)
    }
}
