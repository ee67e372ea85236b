// A command, done on its devices.
ghost use Rattle.std.specs.Prelude.{◌≡◌, ◌≤◌, IfSome, None};
ghost use Rattle.model_script.specs.declared.asked.Drive.{Drive as Asked};
ghost use Rattle.model_script.specs.declared.words.TheConstants.{MAX_WORKERS};
ghost use Rattle.redo_lab.specs.Call.{IsScriptRead, Unfused, AreOf, call_on, Handed};
ghost use Rattle.redo_lab.specs.Allowed.{HasAllowedNumbers};
ghost use Rattle.redo_lab.specs.Cause.{EndsWith, SparesArchive, WhereDone};
ghost use Rattle.redo_lab.specs.Runs.{IsRanBy, IsUncut, SparedBy, command_with, stops_of};
ghost use Rattle.redo_lab.specs.Done.{IsDoneBy};

use crate::archiving::{hand_on, take_back};
use crate::crash_command::{Crashing, crash_command};
use crate::gen_command::gen_command;
use crate::laws::laws;
use crate::outcome::{Done, unasked};
use crate::playing::{Ran, Stops, play};
use crate::restore_command::restore_command;
use crate::run_command::run_command;
use crate::script::read_script;
use crate::simple::{format_devices, print_pages, print_store};
use model_script::{Command, Drive, Script, read_lines_are_ranged};
use redo_disk::Sectors;
use redo_io::Source;
use redo_threads::Gate;
use std::alloc::Global;
use std::sync::Wait;
use std::thread::Threads;

/// Where the devices are to stop: nowhere, unless they are crashed.
fn stops_of(crash: Option<Crashing>) -> Stops
    ensures { result ≡ stops_of crash }
{
    match crash {
        Some(crash) => crash.stops,
        None => Stops {
            log: None,
            store: None,
        },
    }
}

/// What comes of a run of the script: a report, and of a crash one after it.
fn after_run<R: Threads + Sync, L: Sectors, D: Sectors>(
    rt: &R,
    alloc: Global,
    script: &Script,
    ran: Ran<L, D>,
    crash: Option<Crashing>,
) -> Done<L, D>
    requires workers { IfSome crash (λ crash. (1 ≤ crash.workers) × (crash.workers ≤ MAX_WORKERS)) }
    ensures ends { (asked : Asked) (handed : Handed) (log : L) (store : D)
        → IsRanBy (call_on L.seen L.gives D.seen D.gives handed log store) (command_with asked crash) asked (stops_of crash) script.now ran
        → IsScriptRead handed.source handed.source_now script.now → HasAllowedNumbers (command_with asked crash)
        → EndsWith (call_on L.seen L.gives D.seen D.gives handed log store result.log result.store) (command_with asked crash) result.outcome }
    ensures spares { crash ≡ None → (archive : Unfused) → SparedBy ran.course archive → SparesArchive archive result.outcome }
    ensures uncut { crash ≡ None → WhereDone result.outcome (IsUncut ran.course) }
    ensures entered { (log : L) (store : D) → AreOf log store ran.log ran.store → AreOf log store result.log result.store }
{
    match crash {
        None => run_command(alloc, script, ran),
        Some(crash) => crash_command(rt, alloc, script, ran, crash),
    }
}

/// Runs the script of the source by this drive, and archives the run on this device where that is asked.
fn source_command<
    R: Threads + Wait + Sync,
    S: Source,
    L: Sectors + Send,
    D: Sectors + Send,
    A: Sectors + Send,
    G: Gate,
>(
    rt: &R,
    alloc: Global,
    src: &mut S,
    gate: &G,
    drive: Drive,
    crash: Option<Crashing>,
    log: L,
    store: D,
    arch: A,
) -> (Done<L, D>, A)
    requires within { HasAllowedNumbers (command_with drive crash) }
    ensures { IsDoneBy L.seen L.gives D.seen D.gives log store A.seen A.gives (S.seen src.old) (S.seen src.new) arch (command_with drive crash) result.0 result.1 }
{
    laws();
    read_lines_are_ranged();
    match read_script(alloc, src) {
        Ok(script) => {
            let stops = stops_of(crash);
            let (on, kept) = hand_on(drive.archive, arch);
            let (ran, left) = play(rt, alloc, &script, &drive, gate, stops, log, store, on);
            let done = after_run(rt, alloc, &script, ran, crash);
            (done, take_back(left, kept))
        }
        Err(fault) => (unasked(fault, log, store), arch),
    }
}

/// A command, done on two devices; and the archive's device, which `restore` reads, and on which a run may be archived. A gate may
/// hold the users of a run in threads.
pub(crate) fn done<
    R: Threads + Wait + Sync,
    S: Source,
    L: Sectors + Send,
    D: Sectors + Send,
    A: Sectors + Send,
    G: Gate,
>(
    rt: &R,
    alloc: Global,
    command: Command,
    src: &mut S,
    gate: &G,
    log: L,
    store: D,
    arch: A,
) -> (Done<L, D>, A)
    requires within { HasAllowedNumbers command }
    ensures { IsDoneBy L.seen L.gives D.seen D.gives log store A.seen A.gives (S.seen src.old) (S.seen src.new) arch command result.0 result.1 }
{
    match command {
        Command::Format {
            page_size,
            pages,
            space,
            log_blocks,
        } => (
            format_devices(alloc, page_size, pages, space, log_blocks, log, store),
            arch,
        ),
        Command::Run { drive } => {
            source_command(rt, alloc, src, gate, drive, None, log, store, arch)
        }
        Command::Crash {
            drive,
            stop_log,
            stop_data,
            pick,
            workers,
        } => {
            let stops = Stops {
                log: stop_log,
                store: stop_data,
            };
            let crash = Some(Crashing {
                stops,
                pick,
                workers,
            });
            source_command(rt, alloc, src, gate, drive, crash, log, store, arch)
        }
        Command::Recover { workers } => (print_pages(rt, alloc, workers, log, store), arch),
        Command::Dump { why } => (print_store(alloc, why, log, store), arch),
        Command::Restore { to } => restore_command(alloc, to, log, store, arch),
        Command::Gen {
            seed,
            users,
            groups,
            run,
            max,
        } => {
            let done = gen_command(rt, alloc, gate, seed, users, groups, run, max, log, store);
            (done, arch)
        }
    }
}
