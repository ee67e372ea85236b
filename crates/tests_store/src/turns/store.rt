// Machines on stores that were just formatted, over devices in memory that may stop.
ghost use Rattle.std.specs.Prelude.{false, ℕ, ◌<◌, ◌≡◌, ◌≤◌, ◌^◌, IfOk};
ghost use Rattle.model_base.specs.{IsWithinLimits};
ghost use Rattle.model_log.specs.declared.layout.TheConstants.{BLOCK_HEADER};
ghost use Rattle.redo_drive.specs.{AreNewFollowers, MayBegin, room_from};
ghost use Rattle.redo_ownmachine.specs.OwnCrew.{HasRoom};
ghost use Rattle.redo_ownmachine.specs.OwnStore.{OwnIsOnRun};
ghost use Rattle.redo_store.specs.{IsRunnable};
ghost use Rattle.redo_machine.specs.Reading.{IsOnRun};

use model_base::{BLOCK_SIZE, Shape};
use model_log::{BLOCK_HEADER, TAIL_BLOCKS};
use model_script::{Script, fitting_script, read_lines_are_ranged};
use redo_disk::Sectors;
use redo_drive::{Actor, Driven};
use redo_follow::{Follower, Receiver, Tally};
use redo_machine::{Machine, Turns, run_by_turns};
use redo_memdisk::MemDisk;
use redo_open::{format, open_store};
use redo_ownmachine::{OwnMachine, run_own_by_turns};
use redo_script::{judge, parse};
use redo_store::Opened;
use std::alloc::Global;
use std::process::Abort;
use std::test::Fail;

/// The smallest log, and eight pages.
const SHAPE: Shape = Shape {
    page_size: 4096,
    pages: 8,
    space: 1,
    log_blocks: 1024,
    slots: 128,
};

/// Bytes of the log device: four header blocks, and the log blocks.
const LOG: u64 = 526_336;

/// Bytes of the data device: the slots, and the places of the pages.
const DATA: u64 = 557_056;

/// Two devices on which a store was formatted, and which tear the sectors that a crash loses: so many of the first bytes stay.
fn formatted(alloc: Global, cut: usize) -> Result<(MemDisk, MemDisk), Fail>
    requires { cut < 512 }
{
    let mut log = MemDisk::tearing(alloc, LOG, cut)?;
    let mut data = MemDisk::tearing(alloc, DATA, cut)?;
    format(&mut log, &mut data, &SHAPE)?;
    Ok((log, data))
}

/// A store that was formatted and opened on such devices.
pub fn opened(alloc: Global, cut: usize) -> Result<Opened<MemDisk, MemDisk>, Fail>
    requires { cut < 512 }
    ensures { IfOk result IsRunnable }
{
    let (log, data) = formatted(alloc, cut)?;
    match open_store(alloc, log, data) {
        Ok(opened) => Ok(opened),
        Err((fault, _, _)) => Err(Fail::from(fault)),
    }
}

/// No followers.
pub fn no_followers(alloc: Global) -> Vec<Follower<Tally>>
    ensures { (start : ℕ) → AreNewFollowers start result.items }
{
    Vec::new(alloc)
}

/// How far the log has room where it runs alone: one round from the checkpoint on, which stands where a run begins.
fn room_end(log_only: bool, shape: &Shape, start: u64) -> Option<u64>
    requires limits { IsWithinLimits shape.now }
    requires header { BLOCK_HEADER ≤ start }
    requires small { start < 2 ^ 61 }
    ensures { result ≡ room_from log_only shape.now start }
{
    if log_only {
        let blocks = u64::from(shape.log_blocks) - TAIL_BLOCKS;
        Some(start - BLOCK_HEADER + BLOCK_SIZE * blocks)
    } else {
        None
    }
}

/// The script of a text, which fits the store, with the log alone or with the pages.
fn script_on<L: Sectors, D: Sectors>(
    rt: &impl Abort,
    alloc: Global,
    opened: &Opened<L, D>,
    text: &[u8],
    log_only: bool,
) -> Script
    requires { IsRunnable opened.now }
    ensures { MayBegin opened.now result log_only }
{
    fitting_script();
    read_lines_are_ranged();
    let Ok(script) = parse(alloc, text) else {
        panic!(rt; "no script");
    };
    let end = room_end(log_only, &opened.shape, opened.start);
    let Ok(()) = judge(alloc, &opened.shape, opened.start, end, None, &script) else {
        panic!(rt; "no fit");
    };
    script
}

/// A machine on an opened store, with these followers, for the script of a text, which fits the store.
pub fn machine_on<L: Sectors + Drop, D: Sectors + Drop, R: Receiver + Drop>(
    rt: &impl Abort,
    alloc: Global,
    opened: Opened<L, D>,
    text: &[u8],
    followers: Vec<Follower<R>>,
) -> Machine<L, D, L, R>
    requires runnable { IsRunnable opened }
    requires new { AreNewFollowers opened.start followers.items }
    ensures { IsOnRun L.seen D.seen L.seen result }
{
    let script = script_on(rt, alloc, &opened, text, false);
    match Machine::new(alloc, opened, &script, false, None, followers) {
        Ok(machine) => machine,
        Err(_) => panic!(rt; "no memory"),
    }
}

/// What a run by turns of this seed leaves on an opened store, of the script of a text, which fits the store, with these followers;
/// and its actors.
pub fn driven_on<L: Sectors + Drop, D: Sectors + Drop, R: Receiver + Drop>(
    rt: &impl Abort,
    alloc: Global,
    opened: Opened<L, D>,
    text: &[u8],
    seed: u64,
    followers: Vec<Follower<R>>,
) -> (Driven<L, D>, Vec<Actor<R>>)
    requires runnable { IsRunnable opened }
    requires new { AreNewFollowers opened.start followers.items }
{
    let script = script_on(rt, alloc, &opened, text, false);
    let turns = Turns {
        seed,
        max: 100_000_000,
        log_only: false,
    };
    match run_by_turns::<L, D, L, R>(alloc, opened, &script, &turns, None, followers) {
        Ok((driven, actors, _)) => (driven, actors),
        Err(_) => panic!(rt; "no memory"),
    }
}

/// The same where the users write for themselves.
pub fn own_driven_on<L: Sectors + Drop, D: Sectors + Drop, R: Receiver + Drop>(
    rt: &impl Abort,
    alloc: Global,
    opened: Opened<L, D>,
    text: &[u8],
    seed: u64,
    followers: Vec<Follower<R>>,
) -> (Driven<L, D>, Vec<Actor<R>>)
    requires runnable { IsRunnable opened }
    requires new { AreNewFollowers opened.start followers.items }
{
    let script = script_on(rt, alloc, &opened, text, false);
    let turns = Turns {
        seed,
        max: 100_000_000,
        log_only: false,
    };
    match run_own_by_turns::<L, D, L, R>(alloc, opened, &script, &turns, None, followers) {
        Ok((driven, actors, _)) => (driven, actors),
        Err(_) => panic!(rt; "no memory"),
    }
}

/// A machine on an opened store whose users write for themselves, with the log alone and no followers, for the script of a text,
/// which fits the store.
pub fn own_machine_on<L: Sectors + Drop, D: Sectors + Drop>(
    rt: &impl Abort,
    alloc: Global,
    opened: Opened<L, D>,
    text: &[u8],
) -> OwnMachine<L, D, L, Tally>
    requires { IsRunnable opened }
    ensures on_run { OwnIsOnRun L.seen D.seen L.seen result }
    ensures room { HasRoom result }
{
    let script = script_on(rt, alloc, &opened, text, true);
    match OwnMachine::new(alloc, opened, &script, true, None, no_followers(alloc)) {
        Ok(machine) => machine,
        Err(_) => panic!(rt; "no memory"),
    }
}
