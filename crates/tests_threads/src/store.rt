// Stores that were just formatted, over devices in memory that may stop, each with a script that fits it.
ghost use Rattle.std.specs.Prelude.{IfOk, ℕ, ◌<◌, ◌^◌, ◌≡◌, ◌≤◌};
ghost use Rattle.model_base.specs.{IsWithinLimits};
ghost use Rattle.model_log.specs.declared.layout.TheConstants.{BLOCK_HEADER};
ghost use Rattle.redo_drive.specs.{AreNewFollowers, MayBegin, room_from};
ghost use Rattle.redo_store.specs.{IsRunnable};

use model_base::{BLOCK_SIZE, Shape};
use model_log::{BLOCK_HEADER, TAIL_BLOCKS};
use model_script::{Script, fitting_script, read_lines_are_ranged};
use redo_follow::{Follower, Tally};
use redo_memdisk::{Fused, MemDisk};
use redo_open::{format, open_store};
use redo_script::{judge, parse};
use redo_store::Opened;
use std::alloc::Global;
use std::test::Fail;

/// A device of the tests.
pub type Device = Fused<MemDisk>;

/// Bytes of the log device: four header blocks, and 2,048 log blocks.
const LOG: u64 = 1_050_624;

/// How many calls of the log device the opening of a new store makes: the header blocks are read, the tail blocks, and the one
/// stretch of blocks at which the log ends, and then the two blocks of the header once more; the device is synced; the tail
/// blocks are cleared by a write each, and synced; 2,046 blocks are cleared by writes of 128, and synced; the checkpoint is
/// written and synced.
pub const LOG_CALLS: u64 = 4 + 1 + (2 + 1) + (16 + 1) + 2;

/// Bytes of the data device: the slots, and the places of eight pages.
const DATA: u64 = 557_056;

/// How many calls of the data device it makes: the slots and eight places are read, and there is a sync.
pub const DATA_CALLS: u64 = (1 + 8) + 1;

/// How a store is run: with the log alone or with the pages, by users that write for themselves or don't, on devices that
/// pass so many calls from the first of opening on.
#[derive(Clone, Copy)]
pub struct Way {
    pub log_only: bool,
    pub own_writes: bool,
    pub log_calls: Option<u64>,
    pub data_calls: Option<u64>,
}

/// With the pages, on devices that pass all calls.
pub const PAGES: Way = Way {
    log_only: false,
    own_writes: false,
    log_calls: None,
    data_calls: None,
};

/// With the log alone, on such devices.
pub const LOG_ALONE: Way = Way {
    log_only: true,
    ..PAGES
};

/// Each where users write for themselves, and where they don't.
pub const WAYS: [Way; 4] = [
    LOG_ALONE,
    PAGES,
    Way {
        own_writes: true,
        ..LOG_ALONE
    },
    Way {
        own_writes: true,
        ..PAGES
    },
];

/// A store on which the run of a script may begin.
pub struct Ready {
    pub opened: Opened<Device, Device>,
    pub script: Script,
}

/// The devices of a store that was formatted.
fn formatted(alloc: Global) -> Result<(MemDisk, MemDisk), Fail> {
    let mut log = MemDisk::new(alloc, LOG)?;
    let mut store = MemDisk::new(alloc, DATA)?;
    format(&mut log, &mut store, &Shape::default_shape())?;
    Ok((log, store))
}

/// The store on these devices.
fn opened_on(alloc: Global, log: Device, store: Device) -> Result<Opened<Device, Device>, Fail>
    ensures { IfOk result IsRunnable }
{
    match open_store(alloc, log, store) {
        Ok(opened) => Ok(opened),
        Err((fault, _, _)) => Err(Fail::from(fault)),
    }
}

/// A store that was formatted, and opened on these devices.
fn opened(alloc: Global, way: Way) -> Result<Opened<Device, Device>, Fail>
    ensures { IfOk result IsRunnable }
{
    let (log, store) = formatted(alloc)?;
    let log = Fused::new(log, way.log_calls);
    let store = Fused::new(store, way.data_calls);
    opened_on(alloc, log, store)
}

/// How far the log has room where it runs alone: one round from the checkpoint on, which stands where a run begins.
fn room_end(log_only: bool, shape: &Shape, start: u64) -> Option<u64>
    requires limits { IsWithinLimits shape.now }
    requires header { BLOCK_HEADER ≤ start }
    requires small { start < 2 ^ 61 }
    ensures { result ≡ room_from log_only shape.now start }
{
    if log_only {
        let blocks = u64::from(shape.log_blocks) - TAIL_BLOCKS;
        Some(start - BLOCK_HEADER + BLOCK_SIZE * blocks)
    } else {
        None
    }
}

/// A new store with the script of a text, which has to fit it.
pub fn make_ready(alloc: Global, text: &[u8], way: Way) -> Result<Ready, Fail>
    ensures { IfOk result (λ ready. MayBegin ready.opened ready.script way.log_only) }
{
    let opened = opened(alloc, way)?;
    fitting_script();
    read_lines_are_ranged();
    let Ok(script) = parse(alloc, text) else {
        return Err(Fail::from("no script"));
    };
    let end = room_end(way.log_only, &opened.shape, opened.start);
    let Ok(()) = judge(alloc, &opened.shape, opened.start, end, None, &script) else {
        return Err(Fail::from("no fit"));
    };
    Ok(Ready { opened, script })
}

/// No followers.
pub fn no_followers(alloc: Global) -> Vec<Follower<Tally>>
    ensures { (start : ℕ) → AreNewFollowers start result.items }
{
    Vec::new(alloc)
}
