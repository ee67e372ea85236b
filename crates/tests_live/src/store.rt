// Live stores on new devices in memory, of which that of the log may stop.
ghost use Rattle.std.specs.Prelude.{IfOk};
ghost use Rattle.redo_store.specs.{IsRunnable};

use model_base::{LSN_LIMIT, Shape};
use model_script::MAX_USERS;
use redo_disk::Sectors;
use redo_live::{Store, User, Work};
use redo_memdisk::{Fused, MemDisk};
use redo_open::{format, open_store};
use redo_recover::{Recovered, recover};
use redo_rule::Left;
use redo_store::Opened;
use std::alloc::Global;
use std::sync::Wait;
use std::test::Fail;
use std::thread::Threads;

/// A device of the tests.
pub type Device = Fused<MemDisk>;

/// A live store of the tests, and a user of it.
pub type LiveStore = Store<Device, Device>;

pub type LiveUser = User<Device, Device>;

/// Bytes of the log device: four header blocks, and 2,048 log blocks.
const LOG: u64 = 1_050_624;

/// Bytes of the data device: the slots, and the places of eight pages.
const DATA: u64 = 557_056;

/// How many calls of the log device the opening of a new store makes: the header blocks are read, the tail blocks, and the one
/// stretch of blocks at which the log ends, and then the two blocks of the header once more; the device is synced; the tail
/// blocks are cleared by a write each, and synced; 2,046 blocks are cleared by writes of 128, and synced; the checkpoint is
/// written and synced.
const LOG_CALLS: u64 = 4 + 1 + (2 + 1) + (16 + 1) + 2;

/// How a store is opened: for so many users, one to sixteen, with the log alone or with the pages, on a log device that passes
/// so many calls once it is open; whether its users are dropped before it is closed; and what a crash of its devices picks then.
#[derive(Clone, Copy, Debug)]
pub struct Way {
    pub users: u32,
    pub log_only: bool,
    pub log_calls: Option<u64>,
    pub drops: bool,
    pub pick: u64,
}

/// For one user with the log alone, on devices that pass all calls, and lose what isn't synced.
pub const PLAIN: Way = Way {
    users: 1,
    log_only: true,
    log_calls: None,
    drops: false,
    pick: 0,
};

/// A store that was formatted, and opened on a log device that passes so many calls then.
fn opened(alloc: Global, log_calls: Option<u64>) -> Result<Opened<Device, Device>, Fail>
    ensures { IfOk result IsRunnable }
{
    let mut log = MemDisk::new(alloc, LOG)?;
    let mut data = MemDisk::new(alloc, DATA)?;
    format(&mut log, &mut data, &Shape::default_shape())?;
    let limit = log_calls.map(|calls| calls.saturating_add(LOG_CALLS));
    match open_store(alloc, Fused::new(log, limit), Fused::plain(data)) {
        Ok(opened) => Ok(opened),
        Err((fault, _, _)) => Err(Fail::from(fault)),
    }
}

/// What a new store leaves that is opened in this way, and closed once its users have done this work beside its workers.
fn left_by<R: Threads + Wait + Sync, W: Work<Device, Device> + Sync>(
    rt: &R,
    alloc: Global,
    way: Way,
    work: &W,
) -> Result<Left<Device, Device>, Fail> {
    let opened = opened(alloc, way.log_calls)?;
    if LSN_LIMIT <= opened.start {
        return Err(Fail::from("no lsn is left"));
    }
    let count = way.users.clamp(1, MAX_USERS);
    match Store::open(rt, alloc, opened, count, way.log_only) {
        Ok((store, mut users, mut workers)) => {
            store.serve(rt, work, users.as_mut_slice(), workers.as_mut_slice());
            let left = if way.drops {
                store.close(rt, Vec::new(alloc), workers)
            } else {
                store.close(rt, users, workers)
            };
            Ok(left)
        }
        Err(_) => Err(Fail::from("no memory")),
    }
}

/// The same as it is read after the crash, and the code with which the store failed, 0 if it didn't.
pub fn run<R: Threads + Wait + Sync, W: Work<Device, Device> + Sync>(
    rt: &R,
    alloc: Global,
    way: Way,
    work: &W,
) -> Result<(Recovered, u32), Fail> {
    let Left {
        marks: _,
        log,
        store,
        code,
        work: _,
    } = left_by(rt, alloc, way, work)?;
    let mut log = log.into_dev().into_inner();
    let mut data = store.into_dev().into_inner();
    log.crash(way.pick);
    data.crash(way.pick);
    Ok((recover(alloc, &mut log, &mut data)?, code))
}
