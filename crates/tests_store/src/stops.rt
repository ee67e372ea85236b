// Opening that stops at each call of a device, and that is tried again after that, on devices that tear sectors.
use crate::fixtures::{
    FOUR, GROUP, LONG, group_store, open_to_end, put_group, told_on, torn_pages, torn_store, zeros,
};
use crate::store::{Store, TEARING};
use redo_disk::Sectors;
use redo_header::Format;
use redo_memdisk::{Fused, MemDisk};
use redo_recover::RecFault;
use std::alloc::{AllocError, Global};
use std::process::Abort;
use std::test::Fail;

/// Which sector writes since the last good sync a crash keeps: none, all, and every other one.
pub const PICKS: [u64; 4] = [0, u64::MAX, 0x5555_5555_5555_5555, 0xAAAA_AAAA_AAAA_AAAA];

/// How many calls the two devices pass.
pub type Limits = (Option<u64>, Option<u64>);

/// What is to be told of a store at each stop, and once it is opened.
#[derive(Clone, Copy)]
struct Kept<'a> {
    /// The pages.
    pages: &'a str,
    /// That no block and no group is read, and where a run on it starts.
    start: &'a str,
}

/// Opens a store on devices that pass so many calls, and crashes both. Gives the fault that opening ended with.
pub fn open_and_crash(
    alloc: Global,
    (log, data): (MemDisk, MemDisk),
    (log_limit, data_limit): Limits,
    pick: u64,
) -> (MemDisk, MemDisk, Option<RecFault>) {
    let (mut log, mut data, fault) = open_to_end(
        alloc,
        Fused::new(log, log_limit),
        Fused::new(data, data_limit),
    );
    log.crash(pick);
    data.crash(pick);
    (log.into_inner(), data.into_inner(), fault)
}

/// What is told of a store that is opened on these devices once more.
pub fn told_again(alloc: Global, devices: (MemDisk, MemDisk)) -> Result<String, AllocError> {
    let (mut log, mut data, _) = open_and_crash(alloc, devices, (None, None), 0);
    told_on(alloc, &mut log, &mut data)
}

/// What is told of a store where opening stops so, and then where it is opened once more; and the fault that it stopped with.
fn told_at(
    alloc: Global,
    devices: (MemDisk, MemDisk),
    limits: Limits,
    pick: u64,
) -> Result<(String, String, Option<RecFault>), AllocError> {
    let (mut log, mut data, fault) = open_and_crash(alloc, devices, limits, pick);
    let stopped = told_on(alloc, &mut log, &mut data)?;
    let opened = told_again(alloc, (log, data))?;
    Ok((stopped, opened, fault))
}

/// Sees that opening with such a stop ends with this fault and leaves these pages, and that opening once more leaves them
/// too, by format 3 and with no group to be read.
fn see_stop(
    rt: &(impl Abort + AllocGlobal),
    store: &Store,
    limits: Limits,
    pick: u64,
    kept: Kept,
    want: Option<RecFault>,
) -> Result<(), Fail> {
    let devices = store.devices_with(rt.alloc(), TEARING, TEARING)?;
    let (stopped, opened, fault) = told_at(rt.alloc(), devices, limits, pick)?;
    let is_kept = stopped.ends_with(kept.pages) && opened.ends_with(kept.pages);
    let is_opened = opened.contains("\n(Three, ") && opened.contains(kept.start);
    assert!(rt;
        is_kept && is_opened && fault == want,
        "{fault:?} at {limits:?} with the pick {pick}: {stopped}, {opened}"
    );
    Ok(())
}

/// Sees it at each call of the log device, of which opening makes so many.
fn see_log_stops(
    rt: &(impl Abort + AllocGlobal),
    store: &Store,
    calls: u64,
    kept: Kept,
) -> Result<(), Fail> {
    for count in 0..calls {
        for pick in PICKS {
            let want = Some(RecFault::LogDev);
            see_stop(rt, store, (Some(count), None), pick, kept, want)?;
        }
    }
    see_stop(rt, store, (Some(calls), None), 0, kept, None)
}

/// What is told of the torn store.
fn torn_kept(format: Format) -> Kept<'static> {
    let start = match format {
        Format::One => "(0, 0, None, 533004)",
        _ => "(0, 0, None, 531980)",
    };
    Kept {
        pages: torn_pages(format),
        start,
    }
}

/// The calls that take a store to format 3: the header is written into both its blocks, and synced each time.
const RUN_CALLS: u64 = 2 * 2;

/// The calls of the log device for the torn store of format 2: the header is read, two stretches of blocks, of which one
/// goes to the log's end, and the tail blocks; then the header blocks, which are alike, and a sync comes before the
/// first write. One tail block is cleared, and synced; then 1,020 blocks by writes of 128 at the most, the place of the
/// block in the other tail block, and that one, and synced; and the checkpoint is written and synced.
const TORN_CALLS: u64 = (1 + 2 + 1) + 1 + 1 + (1 + 1) + (8 + 2 + 1) + 2 + RUN_CALLS;

/// The calls for a store of format 1 after that of the blocks, of which 1,022 or 1,023 are cleared: the first checkpoint is
/// written and synced; all 1,024 blocks are cleared by writes of 128, and synced; the second checkpoint and the header
/// of format 2 in both its blocks are written and synced; and the store is taken to format 3.
pub const MIGRATION_CALLS: u64 = 2 + (8 + 1) + 3 * 2 + RUN_CALLS;

/// Those for the torn store of format 1, of which no header stands in block 2.
const OLD_CALLS: u64 = (1 + 2) + 1 + 1 + 2 + (8 + 1) + MIGRATION_CALLS;

/// The calls of the data device: the slots and three places are read; after a sync one place is repaired, by a write and a
/// sync, and two pages are written by five calls. Then the 117 slots are filled with zeros that come after the old slots and
/// places, 16 by a write, and the three pages are written to their new places, and synced.
const DATA_CALLS: u64 = (1 + 3) + 1 + 2 + 5 + (8 + 3 + 1);

#[test]
fn a_stop_of_the_log_device_leaves_the_pages(rt: HostRuntime) -> Result<(), Fail> {
    let store = torn_store(rt.alloc(), Format::Two)?;
    see_log_stops(&rt, &store, TORN_CALLS, torn_kept(Format::Two))
}

#[test]
fn a_stop_of_migration_leaves_the_pages(rt: HostRuntime) -> Result<(), Fail> {
    let store = torn_store(rt.alloc(), Format::One)?;
    see_log_stops(&rt, &store, OLD_CALLS, torn_kept(Format::One))
}

#[test]
fn a_stop_of_the_data_device_leaves_the_pages(rt: HostRuntime) -> Result<(), Fail> {
    for format in [Format::One, Format::Two] {
        let store = torn_store(rt.alloc(), format)?;
        let kept = torn_kept(format);
        for calls in 0..DATA_CALLS {
            for pick in PICKS {
                let want = Some(RecFault::DataDev);
                see_stop(&rt, &store, (None, Some(calls)), pick, kept, want)?;
            }
        }
        see_stop(&rt, &store, (None, Some(DATA_CALLS)), 0, kept, None)?;
    }
    Ok(())
}

/// Of the block in which the run starts, block 4 has the front of a group that isn't whole, and block 5 a shorter version
/// with another group. That group is read at no stop.
#[test]
fn a_stop_shows_no_shorter_tail_block(rt: HostRuntime) -> Result<(), Fail> {
    let mut store = group_store(rt.alloc(), Format::Two)?;
    store.put_tail(5, 8192, &GROUP, true);
    let mut front = [7; 18];
    front[..7].copy_from_slice(&LONG);
    store.put_tail(4, 8192, &front, true);
    let kept = Kept {
        pages: "4 []",
        start: "(0, 0, None, 8204)",
    };
    let calls = (1 + 1 + 1) + 1 + 1 + (1 + 1) + (8 + 2 + 1) + 2 + RUN_CALLS;
    see_log_stops(&rt, &store, calls, kept)
}

/// The only header of a store of format 1 stands in block 2. It is put into block 0 before the one of format 2 comes over
/// it, so that each stop leaves one.
#[test]
fn a_stop_leaves_a_header(rt: HostRuntime) -> Result<(), Fail> {
    let mut store = zeros(rt.alloc(), Format::One)?;
    store.put_head_block(2, Format::One, &FOUR);
    put_group(&mut store);
    let kept = Kept {
        pages: "4 [3 8210 7;]",
        start: "(0, 0, None, 8716)",
    };
    let calls = (1 + 1) + 1 + 1 + 2 + (8 + 1) + MIGRATION_CALLS;
    see_log_stops(&rt, &store, calls, kept)
}
