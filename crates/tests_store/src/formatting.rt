// Formatting that stops at a call of the log device, on devices that tear the sectors that a crash loses.
use crate::fixtures::{BLANK, DATA, LOG, format_on, see, told, torn_store};
use crate::store::{SOUND, Store, TEARING};
use model_base::Shape;
use redo_disk::{DevError, Sectors};
use redo_header::Format;
use redo_memdisk::{Fused, MemDisk};
use redo_recover::RecFault;
use std::alloc::Global;
use std::process::Abort;
use std::test::Fail;

/// Which sector writes since the last good sync a crash keeps: none, and all.
const PICKS: [u64; 2] = [0, u64::MAX];

/// The calls of the log device up to and with the sync of the zeros in block 0: a sync of what is pending, and for block 2
/// and block 0 a write and a sync each.
const HEADLESS: u64 = 1 + 2 + 2;
/// Those up to the write of the header into block 0: nine writes of 128 blocks at the most and a sync, and the checkpoint
/// with its sync.
const BEFORE_HEAD: u64 = HEADLESS + 10 + 2;
/// All of them: the header is written into block 0 and into block 2, with a sync each.
const CALLS: u64 = BEFORE_HEAD + 2 + 2;

/// After how many calls formatting is stopped: at each one while the header goes and comes, and once while blocks are
/// cleared.
const STOPS: [u64; 13] = [0, 1, 2, 3, 4, 5, 10, 16, 17, 18, 19, 20, CALLS];

/// The sizes of another store.
const OTHER: Shape = Shape {
    page_size: 4096,
    pages: 2,
    space: 1,
    log_blocks: 1024,
    slots: 8,
};

/// What is told of the store that was there, the torn one of format 1.
const BEFORE: &str =
    "(One, [4096, 3, 1, 1024, 8], 1, 531968) (4, 2, Some(531980), 532498) 3 [0 532498 7;1 532492 5;2 9000 8;]";

/// What is told of none.
const NOTHING: &str = "NotFormatted";

/// Formats a store on a log device that passes so many calls, and crashes both devices; the log device, and what formatting
/// answered.
fn format_and_crash(
    log: MemDisk,
    data: &mut MemDisk,
    calls: u64,
    pick: u64,
) -> (MemDisk, Result<(), RecFault>) {
    let mut log = Fused::new(log, Some(calls));
    let answer = format_on(&mut log, data);
    log.crash(pick);
    data.crash(pick);
    (log.into_inner(), answer)
}

/// What that leaves of a store whose log device tears sectors; and what formatting answered.
fn format_over(
    alloc: Global,
    store: &Store,
    calls: u64,
    pick: u64,
) -> Result<(Store, Result<(), RecFault>), DevError> {
    let (log, mut data) = store.devices_with(alloc, TEARING, SOUND)?;
    let (mut log, answer) = format_and_crash(log, &mut data, calls, pick);
    Ok((Store::of(alloc, &mut log, &mut data)?, answer))
}

/// The first write of the header on devices of zeros is torn: no header is read, and block 0 is no longer zeros either, so
/// that it takes another formatting.
#[test]
fn a_torn_first_header_is_none(rt: HostRuntime) -> Result<(), Fail> {
    let alloc = rt.alloc();
    let zeros = Store::filled(alloc, 0, LOG, DATA)?;
    let (left, answer) = format_over(alloc, &zeros, BEFORE_HEAD, 0)?;
    assert!(rt; answer == Err(RecFault::LogDev) && left.log.get(3) == Some(&2));
    see(&rt, &left, NOTHING)?;
    let (again, answer) = format_over(alloc, &left, CALLS, 0)?;
    assert!(rt; answer == Ok(()));
    see(&rt, &again, BLANK)
}

/// Between the sync of the header in block 0 and its write into block 2 the new store is there, whatever stands in block 2.
#[test]
fn the_first_header_is_enough(rt: HostRuntime) -> Result<(), Fail> {
    let zeros = Store::filled(rt.alloc(), 0, LOG, DATA)?;
    for calls in BEFORE_HEAD + 2..CALLS {
        for pick in PICKS {
            let (left, answer) = format_over(rt.alloc(), &zeros, calls, pick)?;
            assert!(rt; answer == Err(RecFault::LogDev));
            see(&rt, &left, BLANK)?;
        }
    }
    Ok(())
}

/// What a stop after so many calls may leave of a store.
fn may_be_left(calls: u64) -> &'static [&'static str] {
    if calls < HEADLESS - 2 {
        &[BEFORE]
    } else if calls < HEADLESS {
        &[BEFORE, NOTHING]
    } else if calls < BEFORE_HEAD {
        &[NOTHING]
    } else if calls < BEFORE_HEAD + 2 {
        &[NOTHING, BLANK]
    } else {
        &[BLANK]
    }
}

/// Sees that a stop of formatting leaves what it may.
fn see_stop(
    rt: &(impl Abort + AllocGlobal),
    store: &Store,
    calls: u64,
    pick: u64,
) -> Result<(), Fail> {
    let (left, answer) = format_over(rt.alloc(), store, calls, pick)?;
    let told = told(rt.alloc(), &left)?;
    let mut may_leave = false;
    for want in may_be_left(calls) {
        may_leave |= told.contains(want);
    }
    assert!(rt;
        may_leave && answer.is_ok() == (calls == CALLS),
        "{told} after {calls} calls with the pick {pick}"
    );
    Ok(())
}

/// The store that is formatted has the header of another one in block 2. That is never read: each stop leaves the store that
/// was there, or none, or the new one.
#[test]
fn no_stop_of_formatting_shows_another_store(rt: HostRuntime) -> Result<(), Fail> {
    let mut store = torn_store(rt.alloc(), Format::One)?;
    store.put_head_block(2, Format::Two, &OTHER);
    see(&rt, &store, BEFORE)?;
    for calls in STOPS {
        for pick in PICKS {
            see_stop(&rt, &store, calls, pick)?;
        }
    }
    Ok(())
}
