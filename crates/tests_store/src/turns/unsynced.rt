// Stores whose last run left a tail block that no sync covers, opened again with no crash between.
use super::runs::{NO_TURNS, Run, closed_of, devices_of, left_of};
use crate::fixtures::told_on;
use crate::stops::{Limits, PICKS, open_and_crash};
use redo_memdisk::MemDisk;
use redo_recover::RecFault;
use std::alloc::{AllocError, Global};
use std::process::Abort;
use std::test::Fail;

/// A group that is answered once it is flushed, and one of the same block that is answered once it is written. The user, the
/// writer and the flusher go on as far as they can.
const TWO_MODES: Run = Run {
    text: "1 f b1 3 100 7\n1 w b1 3 101 8\n",
    turns: "0-* 1-* 2-* 0-* 1-* 0.*",
    cut: 100,
    ..NO_TURNS
};

/// The devices after a run in which nothing failed. One tail block has the first group and is synced, the other one has
/// both and isn't.
fn left_unsynced(rt: &impl Abort, alloc: Global) -> Result<(MemDisk, MemDisk), Fail> {
    let (ended, closed) = closed_of(rt, alloc, &TWO_MODES)?;
    let left = left_of(alloc, ended, &closed)?;
    let is_left = left.starts_with("Done 0 2: ") && left.ends_with("(8216, 8216, 8210, 8192)");
    assert!(rt; is_left, "{left}");
    Ok(devices_of(closed))
}

/// The calls of the log device up to and with the first sync: the header is read, a stretch of blocks, the tail blocks
/// and the header blocks.
const LOG_SYNCED: u64 = (1 + 1 + 1) + 1 + 1;

/// All of them: one tail block is cleared, and synced; then 1,021 blocks by writes of 128 at the most, and the place of
/// the block in the other tail block, and synced; and the checkpoint is written and synced.
const LOG_CALLS: u64 = LOG_SYNCED + (1 + 1) + (8 + 1 + 1) + 2;

/// The calls of the data device before its first sync: the slots and eight places are read.
const DATA_READ: u64 = 1 + 8;

/// All of them: after that sync one page is written by four calls.
const DATA_CALLS: u64 = DATA_READ + 1 + 4;

/// What is told where opening stops so; and the fault that it stopped with.
fn told_at(
    alloc: Global,
    devices: (MemDisk, MemDisk),
    limits: Limits,
    pick: u64,
) -> Result<(String, Option<RecFault>), AllocError> {
    let (mut log, mut data, fault) = open_and_crash(alloc, devices, limits, pick);
    Ok((told_on(alloc, &mut log, &mut data)?, fault))
}

/// Sees that opening with such a stop, and a crash, leave the group that was flushed; and the other one too once the
/// log device is synced, or where the pick keeps the first of its pending sectors.
fn see_stop(
    rt: &(impl Abort + AllocGlobal),
    limits: Limits,
    is_synced: bool,
    want: Option<RecFault>,
) -> Result<(), Fail> {
    for pick in PICKS {
        let devices = left_unsynced(rt, rt.alloc())?;
        let (told, fault) = told_at(rt.alloc(), devices, limits, pick)?;
        let kept = if is_synced || pick % 2 == 1 {
            "8 [3 8216 7;]"
        } else {
            "8 [3 8210 7;]"
        };
        assert!(rt;
            told.ends_with(kept) && fault == want,
            "{fault:?} at {limits:?} with the pick {pick}: {told}"
        );
    }
    Ok(())
}

#[test]
fn a_stop_of_the_log_device_leaves_what_was_flushed(rt: HostRuntime) -> Result<(), Fail> {
    for calls in 0..LOG_CALLS {
        let want = Some(RecFault::LogDev);
        see_stop(&rt, (Some(calls), None), LOG_SYNCED <= calls, want)?;
    }
    see_stop(&rt, (Some(LOG_CALLS), None), true, None)
}

#[test]
fn a_stop_of_the_data_device_leaves_what_was_flushed(rt: HostRuntime) -> Result<(), Fail> {
    for calls in 0..DATA_CALLS {
        let want = Some(RecFault::DataDev);
        see_stop(&rt, (None, Some(calls)), DATA_READ <= calls, want)?;
    }
    see_stop(&rt, (None, Some(DATA_CALLS)), true, None)
}
