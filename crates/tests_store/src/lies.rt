// Opening on a device of which one read lies, where the two header blocks aren't alike.
ghost use Rattle.redo_memdisk.specs.Memory.{mem_seen};

use crate::fixtures::{group_store, open_to_end};
use crate::stops::{MIGRATION_CALLS, open_and_crash, told_again};
use crate::store::Store;
use redo_disk::{DevError, Sectors};
use redo_header::Format;
use redo_memdisk::MemDisk;
use std::alloc::{AllocError, Global};
use std::process::Abort;
use std::test::Fail;

/// Which read lies, counted from 0, and the offset on the device of the byte that it gives wrong.
#[derive(Clone, Copy, Debug)]
struct Lie {
    read: u64,
    at: u64,
}

/// A device in memory of which one read lies, so that it tells nothing of what it holds.
#[derive(Drop)]
struct LyingDisk {
    inner: MemDisk,
    lie: Lie,
    /// How many reads there were.
    reads: u64,
}

impl Sectors for LyingDisk {
    ghost use Rattle.std.specs.Prelude.{None};

    ghost seen = { λ disk. record (mem_seen disk.inner) { tells = None; crashed_from = None } };

    ghost told_before = { λ old new call given told. told };

    fn len(&self) -> u64 {
        self.inner.len()
    }

    fn read(&mut self, at: u64, out: &mut [u8]) -> Result<(), DevError> {
        self.inner.read(at, out)?;
        if self.reads == self.lie.read && at <= self.lie.at {
            spoil(out, self.lie.at - at);
        }
        self.reads = self.reads.wrapping_add(1);
        Ok(())
    }

    fn write(&mut self, at: u64, bytes: &[u8]) -> Result<(), DevError> {
        self.inner.write(at, bytes)
    }

    fn sync(&mut self) -> Result<(), DevError> {
        self.inner.sync()
    }

    fn crash(&mut self, pick: u64) {
        self.inner.crash(pick);
    }
}

/// Changes the byte at this offset, if there is one.
fn spoil(bytes: &mut [u8], at: u64) {
    if at < bytes.len() as u64 {
        bytes[at as usize] ^= 1;
    }
}

/// Offsets within the two header blocks.
const HEADS: [u64; 2] = [20, 1_044];

/// More reads than opening makes of the log device for one of these stores.
const READS: u64 = 6;

/// The calls of the log device for a store of format 1: the header, a stretch of blocks and the header blocks are read, and
/// a sync comes; the header is put into block 2; blocks are cleared, and the store is migrated.
const CALLS: u64 = (1 + 1) + 1 + 1 + 2 + (8 + 1) + MIGRATION_CALLS;

/// The last of them, which put the second checkpoint, the header of format 2 into blocks 2 and 0, and that of format 3.
const LAST_CALLS: u64 = (1 + 2 + 2) * 2;

/// The devices of this store, after opening that was stopped after so many calls of the log device, or that never was.
fn devices_after(
    alloc: Global,
    store: &Store,
    stopped: Option<u64>,
) -> Result<(MemDisk, MemDisk), DevError> {
    let devices = store.devices(alloc)?;
    if stopped.is_none() {
        return Ok(devices);
    }
    let (log, data, _) = open_and_crash(alloc, devices, (stopped, None), 0);
    Ok((log, data))
}

/// What is told of a store that was opened on such devices, of which the log device lies so, and then once more with no lie.
fn told_after(
    alloc: Global,
    (log, data): (MemDisk, MemDisk),
    lie: Lie,
) -> Result<String, AllocError> {
    let log = LyingDisk {
        inner: log,
        lie,
        reads: 0,
    };
    let (log, data, _) = open_to_end(alloc, log, data);
    told_again(alloc, (log.inner, data))
}

/// Sees that each lie about a header leaves the group of this store, on which opening was stopped after so many calls of the
/// log device.
fn see_lies(
    rt: &(impl Abort + AllocGlobal),
    store: &Store,
    stopped: Option<u64>,
) -> Result<(), Fail> {
    for read in 0..READS {
        for at in HEADS {
            let lie = Lie { read, at };
            let devices = devices_after(rt.alloc(), store, stopped)?;
            let told = told_after(rt.alloc(), devices, lie)?;
            let is_kept = told.ends_with("4 [3 8210 7;]");
            assert!(rt; is_kept, "{lie:?}, stopped after {stopped:?}: {told}");
        }
    }
    Ok(())
}

/// The second header block is damaged, or the first one.
#[test]
fn a_lie_takes_no_header_beside_a_damaged_one(rt: HostRuntime) -> Result<(), Fail> {
    for at in [1_044, 20] {
        let mut store = group_store(rt.alloc(), Format::Two)?;
        store.put_log_byte(at, 9);
        see_lies(&rt, &store, None)?;
    }
    Ok(())
}

/// In format 1 the header stands in the first block alone. While migration comes to its end there are those of two formats.
#[test]
fn a_lie_takes_no_header_of_format_1(rt: HostRuntime) -> Result<(), Fail> {
    let store = group_store(rt.alloc(), Format::One)?;
    see_lies(&rt, &store, None)?;
    for count in 0..LAST_CALLS {
        see_lies(&rt, &store, Some(CALLS - count))?;
    }
    Ok(())
}
