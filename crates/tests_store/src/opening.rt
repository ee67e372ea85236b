// Stores that were just formatted, how others begin, and how damaged ones are refused.
ghost use Rattle.std.specs.Prelude.{IfOk};
ghost use Rattle.redo_store.specs.{IsRunnable};

use crate::fixtures::{
    BLANK, FOUR, GROUP, SHAPE, WHOLE, formatted, full, group_store, open_to_end, see,
};
use crate::store::Store;
use model_base::BLOCK_SIZE;
use redo_block::are_firsts;
use redo_disk::{DevError, Sectors};
use redo_header::Format;
use redo_lsn::{block_of, is_data_lsn, sn_of};
use redo_memdisk::{Fused, MemDisk};
use redo_open::open_store;
use redo_recover::RecFault;
use redo_store::Opened;
use std::alloc::Global;
use std::process::Abort;
use std::test::Fail;

/// A store that is opened on a log device with a fuse.
type Running = Opened<Fused<MemDisk>, MemDisk>;

/// The store, opened on a log device that passes so many calls.
fn open_on(alloc: Global, store: &Store, limit: Option<u64>) -> Result<Running, Fail>
    ensures { IfOk result IsRunnable }
{
    let (log, data) = store.devices(alloc)?;
    match open_store(alloc, Fused::new(log, limit), data) {
        Ok(opened) => Ok(opened),
        Err((fault, _, _)) => Err(Fail::from(fault)),
    }
}

/// Where a run on the store starts, up to where its log is written and stable, and the number of its checkpoint.
fn start_of(alloc: Global, store: &Store) -> Result<(u64, u64, u64, u64), Fail> {
    let opened = open_on(alloc, store, None)?;
    let log = &opened.log;
    Ok((opened.start, log.written(), log.stable(), log.number()))
}

/// What a crash with this pick leaves.
fn crashed(alloc: Global, opened: Running, pick: u64) -> Result<Store, DevError> {
    let Opened { log, store, .. } = opened;
    let mut log = log.into_dev();
    log.crash(pick);
    let mut data = store.into_dev();
    data.crash(pick);
    Store::of(alloc, &mut log.into_inner(), &mut data)
}

/// Groups of 496 bytes, each a string of 489 bytes in page 1.
fn long_groups() -> [u8; 1488] {
    let mut bytes = [7; 1488];
    for i in 0..3usize {
        bytes[496 * i..496 * i + 7].copy_from_slice(&[0x9E, 1, 1, 0, 38, 1, 0xE9]);
    }
    bytes
}

/// Writes so many of the groups of 496 bytes on a store that was just opened, and syncs them.
fn write_groups(rt: &impl Abort, opened: &mut Running, count: usize) -> Result<(), DevError>
    requires { IsRunnable opened.old }
{
    let start = opened.start;
    assert!(rt; 1 <= count && count <= 3 && start <= 1 << 40);
    let bytes = long_groups();
    let bytes = &bytes[..496 * count];
    let firsts = [12; 3];
    let firsts = &firsts[..count];
    let mark = start + BLOCK_SIZE * count as u64;
    assert!(rt; is_data_lsn(mark));
    assert!(rt; 496 * count as u64 == sn_of(mark) - sn_of(block_of(start)));
    assert!(rt; are_firsts(bytes, firsts));
    match opened.log.write_to(mark, bytes, firsts) {
        Ok(()) => opened.log.sync(),
        Err(error) => Err(error),
    }
}

/// Writes a group of 6 bytes on a store that was just opened and syncs it, and writes the block again with a second such
/// group; what the second write answered.
fn write_again(rt: &impl Abort, opened: &mut Running) -> Result<(), DevError>
    requires { IsRunnable opened.old }
{
    let bytes = [0x81, 1, 1, 0, 100, 7, 0x81, 1, 1, 0, 101, 8];
    assert!(rt; opened.start == 8204 && is_data_lsn(8210) && is_data_lsn(8216));
    assert!(rt;
        6 == sn_of(8210) - sn_of(block_of(8204)) && 12 == sn_of(8216) - sn_of(block_of(8210))
    );
    assert!(rt; are_firsts(&bytes[..6], &[12]) && are_firsts(&bytes, &[12]));
    match opened.log.write_to(8210, &bytes[..6], &[12]) {
        Ok(()) => match opened.log.sync() {
            Ok(()) => opened.log.write_to(8216, &bytes, &[12]),
            Err(error) => Err(error),
        },
        Err(error) => Err(error),
    }
}

/// What a run is to write.
#[derive(Clone, Copy)]
enum Task {
    /// So many groups of 496 bytes.
    Groups(usize),
    /// A group of 6 bytes, and its block again with a second one.
    Twice,
}

/// Opens the store on a log device that passes so many calls, writes there, and crashes it with this pick; what is left,
/// and what the writing answered.
fn write_and_crash(
    rt: &(impl Abort + AllocGlobal),
    store: &Store,
    limit: Option<u64>,
    task: Task,
    pick: u64,
) -> Result<(Store, Result<(), DevError>), Fail> {
    let mut opened = open_on(rt.alloc(), store, limit)?;
    let answer = match task {
        Task::Groups(count) => write_groups(rt, &mut opened, count),
        Task::Twice => write_again(rt, &mut opened),
    };
    Ok((crashed(rt.alloc(), opened, pick)?, answer))
}

/// What opening leaves of the store where a crash comes after it.
fn opened_once(alloc: Global, store: &Store) -> Result<Store, Fail> {
    Ok(crashed(alloc, open_on(alloc, store, None)?, 0)?)
}

/// Formatting leaves a store whose pages were never written, whatever stood on the devices before. A run on it starts at the
/// log's first data byte, under the next checkpoint.
#[test]
fn a_formatted_store_is_blank(rt: HostRuntime) -> Result<(), Fail> {
    let store = formatted(rt.alloc())?;
    see(&rt, &store, BLANK)?;
    assert!(rt; start_of(rt.alloc(), &store)? == (8204, 8204, 8204, 1));
    Ok(())
}

/// How many calls of the log device it takes to open the formatted store: four of reading, a sync, two writes of tail
/// blocks and a sync, eight writes of 128 blocks at the most and a sync, two for the checkpoint, and two for the header of
/// format 3 in each of its blocks.
const CALLS: u64 = 4 + 1 + (2 + 1) + (8 + 1) + 2 + 2 * 2;

/// Of three groups a crash loses the second, and the third stands after the log's end. Opening takes it away: a new group
/// where the second stood is read alone.
#[test]
fn an_old_block_is_gone(rt: HostRuntime) -> Result<(), Fail> {
    let store = formatted(rt.alloc())?;
    let (old, answer) = write_and_crash(&rt, &store, Some(CALLS), Task::Groups(3), 5)?;
    assert!(rt; answer == Err(DevError::Failed));
    see(&rt, &old, "(1, 1, Some(8204), 8716)")?;
    assert!(rt; start_of(rt.alloc(), &old)?.0 == 8716);
    let (left, answer) = write_and_crash(&rt, &old, None, Task::Groups(1), 0)?;
    assert!(rt; answer.is_ok());
    see(&rt, &left, "(1, 1, Some(8716), 9228)")
}

/// A block that was synced is written again by a write that fails: a crash keeps it as it was, or as that write makes it.
#[test]
fn a_failed_second_write_may_stay(rt: HostRuntime) -> Result<(), Fail> {
    let store = formatted(rt.alloc())?;
    for (pick, want) in [
        (0, "(1, 1, Some(8204), 8210)"),
        (1, "(1, 2, Some(8204), 8216)"),
    ] {
        let (left, answer) = write_and_crash(&rt, &store, Some(CALLS + 2), Task::Twice, pick)?;
        assert!(rt; answer == Err(DevError::Failed));
        see(&rt, &left, want)?;
    }
    Ok(())
}

/// The newest checkpoint's block is full and no group begins in it, and the next block is zero: the run starts in the block
/// after that.
#[test]
fn a_full_block_without_a_group_is_passed(rt: HostRuntime) -> Result<(), Fail> {
    let mut store = formatted(rt.alloc())?;
    store.put_ckpt(&SHAPE, 1, 8704);
    store.put_block(&SHAPE, 1, 8704, &[5; 496], false);
    see(&rt, &store, "(1, 0, None, 9228)")?;
    assert!(rt; start_of(rt.alloc(), &store)? == (9228, 9228, 9228, 2));
    Ok(())
}

/// Sees that a store of this format with one group on its log, of which the first text is told, is one of format 3 once it is
/// opened, under the checkpoint of this number: page 3 has the group, and the others were never written. What stood in the
/// slots and places of a run before counts no more: where the place of page 3 is broken, its copy is the one that opening
/// wrote.
fn see_migration(
    rt: &(impl Abort + AllocGlobal),
    format: Format,
    before: &str,
    number: u64,
) -> Result<(), Fail> {
    let store = group_store(rt.alloc(), format)?;
    see(rt, &store, before)?;
    assert!(rt; start_of(rt.alloc(), &store)? == (8716, 8716, 8716, number));
    let after = format!(in rt.alloc();
        "(Three, [4096, 4, 1, 1024, 128], {number}, 8704) (0, 0, None, 8716) 4 [3 8210 7;]"
    )?;
    let mut left = opened_once(rt.alloc(), &store)?;
    see(rt, &left, &after)?;
    left.put_page_byte(131, 2048, 1);
    see(rt, &left, &after)
}

/// A store of format 1 takes two checkpoints more, and one of format 2 takes one.
#[test]
fn a_store_of_an_earlier_format_becomes_one_of_format_3(rt: HostRuntime) -> Result<(), Fail> {
    let one = "(One, [4096, 4, 1, 1024, 8], 1, 8192) (1, 1, Some(8204), 8210)";
    see_migration(&rt, Format::One, one, 3)?;
    let two = "(Two, [4096, 4, 1, 1024, 8], 1, 8192) (1, 1, Some(8204), 8210)";
    see_migration(&rt, Format::Two, two, 2)
}

/// How many blocks are full between the start of a run at 8716 and the block that comes into the place of 8192's.
const ROUND: u64 = 1_021;
/// The lsn of that block.
const NEXT_ROUND: u64 = 8192 + 512 * 1_022;

/// The last block of the log stands in a tail block, and in its own place there is an old one, of which the number is that of
/// a round on. Opening takes it away: when the log has gone round, the block there is the one of the run.
#[test]
fn the_place_of_a_tail_block_is_cleared(rt: HostRuntime) -> Result<(), Fail> {
    let mut store = group_store(rt.alloc(), Format::Two)?;
    store.put_in_place(&FOUR, 1, NEXT_ROUND, &full(&[9, 1, 1, 0, 100, 7], 0), true);
    assert!(rt; start_of(rt.alloc(), &store)?.0 == 8716);
    let mut left = opened_once(rt.alloc(), &store)?;
    for i in 0..ROUND {
        left.put_block(&FOUR, 2, 8704 + 512 * i, &full(&WHOLE, 5), true);
    }
    left.put_block(&FOUR, 2, NEXT_ROUND, &GROUP, true);
    see(&rt, &left, "(1022, 1022, Some(8716), 531474)")
}

/// The lsn of a block that is more than a round past the start of a run at 8716.
const FAR: u64 = 8192 + 512 * 1_100;

/// A tail block holds a block that fits more than a round past the start of the run. Opening takes it away: when the log has
/// come there by full blocks, and so has its checkpoint, nothing is read.
#[test]
fn a_tail_block_of_a_later_round_is_cleared(rt: HostRuntime) -> Result<(), Fail> {
    let mut store = group_store(rt.alloc(), Format::Two)?;
    store.put_tail(5, FAR, &GROUP, true);
    let mut left = opened_once(rt.alloc(), &store)?;
    left.put_ckpt(&FOUR, 3, FAR);
    see(&rt, &left, "(0, 0, None, 571404)")
}

/// Whether opening refuses the store with this fault, and leaves both devices as they were.
fn is_refused(alloc: Global, store: &Store, want: RecFault) -> Result<bool, Fail> {
    let (log, data) = store.devices(alloc)?;
    let (mut log, mut data, fault) = open_to_end(alloc, log, data);
    let left = Store::of(alloc, &mut log, &mut data)?;
    Ok(fault == Some(want) && left.log == store.log && left.data == store.data)
}

/// A page that is lost, one above the log's end, a record of an unknown type, and a log of another format.
#[test]
fn a_refused_store_stays_as_it_was(rt: HostRuntime) -> Result<(), Fail> {
    let alloc = rt.alloc();
    let mut store = formatted(alloc)?;
    store.put_page_byte(9, 0, 1);
    assert!(rt; is_refused(alloc, &store, RecFault::PageLost(1))?);
    store.put_page(1, 1, 9000, 3);
    store.put_page(6, 1, 8500, 3);
    assert!(rt; is_refused(alloc, &store, RecFault::PageAhead(1, 9000))?);
    store.put_block(&SHAPE, 1, 8192, &[9, 1, 1, 0, 100, 7], true);
    assert!(rt; is_refused(alloc, &store, RecFault::BadRecord(8204))?);
    store.put_sealed(0, &[1]);
    assert!(rt; is_refused(alloc, &store, RecFault::BadFormat(0x0100_0002))?);
    Ok(())
}

/// A store of an earlier format whose data device is shorter than 132 pages, which a run on it asks for, is read, and opening
/// refuses it. Its two header blocks aren't alike, and stay so.
#[test]
fn a_store_without_room_for_a_run_is_refused(rt: HostRuntime) -> Result<(), Fail> {
    let alloc = rt.alloc();
    for (format, length) in [
        (Format::One, 49_152),
        (Format::One, 540_160),
        (Format::Two, 49_152),
        (Format::Two, 540_160),
    ] {
        let mut store = group_store(alloc, format)?;
        store.put_log_byte(1_044, 9);
        store.data.truncate(length);
        store.data_length = length as u64;
        see(&rt, &store, "4 [3 8210 7;]")?;
        assert!(rt; is_refused(alloc, &store, RecFault::SmallData(540_672))?);
    }
    Ok(())
}
