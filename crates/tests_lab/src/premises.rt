// The premises of the crash theorem: one call where each holds, and what comes where one of them doesn't.
ghost use Rattle.std.specs.Prelude.{◌≡◌, ◌%◌};
ghost use Rattle.model_base.specs.declared.limits.TheConstants.{BLOCK_SIZE};

use crate::calls::log_calls;
use crate::devices::{Devices, FIRST_TAIL, SECOND_HEAD, first_slot};
use crate::invalid_disk::InvalidDisk;
use crate::silent_disk::{Harm, SilentDisk};
use crate::tables::{left_by, left_of, play, play_after_opening, play_with};
use crate::worn_disk::WornDisk;
use redo_lab::{LOG_LENGTH, STORE_LENGTH};
use redo_memdisk::MemDisk;
use redo_page::check;
use std::alloc::{AllocError, Global};
use std::process::Abort;
use std::sync::Wait;
use std::test::Fail;
use std::thread::Threads;

/// All premises hold: on new devices, on a store in use, and there also where the log device stops. The first run ends at 8210
/// and the second at 8722, so the next ones start in the blocks after those, at 8704 + 12 and 9216 + 12. The third opening makes 28
/// calls of the log device: four reads and a sync; a write of zeros over the tail block that has no block of the log, and a sync; 16 writes of
/// zeros up to the ring's end, one at its front, and one over the place of the block that the other tail block has, and a sync; and
/// the checkpoint with its sync. After those the block is written, and its sync is stopped.
#[test]
fn a_store_in_order_is_crashed(rt: HostRuntime) -> Result<(), Fail> {
    play(
        &rt,
        "
new  | crash               | 1 f b1 3 100 7 | 0 | open 8204 / g 8204 8210 1 0 flushed / marks 8210 8210 8210 8192 / recovered 1 8210 / p 3 8210 (00*62)07
same | crash               | 2 f b1 3 101 8 | 0 | open 8716 / g 8716 8722 2 0 flushed / marks 8722 8722 8722 8704 / recovered 1 8722 / p 3 8722 (00*62)0708
same | crash --stop-log 29 | 3 f b1 3 102 9 | 0 | open 9228 / g 9228 9234 3 0 lost / marks 9234 9234 9228 9216 / recovered 0 9228 / p 3 8722 (00*62)0708
",
    )
}

/// Five bytes that a CRC-32C doesn't see: its polynomial, bit by bit. A page with them has the checksum of the page with zeros
/// in their place. After them stand lines of another page, after which the cleaner writes both pages.
const UNSEEN: &str = "1 f s 3 2000 f176ec0501 / [1 f b1 4 100 7 / *500]";

/// Opening makes 10 calls of the data device, and a batch the write of its slots, a sync, and then the write of page 3 to its
/// place, which fails. Where the pick keeps the first and the last of its eight sectors, and so not the fourth, which has the
/// five bytes, the place passes its check though it is torn: the image isn't fair, and the page has lost what was flushed.
/// Kept whole, or not at all, it has the bytes.
#[test]
fn a_torn_page_that_passes_loses_its_bytes(rt: HostRuntime) -> Result<(), Fail> {
    play_with(
        &rt,
        UNSEEN,
        "
new | crash --stop-data 12 --pick 129 | @ | 0 | .. / g 8204 8216 1 0 flushed / .. / p 3 8216 - / ..
new | crash --stop-data 12 --pick 0   | @ | 0 | .. / g 8204 8216 1 0 flushed / .. / p 3 8216 (00*1962)f176ec0501 / ..
new | crash --stop-data 12 --pick 255 | @ | 0 | .. / g 8204 8216 1 0 flushed / .. / p 3 8216 (00*1962)f176ec0501 / ..
",
    )
}

/// What the first slot is, and where the five bytes are in it, after the same with this pick, where page 3 is read whole.
fn slot_left(
    rt: &(impl Abort + AllocGlobal + Threads + Wait + Sync),
    pick: &str,
) -> Result<String, Fail> {
    let crash = "new | crash --stop-data 10 --pick @ | ";
    let read = " | 0 | .. / g 8204 8216 1 0 flushed / .. / p 3 8216 (00*1962)f176ec0501 / ..";
    let mut table = crash.replace(rt.alloc(), "@", pick)?;
    table.push_str(UNSEEN)?;
    table.push_str(read)?;
    let mut devices = left_by(rt, &table)?;
    let slot = first_slot(&mut devices.store)?;
    Ok(format!(in rt.alloc(); "{:?} {:?}", check(&slot), &slot[2000..2005])?)
}

/// What is left in slot 0 with each pick.
const SLOTS: &str = "
129 | Sound(3, 1, 8216) [0, 0, 0, 0, 0]
0   | Blank [0, 0, 0, 0, 0]
1   | Broken [0, 0, 0, 0, 0]
255 | Sound(3, 1, 8216) [241, 118, 236, 5, 1]
";

/// The same batch, of which the write of the slots fails; page 3 is its first page, so slot 0 is its. Where the pick keeps the
/// slot's first and last sectors, and so not the fourth, the slot passes its check though it is torn: the image isn't fair, since
/// slots count in that too. But page 3's place is still blank and passes too, so the page is read from there and the log. The
/// slot's copy then has the page's lsn and other bytes, so the store that is left isn't in order. The first sector alone doesn't
/// pass, since the low half of the lsn stands in the last one.
#[test]
fn a_torn_slot_that_passes_loses_nothing(rt: HostRuntime) -> Result<(), Fail> {
    for row in SLOTS.trim().lines() {
        let (pick, wanted) = row.split_once('|').unwrap_or((row, ""));
        let left = slot_left(&rt, pick.trim())?;
        assert!(rt; left.as_str() == wanted.trim(), "{left} at {row}");
    }
    Ok(())
}

/// A device that is handed in with a write that isn't synced has two images. Formatting syncs both devices, so the call does what it
/// does on devices that have one.
#[test]
fn a_pending_write_at_entry_is_synced(rt: HostRuntime) -> Result<(), Fail> {
    play(
        &rt,
        "log pending | crash | 1 f b1 3 100 7 | 0 | open 8204 / g 8204 8210 1 0 flushed / marks 8210 8210 8210 8192 / recovered 1 8210 / p 3 8210 (00*62)07",
    )?;
    play(
        &rt,
        "data pending | crash | 1 f b1 3 100 7 | 0 | open 8204 / g 8204 8210 1 0 flushed / marks 8210 8210 8210 8192 / recovered 1 8210 / p 3 8210 (00*62)07",
    )
}

/// At entry a write isn't synced: the first one of page 5, or one of zeros over the block of the log's only group, which no page
/// has. Opening reads the devices as if it were. Where opening is stopped at its first call, a crash keeps the write or not, by its
/// pick, so other pages may be left than were opened; where half of a page is kept, it is lost. An opening that comes to its end
/// has synced both devices.
#[test]
fn a_pending_write_of_a_store_in_use(rt: HostRuntime) -> Result<(), Fail> {
    play(
        &rt,
        "
new           | run --log-only                 | 1 f b1 3 100 7 | 0 | open 8204 / g 8204 8210 1 0 flushed / marks 8210 8210 8210 8192
page pending  | crash --stop-data 0            | 2 f b1 4 100 8 | 0 | open none / left 2 1 / recovered 0 8210 / p 3 8210 (00*62)07
page pending  | crash --stop-data 0 --pick 255 | 2 f b1 4 100 8 | 0 | open none / left 2 1 / recovered 0 8210 / p 3 8210 (00*62)07 / p 5 8204 -
block pending | crash --stop-log 0             | 2 f b1 4 100 8 | 0 | open none / left 2 1 / recovered 0 8210 / p 3 8210 (00*62)07 / p 5 8204 -
block pending | crash --stop-log 0 --pick 1    | 2 f b1 4 100 8 | 0 | open none / left 2 1 / recovered 0 8204 / p 5 8204 -
new           | run --log-only                 | 1 f b1 3 100 7 | 0 | open 8204 / g 8204 8210 1 0 flushed / marks 8210 8210 8210 8192
page pending  | crash --stop-data 0 --pick 15  | 2 f b1 4 100 8 | 8 | fault store lost 5
new           | run --log-only                 | 1 f b1 3 100 7 | 0 | open 8204 / g 8204 8210 1 0 flushed / marks 8210 8210 8210 8192
block pending | crash                          | 2 f b1 4 100 8 | 0 | open 8204 / g 8204 8210 2 0 flushed / marks 8210 8210 8210 8192 / recovered 1 8210 / p 4 8210 (00*62)08
page pending  | crash                          | 2 f b1 4 101 9 | 0 | open 8716 / g 8716 8722 2 0 flushed / marks 8722 8722 8722 8704 / recovered 1 8722 / p 4 8722 (00*62)0809 / p 5 8204 -
",
    )
}

/// The row of `crash` on new devices with the one line.
const CRASH: &str =
    "crash | 1 f b1 3 100 7 | 0 | open 8204 / g 8204 8210 1 0 flushed / marks 8210 8210 8210 8192 / recovered 1 8210 / p 3 8210 (00*62)07";

/// New devices that tell nothing, of which a sector may come to harm in a crash.
fn silent_devices(
    alloc: Global,
    log: Option<Harm>,
    store: Option<Harm>,
) -> Result<Devices<SilentDisk, SilentDisk>, AllocError> {
    let log = SilentDisk::new(alloc, LOG_LENGTH, log)?;
    let store = SilentDisk::new(alloc, STORE_LENGTH, store)?;
    Devices::of(alloc, log, store)
}

/// Plays a table on such devices, of which this sector of the log device comes to harm in a crash.
fn play_harming_log(
    rt: &(impl Abort + AllocGlobal + Threads + Wait + Sync),
    harm: Option<Harm>,
    table: &str,
) -> Result<(), Fail> {
    let devices = silent_devices(rt.alloc(), harm, None)?;
    left_of(rt, devices, table)?;
    Ok(())
}

/// The same with a sector of the data device.
fn play_harming_data(
    rt: &(impl Abort + AllocGlobal + Threads + Wait + Sync),
    harm: Harm,
    table: &str,
) -> Result<(), Fail> {
    let devices = silent_devices(rt.alloc(), None, Some(harm))?;
    left_of(rt, devices, table)?;
    Ok(())
}

/// Two lines whose groups stand in one log block. The first is flushed, in one tail block. The second is written to the other one,
/// which held zeros, and its sync is stopped. A crash with pick 0 leaves the first 100 bytes of that write, up to within a string.
/// The string begins with four bytes by which the checksum of those 100 bytes, with zeros after them, is zero. So the torn block
/// passes, though the tail block never held it whole: the image isn't fair. Then the second group is read with other bytes than any
/// group had, or, where a record follows the string, none is read and the store is refused, though the first line was flushed. With
/// other bytes, or where the write is kept, all is well.
#[test]
fn a_torn_block_that_passes_loses_a_group(rt: HostRuntime) -> Result<(), Fail> {
    play_after_opening(
        &rt,
        3,
        "
tearing | crash --stop-log @          | 1 f b1 3 100 7 / 1 f s 4 38 7c361e68(08*76)              | 0 | open 8204 / g 8204 8210 1 0 flushed / g 8210 8297 1 1 lost / marks 8297 8297 8210 8192 / recovered 2 8297 / p 3 8210 (00*62)07 / p 4 8297 7c361e68(08*71)
tearing | crash --stop-log @ --pick 1 | 1 f b1 3 100 7 / 1 f s 4 38 7c361e68(08*76)              | 0 | open 8204 / g 8204 8210 1 0 flushed / g 8210 8297 1 1 lost / marks 8297 8297 8210 8192 / recovered 2 8297 / p 3 8210 (00*62)07 / p 4 8297 7c361e68(08*76)
tearing | crash --stop-log @          | 1 f b1 3 100 7 / 1 f s 4 38 7c361e69(08*76)              | 0 | open 8204 / g 8204 8210 1 0 flushed / g 8210 8297 1 1 lost / marks 8297 8297 8210 8192 / recovered 1 8210 / p 3 8210 (00*62)07
tearing | crash --stop-log @          | 1 f b1 3 100 7 / 1 f s 4 38 a6bb207a(08*71);b1 5 100 9 / | 8 | fault store record 8210
tearing | crash --stop-log @ --pick 1 | 1 f b1 3 100 7 / 1 f s 4 38 a6bb207a(08*71);b1 5 100 9 / | 0 | open 8204 / g 8204 8210 1 0 flushed / g 8210 8299 1 1 lost / marks 8299 8299 8210 8192 / recovered 2 8299 / p 3 8210 (00*62)07 / p 4 8299 a6bb207a(08*71) / p 5 8299 (00*62)09
",
    )
}

/// Opening writes page 3 of a store whose log alone has it: after 10 calls of the data device come the write of slot 0, its
/// sync, and the write of the place, which stands after 128 slots and three places. Where the write of the slot is the last,
/// the place has nothing yet, and the log has it all; where that of the place is, the copy in the slot counts. So a page isn't
/// lost by a sector that is torn, unless it passes its check then.
#[test]
fn a_torn_data_sector_is_noticed(rt: HostRuntime) -> Result<(), Fail> {
    play_harming_data(
        &rt,
        Harm::Torn(0),
        "
run --log-only       | 1 f b1 3 100 7 | 0 | open 8204 / g 8204 8210 1 0 flushed / marks 8210 8210 8210 8192
crash --stop-data 10 | 2 f b1 4 100 8 | 0 | open none / left 2 1 / recovered 0 8210 / p 3 8210 (00*62)07
",
    )?;
    play_harming_data(
        &rt,
        Harm::Torn(131 * 4096),
        "
run --log-only       | 1 f b1 3 100 7 | 0 | open 8204 / g 8204 8210 1 0 flushed / marks 8210 8210 8210 8192
crash --stop-data 12 | 2 f b1 4 100 8 | 0 | open none / left 2 1 / recovered 0 8210 / p 3 8210 (00*62)07
",
    )
}

/// After a run and before the crash somebody else writes zeros on the log device: over one of the two headers, over the newest
/// checkpoint, or over the last block. Opening the store a second time writes the checkpoint of number 2 to its place, page 3 too,
/// and the run starts in the second log block. The other header is read. Without the checkpoint the log is read from the first block
/// on, whose tail block the second run has written over, so that page 3 is ahead of it; without the last block the log ends where
/// the second run started.
#[test]
fn another_writer_is_not_seen(rt: HostRuntime) -> Result<(), Fail> {
    let sound = "
run   | 1 f b1 3 100 7 | 0 | open 8204 / g 8204 8210 1 0 flushed / marks 8210 8210 8210 8192
crash | 2 f b1 3 101 8 | 0 | open 8716 / g 8716 8722 2 0 flushed / marks 8722 8722 8722 8704 / recovered 1 8722 / p 3 8722 (00*62)0708
";
    play_harming_log(&rt, Some(Harm::Zeroed(0)), sound)?;
    play_harming_log(&rt, Some(Harm::Zeroed(SECOND_HEAD)), sound)?;
    play_harming_log(
        &rt,
        Some(Harm::Zeroed(512)),
        "
run   | 1 f b1 3 100 7 | 0 | open 8204 / g 8204 8210 1 0 flushed / marks 8210 8210 8210 8192
crash | 2 f b1 3 101 8 | 8 | fault store ahead 3 8210
",
    )?;
    play_harming_log(
        &rt,
        Some(Harm::Zeroed(FIRST_TAIL)),
        "
run   | 1 f b1 3 100 7 | 0 | open 8204 / g 8204 8210 1 0 flushed / marks 8210 8210 8210 8192
crash | 2 f b1 3 101 8 | 0 | open 8716 / g 8716 8722 2 0 flushed / marks 8722 8722 8722 8704 / recovered 0 8716 / p 3 8210 (00*62)07
",
    )
}

/// The same on the data device, over the first sector of page 3's place, which stands after 128 slots and three places. It
/// doesn't pass its check then, since its last sector isn't zero, and the page is read from its copy and the log. But once slot 0
/// has had page 4, and the checkpoint stands past the group of page 3, that page is lost.
#[test]
fn another_writer_of_the_data_device_is_not_seen(rt: HostRuntime) -> Result<(), Fail> {
    play_harming_data(
        &rt,
        Harm::Zeroed(131 * 4096),
        "
run   | 1 f b1 3 100 7 | 0 | open 8204 / g 8204 8210 1 0 flushed / marks 8210 8210 8210 8192
crash | 2 f b1 3 101 8 | 0 | open 8716 / g 8716 8722 2 0 flushed / marks 8722 8722 8722 8704 / recovered 1 8722 / p 3 8722 (00*62)0708
",
    )?;
    play_harming_data(
        &rt,
        Harm::Zeroed(131 * 4096),
        "
run   | 1 f b1 3 100 7 | 0 | open 8204 / g 8204 8210 1 0 flushed / marks 8210 8210 8210 8192
run   | 2 f b1 4 100 8 | 0 | open 8716 / g 8716 8722 2 0 flushed / marks 8722 8722 8722 8704
crash | 3 f b1 5 100 9 | 8 | fault store lost 3
",
    )
}

/// New devices of these lengths that tell what they hold.
fn invalid_devices(
    alloc: Global,
    log: u64,
    store: u64,
) -> Result<Devices<InvalidDisk, InvalidDisk>, AllocError> {
    let log = InvalidDisk::new(alloc, log)?;
    let store = InvalidDisk::new(alloc, store)?;
    Devices::of(alloc, log, store)
}

/// New devices that tell what they hold, which end within a sector, or which tell of a write of fewer bytes than a sector. They have
/// one image all the same, and `crash` does what it does on valid ones.
#[test]
fn parts_of_sectors_change_nothing(rt: HostRuntime) -> Result<(), Fail> {
    let devices = invalid_devices(rt.alloc(), LOG_LENGTH + 100, STORE_LENGTH + 100)?;
    left_of(&rt, devices, CRASH)?;
    let mut devices = invalid_devices(rt.alloc(), LOG_LENGTH, STORE_LENGTH)?;
    devices.log.add_part_write()?;
    devices.store.add_part_write()?;
    left_of(&rt, devices, CRASH)?;
    Ok(())
}

/// Plays a row on devices that a run has left, of which the log device tells that its first tail block held zeros at the last sync.
fn play_forgetting(
    rt: &(impl Abort + AllocGlobal + Threads + Wait + Sync),
    row: &str,
) -> Result<(), Fail> {
    let devices = invalid_devices(rt.alloc(), LOG_LENGTH, STORE_LENGTH)?;
    let run =
        "run --log-only | 1 f b1 3 100 7 | 0 | open 8204 / g 8204 8210 1 0 flushed / marks 8210 8210 8210 8192";
    let mut devices = left_of(rt, devices, run)?;
    devices.log.forget(FIRST_TAIL);
    left_of(rt, devices, row)?;
    Ok(())
}

/// What comes of it, by the call.
const FORGOTTEN: &str = "
crash --stop-log 4 | 2 f b1 4 100 8 | 0 | open none / left 2 1 / recovered 0 8204
crash --stop-log 5 | 2 f b1 4 100 8 | 0 | open none / left 2 1 / recovered 0 8210 / p 3 8210 (00*62)07
crash              | 2 f b1 4 100 8 | 0 | open 8716 / g 8716 8722 2 0 flushed / marks 8722 8722 8722 8704 / recovered 1 8722 / p 3 8210 (00*62)07 / p 4 8722 (00*62)08
";

/// The tail block of the log's only group, which no page has, reads as it was written, but at the last sync it was zeros, and no
/// write since is told: what reads give is no image. Opening reads the group by four reads of the log device, and syncs that. Where
/// the sync is stopped the crash leaves the zeros, and what was flushed is lost. After the sync the group is there.
#[test]
fn reads_that_are_no_image_are_lost(rt: HostRuntime) -> Result<(), Fail> {
    for row in FORGOTTEN.trim().lines() {
        play_forgetting(&rt, row)?;
    }
    Ok(())
}

/// A call prints the same whether both devices tell what they hold, one of the two does, or neither.
#[test]
fn devices_that_tell_nothing_serve_as_well(rt: HostRuntime) -> Result<(), Fail> {
    play_harming_log(&rt, None, CRASH)?;
    let log = MemDisk::new(rt.alloc(), LOG_LENGTH)?;
    let store = SilentDisk::new(rt.alloc(), STORE_LENGTH, None)?;
    left_of(&rt, Devices::of(rt.alloc(), log, store)?, CRASH)?;
    let log = SilentDisk::new(rt.alloc(), LOG_LENGTH, None)?;
    let store = MemDisk::new(rt.alloc(), STORE_LENGTH)?;
    left_of(&rt, Devices::of(rt.alloc(), log, store)?, CRASH)?;
    Ok(())
}

/// A device in memory of so many zeros that fails this call, and whose count of faults can't rise.
fn worn(alloc: Global, length: u64, call: u64) -> Result<WornDisk, AllocError>
    requires { length % BLOCK_SIZE ≡ 0 }
{
    Ok(WornDisk {
        inner: MemDisk::failing(alloc, length, vec![in alloc; call]?)?,
    })
}

/// The first sync after opening fails, on a log device whose count of faults can't rise. The line is lost, as on one whose
/// count does. On such a data device the first call of formatting fails.
#[test]
fn a_count_at_its_end(rt: HostRuntime) -> Result<(), Fail> {
    let (early, opening) = log_calls(&rt, "run")?;
    let failing = early.saturating_add(opening).saturating_add(1);
    let log = worn(rt.alloc(), LOG_LENGTH, failing)?;
    let store = MemDisk::new(rt.alloc(), STORE_LENGTH)?;
    left_of(
        &rt,
        Devices::of(rt.alloc(), log, store)?,
        "crash | 1 f b1 3 100 7 / 1 f b1 3 100 8 / | 0 | open 8204 / g 8204 8210 1 0 lost / left 1 1 / marks 8210 8210 8204 8192 / recovered 0 8204",
    )?;
    let log = MemDisk::new(rt.alloc(), LOG_LENGTH)?;
    let store = worn(rt.alloc(), STORE_LENGTH, 0)?;
    left_of(
        &rt,
        Devices::of(rt.alloc(), log, store)?,
        "crash | 1 f b1 3 100 7 / 1 f b1 3 100 8 / | 7 | fault data device",
    )?;
    Ok(())
}
