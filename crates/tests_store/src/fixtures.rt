// Small stores: one that was just formatted, and one that its last run left in the middle; and how they are read and opened.
ghost use Rattle.std.specs.Prelude.{◌≤◌};

use crate::store::Store;
use model_base::Shape;
use redo_apply::Pages;
use redo_disk::Sectors;
use redo_header::Format;
use redo_memdisk::MemDisk;
use redo_open::{format, open_store};
use redo_recover::{RecFault, Recovered, recover};
use redo_store::Opened;
use std::alloc::{AllocError, Global};
use std::process::Abort;
use std::test::Fail;

/// The smallest log, and three pages.
pub const SHAPE: Shape = Shape {
    page_size: 4096,
    pages: 3,
    space: 1,
    log_blocks: 1024,
    slots: 8,
};
/// Bytes of the log device.
pub const LOG: usize = 526_336;
/// Bytes of the data device: there is room for a run, which has 128 slots.
pub const DATA: usize = 4096 * 131;
/// How a group begins that puts 489 bytes at offset 38 of page 1; it has 496 bytes.
pub const WHOLE: [u8; 7] = [0x9E, 1, 1, 0, 38, 1, 0xE9];
/// A group of 6 bytes: the byte 7 goes to offset 100 of page 0.
const ONE_BYTE: [u8; 6] = [0x81, 1, 0, 0, 100, 7];
/// How a group begins that puts 2,000 bytes at offset 38 of page 1.
pub const LONG: [u8; 7] = [0x9E, 1, 1, 0, 38, 7, 0xD0];

/// What is read off two devices.
pub fn read(alloc: Global, log: &mut MemDisk, data: &mut MemDisk) -> Result<Recovered, RecFault> {
    recover(alloc, log, data)
}

/// Each page with an lsn above 0: its number, its lsn, and its byte at offset 100.
fn pages_of(alloc: Global, pages: &Pages) -> Result<String, AllocError> {
    let mut text = String::new(alloc);
    for page in 0..pages.len().min(64) as u32 {
        let lsn = pages.lsn(page);
        if lsn > 0 {
            let byte = pages.user_bytes(page).get(62).copied().unwrap_or(0);
            text.push_str(&format!(in alloc; "{page} {lsn} {byte};")?)?;
        }
    }
    Ok(text)
}

/// How many groups were read, up to which lsn, the lsn of page 5, where no further block was read and why, and the tail block in
/// which the last one was found.
fn row_of(alloc: Global, read: &Recovered) -> Result<String, AllocError> {
    let lsn = if read.pages.len() == 8 {
        read.pages.lsn(5)
    } else {
        0
    };
    let (count, end, stop) = (read.groups.len(), read.end, read.stop);
    let tail = match read.tail {
        Some(tail) => Some(tail.which),
        None => None,
    };
    format!(in alloc; "{count} {end} {lsn} {stop:?} {tail:?}")
}

/// The format, the sizes, the number of the checkpoint and its lsn; how many blocks and how many groups were read, where the first
/// group starts, and where the log ends; and how many pages there are.
fn log_of(alloc: Global, read: &Recovered) -> Result<String, AllocError> {
    let shape = &read.shape;
    let sizes = [
        shape.page_size,
        shape.pages,
        shape.space,
        shape.log_blocks,
        shape.slots,
    ];
    let first = match read.groups.first() {
        Some(first) => Some(first.start),
        None => None,
    };
    let head = (read.format, sizes, read.number, read.ckpt);
    let log = (read.views.len(), read.groups.len(), first, read.end);
    format!(in alloc; "{head:?} {log:?} {}", read.pages.len())
}

/// What was read of a store, in two lines.
pub fn told_of(alloc: Global, read: &Recovered) -> Result<String, AllocError> {
    let row = row_of(alloc, read)?;
    let log = log_of(alloc, read)?;
    let pages = pages_of(alloc, &read.pages)?;
    format!(in alloc; "{row}\n{log} [{pages}]")
}

/// What is read off two devices, in two lines; or the fault.
pub fn told_on(alloc: Global, log: &mut MemDisk, data: &mut MemDisk) -> Result<String, AllocError> {
    match read(alloc, log, data) {
        Ok(read) => told_of(alloc, &read),
        Err(fault) => format!(in alloc; "{fault:?}"),
    }
}

/// The same of a store.
pub fn told(alloc: Global, store: &Store) -> Result<String, Fail> {
    let (mut log, mut data) = store.devices(alloc)?;
    Ok(told_on(alloc, &mut log, &mut data)?)
}

/// Sees that this is told of a store.
pub fn see(rt: &(impl Abort + AllocGlobal), store: &Store, want: &str) -> Result<(), Fail> {
    let told = told(rt.alloc(), store)?;
    assert!(rt; told.contains(want), "{told}");
    Ok(())
}

/// What opening leaves: both devices, and the fault that it ended with.
pub fn open_to_end<L: Sectors + Drop, D: Sectors + Drop>(
    alloc: Global,
    log: L,
    data: D,
) -> (L, D, Option<RecFault>) {
    match open_store(alloc, log, data) {
        Ok(opened) => {
            let Opened { log, store, .. } = opened;
            (log.into_dev(), store.into_dev(), None)
        }
        Err((fault, log, data)) => (log, data, Some(fault)),
    }
}

/// Formats a store of three pages.
pub fn format_on<L: Sectors, D: Sectors>(log: &mut L, data: &mut D) -> Result<(), RecFault> {
    format(log, data, &SHAPE)
}

/// A store that was just formatted, over devices on which other bytes stood.
pub fn formatted(alloc: Global) -> Result<Store, Fail> {
    let (mut log, mut data) = Store::filled(alloc, 0xA5, LOG, DATA)?.devices(alloc)?;
    format_on(&mut log, &mut data)?;
    log.crash(0);
    data.crash(0);
    Ok(Store::of(alloc, &mut log, &mut data)?)
}

/// What is told of it.
pub const BLANK: &str = "(Two, [4096, 3, 1, 1024, 8], 0, 8192) (0, 0, None, 8204) 3 []";

/// The data of a full block that begins like this.
pub fn full(front: &[u8], rest: u8) -> [u8; 496] {
    let mut bytes = [rest; 496];
    let count = front.len().min(496);
    bytes[..count].copy_from_slice(&front[..count]);
    bytes
}

/// The lsn of the last block of the log's first round.
pub fn last_block(format: Format) -> u64
    ensures started { 8192 ≤ result }
    ensures small { result ≤ 600000 }
{
    match format {
        Format::One => 531_968,
        _ => 530_944,
    }
}

/// A log that goes round after its checkpoint: a group in the checkpoint's block; one of 6 bytes in the next, and after
/// it the front of a long one, which goes on over two more blocks and isn't whole; and an old block after those.
fn put_log(store: &mut Store) {
    let last = last_block(store.format);
    store.put_head(&SHAPE);
    store.put_ckpt(&SHAPE, 0, 8192);
    store.put_ckpt(&SHAPE, 1, last);
    store.put_block(&SHAPE, 1, last, &full(&WHOLE, 5), true);
    let mut second = full(&ONE_BYTE, 6);
    second[6..13].copy_from_slice(&LONG);
    store.put_block(&SHAPE, 1, last + 512, &second, true);
    store.put_block(&SHAPE, 1, last + 1024, &[6; 496], false);
    store.put_block(&SHAPE, 1, last + 1536, &[6; 100], false);
    store.put_block(&SHAPE, 1, last + 2048, &full(&WHOLE, 9), true);
}

/// Writes sound pages where a run has slots and places and a store of an earlier format with so many pages has none: the last
/// page in the first and the last of those slots, and each page in its place, all above the end of the log.
fn put_others(store: &mut Store, pages: u8) {
    let pages = u16::from(pages);
    let last = u32::from(pages).saturating_sub(1);
    store.put_page(8 + pages, last, 600_000, 9);
    store.put_page(127, last, 600_000, 9);
    for page in 0..pages {
        store.put_page(128 + page, u32::from(page), 600_000, 9);
    }
}

/// A store that its last run left in the middle. The place of page 0 is torn, and two copies of it stand in slots; the
/// place of page 1 has none of the log's groups; page 2 is in its place.
pub fn torn_store(alloc: Global, format: Format) -> Result<Store, Fail> {
    let mut store = Store::filled(alloc, 0, LOG, DATA)?;
    store.format = format;
    let last = last_block(format);
    put_log(&mut store);
    store.put_page(3, 0, last + 524, 3);
    store.put_page(5, 0, last + 12, 2);
    store.put_page(0, 1, 8600, 4);
    store.put_page(8, 0, last + 524, 3);
    store.put_page_byte(8, 2048, 1);
    store.put_page(9, 1, 9000, 4);
    store.put_page(10, 2, 9000, 8);
    put_others(&mut store, 3);
    Ok(store)
}

/// What is told of its pages: the group of one byte is applied to the copy of page 0, the whole one to page 1.
pub fn torn_pages(format: Format) -> &'static str {
    match format {
        Format::One => "3 [0 532498 7;1 532492 5;2 9000 8;]",
        _ => "3 [0 531474 7;1 531468 5;2 9000 8;]",
    }
}

/// The smallest log, and four pages.
pub const FOUR: Shape = Shape {
    page_size: 4096,
    pages: 4,
    space: 1,
    log_blocks: 1024,
    slots: 8,
};
/// A group of 6 bytes: the byte 7 goes to offset 100 of page 3.
pub const GROUP: [u8; 6] = [0x81, 1, 3, 0, 100, 7];

/// Two devices of zeros for a store of four pages of this format.
pub fn zeros(alloc: Global, format: Format) -> Result<Store, AllocError> {
    let mut store = Store::filled(alloc, 0, LOG, DATA + 4096)?;
    store.format = format;
    Ok(store)
}

/// Writes both checkpoints of a store of four pages, and the block of a log of one group.
pub fn put_group(store: &mut Store) {
    store.put_ckpt(&FOUR, 0, 8192);
    store.put_ckpt(&FOUR, 1, 8192);
    store.put_block(&FOUR, 1, 8192, &GROUP, true);
}

/// A store of four pages that its last run left with one group on the log.
pub fn group_store(alloc: Global, format: Format) -> Result<Store, AllocError> {
    let mut store = zeros(alloc, format)?;
    store.put_head(&FOUR);
    put_group(&mut store);
    put_others(&mut store, 4);
    Ok(store)
}
