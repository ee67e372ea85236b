// The devices that calls are made on.
ghost use Rattle.std.specs.Prelude.{◌≡◌, ◌≤◌, ◌<◌, ◌^◌, ◌%◌};
ghost use Rattle.model_base.specs.declared.limits.TheConstants.{BLOCK_SIZE, START_LSN};

use model_base::{EARLY_SLOTS, LSN_LIMIT, Shape};
use model_log::Format;
use redo_block::fill;
use redo_crc::sector;
use redo_disk::{DevError, Sectors};
use redo_header::{fill_ckpt, fill_head};
use redo_lab::{LOG_LENGTH, STORE_LENGTH};
use redo_lsn::layout_of;
use redo_memdisk::MemDisk;
use redo_page::seal;
use std::alloc::{AllocError, Global};
use std::test::Fail;

/// Where the second header block stands, and the first tail block, which a run writes first.
pub(crate) const SECOND_HEAD: u64 = 1024;

pub(crate) const FIRST_TAIL: u64 = 2048;

/// Where the block at lsn 8192 stands, and the one after it.
pub(crate) const FIRST_BLOCK: u64 = 3072;

pub(crate) const SECOND_BLOCK: u64 = 3584;

/// How many log blocks a round of the default log has.
const ROUND: u64 = 2046;

/// Where the block at the last lsn stands: it is the one of number 2031 in its round, since 2^51 - 17 blocks come before it.
const LAST_BLOCK: u64 = 1_042_944;

/// Bytes of a page, and of a slot.
const PAGE: u64 = 4096;

/// Where the place of page 5 stands: after 128 slots and five places.
const PLACE: u64 = 133 * PAGE;

/// Bytes of a data device on which a store of eight pages of 16,384 bytes has room.
const LARGE_STORE: u64 = 2_228_224;

/// Bytes of the archive's device.
const ARCHIVE: u64 = 65_536;

/// A log device and a data device, and the archive's.
#[derive(Drop)]
pub(crate) struct Devices<L, D> {
    pub(crate) log: L,
    pub(crate) store: D,
    pub(crate) arch: MemDisk,
}

impl<L: Drop, D: Drop> Devices<L, D> {
    /// Such devices, with an archive's that holds zeros.
    pub(crate) fn of(alloc: Global, log: L, store: D) -> Result<Self, AllocError> {
        Ok(Devices {
            log,
            store,
            arch: MemDisk::new(alloc, ARCHIVE)?,
        })
    }
}

/// Such devices in memory.
pub(crate) type MemDevices = Devices<MemDisk, MemDisk>;

/// Devices of the default sizes, which hold zeros.
pub(crate) fn blank(alloc: Global) -> Result<MemDevices, AllocError> {
    let log = MemDisk::new(alloc, LOG_LENGTH)?;
    let store = MemDisk::new(alloc, STORE_LENGTH)?;
    Devices::of(alloc, log, store)
}

/// Devices that hold zeros, of which the data device has room for large pages.
fn with_large_store(alloc: Global) -> Result<MemDevices, AllocError> {
    let log = MemDisk::new(alloc, LOG_LENGTH)?;
    let store = MemDisk::new(alloc, LARGE_STORE)?;
    Devices::of(alloc, log, store)
}

/// How many bytes of a sector's write a crash leaves where that is torn.
pub(crate) const CUT: usize = 100;

/// Such devices, of which a crash tears the sectors that it loses.
fn tearing(alloc: Global) -> Result<MemDevices, AllocError> {
    let log = MemDisk::tearing(alloc, LOG_LENGTH, CUT)?;
    let store = MemDisk::tearing(alloc, STORE_LENGTH, CUT)?;
    Devices::of(alloc, log, store)
}

/// A device of so many zeros, which fails this call, and of which a crash tears the sectors that it loses.
fn failing(alloc: Global, length: u64, call: u64) -> Result<MemDisk, AllocError>
    requires { length % BLOCK_SIZE ≡ 0 }
{
    MemDisk::tearing_and_failing(alloc, length, CUT, vec![in alloc; call]?)
}

/// Writes these bytes on a device that has room for them, and doesn't sync them.
fn put_pending<D: Sectors>(device: &mut D, at: u64, bytes: &[u8]) -> Result<(), DevError> {
    let length = bytes.len() as u64;
    let size = device.len();
    if length % 512 != 0 || at % 512 != 0 || size < length || size - length < at {
        return Err(DevError::Failed);
    }
    device.write(at, bytes)
}

/// Writes these bytes on a device that has room for them.
fn put<D: Sectors>(device: &mut D, at: u64, bytes: &[u8]) -> Result<(), DevError> {
    put_pending(device, at, bytes)?;
    device.sync()
}

/// A block with a group of `1 f b1 3 100 7`, but of the length 513.
fn put_no_length(log: &mut MemDisk) -> Result<(), DevError> {
    let mut block = [0; 512];
    fill(&mut block, 8192, &[0x81, 1, 3, 0, 100, 7], 12, 1);
    // the length, in two bytes
    block[4] = 2;
    block[5] = 1;
    sector::seal(&mut block, 508);
    put(log, FIRST_BLOCK, &block)
}

/// A tail block whose record has the type 9.
fn put_no_type(log: &mut MemDisk) -> Result<(), DevError> {
    let mut block = [0; 512];
    fill(&mut block, 8192, &[9], 12, 0);
    put(log, FIRST_TAIL, &block)
}

/// A block with a group of `1 f b1 3 100 7`, which isn't full, in its place.
fn put_part(log: &mut MemDisk) -> Result<(), DevError> {
    let mut block = [0; 512];
    fill(&mut block, 8192, &[0x81, 1, 3, 0, 100, 7], 12, 1);
    put(log, FIRST_BLOCK, &block)
}

/// The checkpoint of this number by this format, whose place is that of the number's parity.
fn put_checkpoint_by(
    log: &mut MemDisk,
    format: Format,
    number: u64,
    lsn: u64,
) -> Result<(), DevError>
    requires started { START_LSN ≤ lsn }
    requires small { lsn < 2 ^ 61 }
{
    let mut checkpoint = [0; 512];
    let layout = layout_of(format, &Shape::default_shape());
    fill_ckpt(&mut checkpoint, number, lsn, &layout);
    let at = if number % 2 == 0 { 512 } else { 1536 };
    put(log, at, &checkpoint)
}

/// The same by format 2.
fn put_checkpoint(log: &mut MemDisk, number: u64, lsn: u64) -> Result<(), DevError>
    requires started { START_LSN ≤ lsn }
    requires small { lsn < 2 ^ 61 }
{
    put_checkpoint_by(log, Format::Two, number, lsn)
}

/// The header of an earlier format, of the default sizes but for its slots.
fn early_head(format: Format) -> [u8; 512] {
    let mut head = [0; 512];
    let shape = Shape {
        slots: EARLY_SLOTS,
        ..Shape::default_shape()
    };
    fill_head(&mut head, format, &shape);
    head
}

/// The log of a store of format 1 on which `1 f b1 3 100 7` was run: its header, its newest checkpoint, and its first block,
/// which stands where format 2 has a tail block.
fn put_first_format(log: &mut MemDisk) -> Result<(), DevError> {
    put(log, 0, &early_head(Format::One))?;
    put(log, SECOND_HEAD, &[0; 512])?;
    put_checkpoint_by(log, Format::One, 1, 8192)?;
    let mut block = [0; 512];
    fill(&mut block, 8192, &[0x81, 1, 3, 0, 100, 7], 12, 1);
    put(log, FIRST_TAIL, &block)
}

/// The log of a store of format 2: of one of format 3 on which the log alone was written, it has other headers.
fn put_second_format(log: &mut MemDisk) -> Result<(), DevError> {
    let head = early_head(Format::Two);
    put(log, 0, &head)?;
    put(log, SECOND_HEAD, &head)
}

/// A checkpoint at the second block, and that block with no group in it.
fn put_no_group(log: &mut MemDisk) -> Result<(), DevError> {
    put_checkpoint(log, 2, 8704)?;
    let mut block = [0; 512];
    fill(&mut block, 8704, &[7; 496], 0, 2);
    put(log, SECOND_BLOCK, &block)
}

/// A sound header of the format 9.
fn put_other_format(log: &mut MemDisk) -> Result<(), DevError> {
    let mut head = [0; 512];
    fill_head(&mut head, Format::Two, &Shape::default_shape());
    // the last of the format's four bytes
    head[3] = 9;
    sector::seal(&mut head, 508);
    put(log, 0, &head)
}

/// A checkpoint at the last block below the lsn limit, and that block, which is full and holds no group.
fn put_last_block(log: &mut MemDisk) -> Result<(), DevError> {
    put_checkpoint(log, 2, LSN_LIMIT - 512)?;
    let mut block = [0; 512];
    fill(&mut block, LSN_LIMIT - 512, &[7; 496], 0, 2);
    put(log, LAST_BLOCK, &block)
}

/// A log of full blocks that hold no group, from the checkpoint once round.
fn put_whole_round(log: &mut MemDisk) -> Result<(), DevError> {
    let mut block = [0; 512];
    for i in 0..ROUND {
        fill(&mut block, 8192 + 512 * i, &[7; 496], 0, 0);
        put_pending(log, FIRST_BLOCK + 512 * i, &block)?;
    }
    log.sync()
}

/// A page place that isn't sound.
fn put_broken_place(store: &mut MemDisk) -> Result<(), DevError> {
    put(store, PLACE, &[1; 512])
}

/// Page 5 with this lsn, whose user bytes are zeros.
fn page_of(lsn: u64) -> [u8; 4096] {
    let mut page = [0; 4096];
    seal(&mut page, 5, 1, lsn);
    page
}

/// A sound copy of page 5 with this lsn in this slot.
fn put_copy(store: &mut MemDisk, slot: u64, lsn: u64) -> Result<(), DevError> {
    put(store, slot.saturating_mul(PAGE), &page_of(lsn))
}

/// What the first slot of a data device holds.
pub(crate) fn first_slot<D: Sectors>(store: &mut D) -> Result<[u8; 4096], DevError> {
    let mut slot = [0; 4096];
    if store.len() < PAGE {
        return Err(DevError::Failed);
    }
    store.read(0, &mut slot)?;
    Ok(slot)
}

/// A device of so many sectors, which holds what the first sector of this one does.
fn shortened(alloc: Global, device: &mut MemDisk, sectors: u32) -> Result<MemDisk, Fail> {
    let mut first = [0; 512];
    if device.len() < 512 {
        return Err(Fail::from("the device has no sector"));
    }
    device.read(0, &mut first)?;
    let mut short = MemDisk::new(alloc, 512 * u64::from(sectors))?;
    put(&mut short, 0, &first)?;
    Ok(short)
}

/// The devices, of which one is cut as a name says: `log of SECTORS`, `data of SECTORS` or `archive of SECTORS`.
pub(crate) fn shorten(alloc: Global, devices: &mut MemDevices, name: &str) -> Result<bool, Fail> {
    let Some((device, sectors)) = name.split_once(" of ") else {
        return Ok(false);
    };
    let sectors = sectors.parse::<u32>()?;
    match device {
        "log" => devices.log = shortened(alloc, &mut devices.log, sectors)?,
        "archive" => devices.arch = shortened(alloc, &mut devices.arch, sectors)?,
        _ => devices.store = shortened(alloc, &mut devices.store, sectors)?,
    }
    Ok(true)
}

/// Changes devices as a name says; `same` leaves them, and any other name that isn't below is refused.
pub(crate) fn change(devices: &mut MemDevices, name: &str) -> Result<(), DevError> {
    match name {
        "first format" => put_first_format(&mut devices.log),
        "second format" => put_second_format(&mut devices.log),
        "first head lost" => put(&mut devices.log, 0, &[1; 512]),
        "second head lost" => put(&mut devices.log, SECOND_HEAD, &[1; 512]),
        "no first head" => put(&mut devices.log, 0, &[0; 512]),
        "no second head" => put(&mut devices.log, SECOND_HEAD, &[0; 512]),
        "no length" => put_no_length(&mut devices.log),
        "no type" => put_no_type(&mut devices.log),
        "part in place" => put_part(&mut devices.log),
        "no group" => put_no_group(&mut devices.log),
        "last block" => put_last_block(&mut devices.log),
        "whole round" => put_whole_round(&mut devices.log),
        "other format" => put_other_format(&mut devices.log),
        "no checkpoint" => {
            put(&mut devices.log, 512, &[1; 512])?;
            put(&mut devices.log, 1536, &[1; 512])
        }
        "lost" => put_broken_place(&mut devices.store),
        "ahead" => {
            put_copy(&mut devices.store, 1, 9000)?;
            put_copy(&mut devices.store, 6, 8500)?;
            put_broken_place(&mut devices.store)
        }
        "copy beside" => put_copy(&mut devices.store, 1, 8210),
        "copy ahead" => put_copy(&mut devices.store, 1, 9000),
        "high number" => put_checkpoint(&mut devices.log, 1 << 63, 8192),
        "last number" => put_checkpoint(&mut devices.log, u64::MAX, 8192),
        "high lsn" => put_checkpoint(&mut devices.log, 2, LSN_LIMIT - (1 << 30)),
        "last lsn" => put_checkpoint(&mut devices.log, 2, LSN_LIMIT - 512),
        "log pending" => put_pending(&mut devices.log, 512, &[0; 512]),
        "data pending" => put_pending(&mut devices.store, 512, &[0; 512]),
        "block pending" => put_pending(&mut devices.log, FIRST_TAIL, &[0; 512]),
        "page pending" => put_pending(&mut devices.store, PLACE, &page_of(8204)),
        "same" => Ok(()),
        _ => Err(DevError::Failed),
    }
}

/// New devices, of which `large data` has a longer data device. Those of `tearing` tear the sectors that a crash loses, and so
/// do those of `log fails CALL`, `data fails CALL` or `archive fails CALL`, of which one fails a call.
pub(crate) fn new_devices(alloc: Global, name: &str) -> Result<MemDevices, Fail> {
    let Some((device, call)) = name.split_once(" fails ") else {
        let devices = match name {
            "tearing" => tearing(alloc)?,
            "large data" => with_large_store(alloc)?,
            _ => blank(alloc)?,
        };
        return Ok(devices);
    };
    let call = call.parse::<u64>()?;
    let mut devices = tearing(alloc)?;
    match device {
        "log" => devices.log = failing(alloc, LOG_LENGTH, call)?,
        "archive" => devices.arch = failing(alloc, ARCHIVE, call)?,
        _ => devices.store = failing(alloc, STORE_LENGTH, call)?,
    }
    Ok(devices)
}
