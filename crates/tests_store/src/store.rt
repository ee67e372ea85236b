// Stores on devices in memory, built block by block and page by page.
ghost use Rattle.std.specs.Prelude.{◌≡◌, ◌≤◌, vec_len};
ghost use Rattle.model_base.specs.declared.limits.TheConstants.{MAX_LOG_BLOCKS, MIN_LOG_BLOCKS};

use model_base::Shape;
use redo_block::fill;
use redo_crc::crc32c;
use redo_disk::{DevError, Sectors};
use redo_header::{Format, fill_ckpt, fill_head};
use redo_lsn::{layout_of, offset_of};
use redo_memdisk::MemDisk;
use redo_page::seal;
use std::alloc::{AllocError, Global};

/// The number of no call of a device.
pub const NEVER: u64 = u64::MAX;

/// How a device fails: at the call of this number, of which the first two are the ones that fill it. Of a sector that a crash
/// loses it keeps so many of the first bytes.
#[derive(Clone, Copy)]
pub struct Flaw {
    pub call: u64,
    pub cut: usize,
}

/// That of a device which never fails, and keeps nothing of such a sector.
pub const SOUND: Flaw = Flaw {
    call: NEVER,
    cut: 0,
};

/// That of a device which tears the sectors that a crash loses.
pub const TEARING: Flaw = Flaw { cut: 100, ..SOUND };

/// What stands at the front of the two devices of a store, after which are zeros, and how long they are.
#[derive(Drop)]
pub struct Store {
    /// The format by which headers, checkpoints and blocks are put there.
    pub format: Format,
    pub log: Vec<u8>,
    pub log_length: u64,
    pub data: Vec<u8>,
    pub data_length: u64,
}

/// Puts the bytes there, if there is room.
fn put(device: &mut Vec<u8>, at: usize, bytes: &[u8])
    ensures { vec_len device.new ≡ vec_len device.old }
{
    if bytes.len() <= device.len() && at <= device.len() - bytes.len() {
        device[at..at + bytes.len()].copy_from_slice(bytes);
    }
}

/// Fills the front of a device with these bytes, as far as there is room.
fn fill_front(device: &mut MemDisk, bytes: &[u8]) -> Result<(), DevError> {
    let count = (bytes.len() as u64).min(device.len()) / 512 * 512;
    device.write(0, &bytes[..count as usize])?;
    device.sync()
}

/// A device of this length that begins with these bytes, as far as there is room.
fn device_of(alloc: Global, bytes: &[u8], length: u64, flaw: Flaw) -> Result<MemDisk, DevError> {
    let calls = vec![in alloc; flaw.call]?;
    let length = length / 512 * 512;
    let mut device = MemDisk::tearing_and_failing(alloc, length, flaw.cut.min(511), calls)?;
    fill_front(&mut device, bytes)?;
    Ok(device)
}

/// The block at this lsn with these bytes, as far as there is room, under the checkpoint of this number.
fn block_of(lsn: u64, bytes: &[u8], has_group: bool, number: u32) -> [u8; 512]
    requires { lsn ≤ 1048576 }
{
    let mut sector = [0; 512];
    let count = bytes.len().min(496);
    let first = if has_group { 12 } else { 0 };
    fill(&mut sector, lsn, &bytes[..count], first, number);
    sector
}

/// The bytes that stand on a device.
fn bytes_of(alloc: Global, device: &mut MemDisk) -> Result<Vec<u8>, DevError> {
    let length = device.len() / 512 * 512;
    let mut bytes = vec![in alloc; 0u8; length as usize]?;
    device.read(0, bytes.as_mut_slice())?;
    Ok(bytes)
}

impl Store {
    /// Two devices of so many bytes, of which each is this one, for a store of format 2.
    pub fn filled(alloc: Global, byte: u8, log: usize, data: usize) -> Result<Store, AllocError> {
        Ok(Store {
            format: Format::Two,
            log: vec![in alloc; byte; log]?,
            log_length: log as u64,
            data: vec![in alloc; byte; data]?,
            data_length: data as u64,
        })
    }

    /// What stands on these devices.
    pub fn of(alloc: Global, log: &mut MemDisk, data: &mut MemDisk) -> Result<Store, DevError> {
        Ok(Store {
            format: Format::Two,
            log: bytes_of(alloc, log)?,
            log_length: log.len(),
            data: bytes_of(alloc, data)?,
            data_length: data.len(),
        })
    }

    /// Two devices on which this stands.
    pub fn devices(&self, alloc: Global) -> Result<(MemDisk, MemDisk), DevError> {
        self.devices_with(alloc, SOUND, SOUND)
    }

    /// The same, which fail in these ways.
    pub fn devices_with(
        &self,
        alloc: Global,
        log: Flaw,
        data: Flaw,
    ) -> Result<(MemDisk, MemDisk), DevError> {
        let log = device_of(alloc, &self.log, self.log_length, log)?;
        let data = device_of(alloc, &self.data, self.data_length, data)?;
        Ok((log, data))
    }

    /// Writes the header of a store of these sizes: into block 0, and but for format 1 also into block 2.
    pub fn put_head(&mut self, shape: &Shape) {
        self.put_head_block(0, self.format, shape);
        match self.format {
            Format::One => {}
            format => self.put_head_block(2, format, shape),
        }
    }

    /// Writes the header of a store of this format and of these sizes into this header block.
    pub fn put_head_block(&mut self, which: u16, format: Format, shape: &Shape) {
        let mut sector = [0; 512];
        fill_head(&mut sector, format, shape);
        put(&mut self.log, 512 * usize::from(which), &sector);
    }

    /// Writes the checkpoint of this number.
    pub fn put_ckpt(&mut self, shape: &Shape, number: u64, lsn: u64)
        requires many_blocks { MIN_LOG_BLOCKS ≤ shape.now.log_blocks }
        requires few_blocks { shape.now.log_blocks ≤ MAX_LOG_BLOCKS }
        requires started { 8192 ≤ lsn }
        requires small { lsn ≤ 1048576 }
    {
        let mut sector = [0; 512];
        fill_ckpt(&mut sector, number, lsn, &layout_of(self.format, shape));
        put(&mut self.log, 512 + 1024 * (number % 2) as usize, &sector);
    }

    /// Writes the block at this lsn under the checkpoint of this number, with a group that begins there or none: one that
    /// isn't full into a tail block in format 2, each other into its place.
    pub fn put_block(&mut self, shape: &Shape, number: u32, lsn: u64, bytes: &[u8], has_group: bool)
        requires many_blocks { MIN_LOG_BLOCKS ≤ shape.now.log_blocks }
        requires few_blocks { shape.now.log_blocks ≤ MAX_LOG_BLOCKS }
        requires started { 8192 ≤ lsn }
        requires small { lsn ≤ 1048576 }
    {
        match self.format {
            Format::One => self.put_in_place(shape, number, lsn, bytes, has_group),
            _ if bytes.len() < 496 => self.put_tail(4, lsn, bytes, has_group),
            _ => self.put_in_place(shape, number, lsn, bytes, has_group),
        }
    }

    /// Writes the block into its place, whether it is full or not.
    pub fn put_in_place(
        &mut self,
        shape: &Shape,
        number: u32,
        lsn: u64,
        bytes: &[u8],
        has_group: bool,
    )
        requires many_blocks { MIN_LOG_BLOCKS ≤ shape.now.log_blocks }
        requires few_blocks { shape.now.log_blocks ≤ MAX_LOG_BLOCKS }
        requires started { 8192 ≤ lsn }
        requires small { lsn ≤ 1048576 }
    {
        let sector = block_of(lsn, bytes, has_group, number);
        let at = offset_of(lsn, &layout_of(self.format, shape));
        put(&mut self.log, at as usize, &sector);
    }

    /// Writes the block into the tail block of this number, as it stands there in the first turn of the numbers of blocks.
    pub fn put_tail(&mut self, which: u16, lsn: u64, bytes: &[u8], has_group: bool)
        requires { lsn ≤ 1048576 }
    {
        let sector = block_of(lsn, bytes, has_group, 0);
        put(&mut self.log, 512 * usize::from(which), &sector);
    }

    /// Writes a byte of the log device.
    pub fn put_log_byte(&mut self, at: u16, byte: u8) {
        put(&mut self.log, usize::from(at), &[byte]);
    }

    /// Writes bytes of a sector of the log device, and the sector's checksum.
    pub fn put_sealed(&mut self, at: u16, bytes: &[u8]) {
        let at = usize::from(at);
        put(&mut self.log, at, bytes);
        let from = at / 512 * 512;
        if from + 512 <= self.log.len() {
            let checksum = crc32c(&self.log[from..from + 508]);
            put(&mut self.log, from + 508, &checksum.to_be_bytes());
        }
    }

    /// Writes a page of this number, whose user bytes are all the same, into a slot, or after the slots into a place.
    pub fn put_page(&mut self, slot: u16, number: u32, lsn: u64, user: u8) {
        let mut page = [user; 4096];
        seal(&mut page, number, 1, lsn);
        put(&mut self.data, 4096 * usize::from(slot), &page);
    }

    /// Writes a byte of a slot or place.
    pub fn put_page_byte(&mut self, slot: u16, at: u16, byte: u8) {
        put(
            &mut self.data,
            4096 * usize::from(slot) + usize::from(at),
            &[byte],
        );
    }
}
