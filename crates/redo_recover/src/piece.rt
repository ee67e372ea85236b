// Stretches of a device, read in pieces.
ghost use Rattle.std.specs.Prelude.{ℕ, List, ◌≡◌, ◌≤◌, ◌<◌, ◌+◌, ◌-◌, ◌%◌, length, take, IfOk, IsTrue, ◌↔◌};
ghost use Rattle.model_log.specs.{sector_at};
ghost use Rattle.redo_disk.specs.{error_of, IsRange, part};
ghost use Rattle.redo_recover.specs.Devices.{OnContent, IsOnlyRead};
ghost use Rattle.redo_recover.specs.Piece.{IsPieceOf, HasSector};

use model_base::BLOCK_SIZE;
use redo_disk::{DevError, Sectors};
use std::alloc::Global;

/// How many bytes one read of a device takes at the most, where no blocks are taken ahead.
pub(crate) const PIECE: usize = 65_536;

/// A stretch of a device that was read.
#[derive(Debug, Drop)]
pub struct Piece {
    /// The offset of its first byte on the device.
    pub from: u64,
    /// Its bytes.
    pub bytes: Vec<u8>,
}

impl Piece {
    /// Nothing of a device.
    pub(crate) fn none(alloc: Global) -> Piece
        ensures { (content : List ℕ) → IsPieceOf result content }
    {
        Piece {
            from: 0,
            bytes: Vec::new(alloc),
        }
    }

    /// So many bytes of a device from an offset on, in the memory of this piece.
    pub(crate) fn read_over<D: Sectors>(
        self,
        device: &mut D,
        at: u64,
        count: usize,
    ) -> Result<Piece, DevError>
        requires range { IsRange (D.seen device.old).size at count }
        ensures content { IfOk result (λ piece. OnContent (D.seen device.new).tells (IsPieceOf piece)) }
        ensures reads { IsOnlyRead D.seen D.gives device.old (error_of result) device.new }
    {
        let Piece { bytes, .. } = self;
        let mut bytes = bytes;
        bytes.resize(count, 0)?;
        device.read(at, bytes.as_mut_slice())?;
        Ok(Piece { from: at, bytes })
    }

    /// Whether it has the sector at this offset of the device.
    pub(crate) fn has_sector(&self, at: u64) -> bool
        ensures { IsTrue result ↔ HasSector self.now at }
    {
        let length = self.bytes.len() as u64;
        self.from <= at && BLOCK_SIZE <= length && at - self.from <= length - BLOCK_SIZE
    }

    /// The sector at this offset of the device.
    pub fn sector(&self, at: u64) -> &[u8; 512]
        requires { HasSector self.now at }
        ensures { result.now ≡ sector_at (at - self.now.from) self.now.bytes.items }
    {
        sector_at(self.bytes.as_slice(), (at - self.from) as usize)
    }

    /// The piece, if it has the sector at this offset, else the one that is read from there on, up to `end` at the most.
    pub fn with_sector<D: Sectors>(
        self,
        alloc: Global,
        device: &mut D,
        at: u64,
        end: u64,
    ) -> Result<Piece, DevError>
        requires at { at % BLOCK_SIZE ≡ 0 }
        requires end { end % BLOCK_SIZE ≡ 0 }
        requires some { at < end }
        requires within { end ≤ (D.seen device.old).size }
        ensures has { IfOk result (λ piece. HasSector piece at) }
        ensures content { IfOk result (λ piece. OnContent (D.seen device.old).tells (IsPieceOf self)
            → OnContent (D.seen device.new).tells (IsPieceOf piece)) }
        ensures reads { IsOnlyRead D.seen D.gives device.old (error_of result) device.new }
    {
        if self.has_sector(at) {
            return Ok(self);
        }
        let count = (end - at).min(PIECE as u64) as usize;
        let bytes = read_part(alloc, device, at, count)?;
        Ok(Piece { from: at, bytes })
    }
}

/// The sector at this offset of what was read.
pub fn sector_at(bytes: &[u8], at: usize) -> &[u8; 512]
    requires { at + BLOCK_SIZE ≤ length bytes.now }
    ensures { result.now ≡ sector_at at bytes.now }
{
    match bytes[at..].split_first_chunk::<512>() {
        Some((sector, _)) => sector,
        None => unreachable!(),
    }
}

/// Reads so many bytes from an offset on, by one call of the device.
pub fn read_part<D: Sectors>(
    alloc: Global,
    device: &mut D,
    at: u64,
    count: usize,
) -> Result<Vec<u8>, DevError>
    requires range { IsRange (D.seen device.old).size at count }
    ensures content { IfOk result (λ bytes. OnContent (D.seen device.new).tells (λ content. bytes.items ≡ part content at count)) }
    ensures count { IfOk result (λ bytes. length bytes.items ≡ count) }
    ensures reads { IsOnlyRead D.seen D.gives device.old (error_of result) device.new }
{
    let mut bytes = vec![in alloc; 0u8; count]?;
    device.read(at, bytes.as_mut_slice())?;
    Ok(bytes)
}
