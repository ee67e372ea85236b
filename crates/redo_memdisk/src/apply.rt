// Writes that are put into a row of bytes, and a crash that keeps some of their sectors and tears the others.
ghost use Rattle.std.specs.Prelude.{ℕ, List, ◌≡◌, ◌+◌, ◌≤◌, ◌<◌, ◌^◌, ◌%◌, length, IfOk, if◌then◌else◌};
ghost use Rattle.std.specs.List.{flat_map};
ghost use Rattle.model_base.specs.{overwritten};
ghost use Rattle.model_device.specs.{after_write, after_writes, AreWithin, IsWithin, left_of, sector_writes, survives};
ghost use Rattle.redo_disk.specs.{part};

use crate::SECTOR;
use model_device::Write;
use std::alloc::{AllocError, Global};

fn put(row: &mut [u8], at: usize, bytes: &[u8])
    requires { at + length bytes.now ≤ length row.old }
    ensures { row.new ≡ overwritten at bytes.now row.old }
{
    row[at..at + bytes.len()].copy_from_slice(bytes);
}

/// Puts the writes into the row whole, in order.
pub(crate) fn apply_all(row: &mut [u8], writes: &[Write])
    requires { AreWithin (length row.old) writes.now }
    ensures { row.new ≡ after_writes row.old writes.now }
{
    for write in writes {
        put(row, write.at as usize, write.bytes.as_slice());
    }
}

/// What a row of bytes holds after these writes.
pub fn apply_writes(alloc: Global, base: &[u8], writes: &[Write]) -> Result<Vec<u8>, AllocError>
    requires { AreWithin (length base.now) writes.now }
    ensures { IfOk result (λ bytes. bytes.items ≡ after_writes base.now writes.now) }
{
    let mut row = base.to_vec(alloc)?;
    apply_all(&mut row, writes);
    Ok(row)
}

/// Puts into a part of a row, from the offset on, what a write into the row puts there.
fn lay_over(out: &mut [u8], at: usize, write: &Write)
    requires here { at + length out.old < 2 ^ 64 }
    requires there { write.now.at + length write.now.bytes < 2 ^ 64 }
    ensures { (row : List ℕ) → at + length out.old ≤ length row → IsWithin (length row) write.now
        → out.old ≡ part row at (length out.old) → out.new ≡ part (after_write row write.now) at (length out.old) }
{
    let bytes = write.bytes.as_slice();
    let start = write.at as usize;
    let from = start.max(at);
    let to = (start + bytes.len()).min(at + out.len());
    if from < to {
        out[from - at..to - at].copy_from_slice(&bytes[from - start..to - start]);
    }
}

/// Fills `out` with what stands in the row from the offset on once the writes are done.
pub(crate) fn read_through(row: &[u8], writes: &[Write], at: usize, out: &mut [u8])
    requires range { at + length out.old ≤ length row.now }
    requires within { AreWithin (length row.now) writes.now }
    ensures { out.new ≡ part (after_writes row.now writes.now) at (length out.old) }
{
    out.copy_from_slice(&row[at..at + out.len()]);
    for write in writes {
        lay_over(out, at, write);
    }
}

/// How many bytes of a sector's write a crash with this pick leaves, if this bit of the pick tells whether it survives.
fn left(cut: usize, pick: u64, bit: u32) -> usize
    requires { bit < 64 }
    ensures { result ≡ (if survives pick bit then SECTOR else cut) }
{
    if (pick >> bit) % 2 == 1 { SECTOR } else { cut }
}

/// Puts those sectors of a write into the row that survive, and of each other one its first bytes. `bit` is the bit of
/// the pick that says it of the first sector, and the result is the bit for the sector after the last.
fn apply_sectors(row: &mut [u8], write: &Write, cut: usize, pick: u64, bit: u32) -> u32
    requires within { IsWithin (length row.old) write.now }
    requires cut { cut < SECTOR }
    requires bit { bit < 64 }
    ensures left { row.new ≡ after_writes row.old (left_of cut pick bit (sector_writes write.now)) }
    ensures next { result ≡ (bit + length (sector_writes write.now)) % 64 }
{
    let bytes = write.bytes.as_slice();
    let at = write.at as usize;
    let mut next = bit;
    for k in 0..bytes.len() / SECTOR {
        let from = k * SECTOR;
        let count = left(cut, pick, next);
        put(row, at + from, &bytes[from..from + count]);
        next = (next + 1) % 64;
    }
    next
}

/// Puts into the row what a crash leaves of the writes: those sectors whole whose bits of the pick are 1, counted from
/// the lowest bit and again from there after 64, and of each other one its first bytes, as many as `cut`.
pub(crate) fn apply_crash(row: &mut [u8], writes: &[Write], cut: usize, pick: u64)
    requires within { AreWithin (length row.old) writes.now }
    requires cut { cut < SECTOR }
    ensures { row.new ≡ after_writes row.old (left_of cut pick 0 (flat_map sector_writes writes.now)) }
{
    let mut bit = 0;
    for write in writes {
        bit = apply_sectors(row, write, cut, pick, bit);
    }
}
