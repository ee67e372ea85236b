// Writing zeros.
ghost use Rattle.std.specs.Prelude.{◌≡◌, ◌≤◌, ◌%◌, None, OnOk, OnErr, replicate};
ghost use Rattle.model_base.specs.declared.limits.TheConstants.{BLOCK_SIZE};
ghost use Rattle.model_device.specs.{IsWithin};
ghost use Rattle.redo_disk.specs.{error_of, HasCause, IsRange, MakesCall, MakesCalls, OnTold, write_at, Writes, WriteStep};
ghost use Rattle.redo_open.specs.Erase.{Erases, ErasesIn, HasErased, HasZeros, Reaches};
ghost use Rattle.redo_open.specs.Put.{IsAtRestTo};
ghost use Rattle.redo_open.specs.Puts.{PutsWhere};
ghost use Rattle.redo_open.specs.Zeroing.{zeros};

use crate::PIECE;
use redo_disk::{DevError, Sectors};

/// As many zeros as one call writes at the most.
fn zero_piece() -> [u8; PIECE]
    ensures { result ≡ zeros PIECE }
{
    [0; PIECE]
}

/// Writes so many zeros from an offset on, by one call.
pub(crate) fn write_zeros<D: Sectors>(device: &mut D, at: u64, count: u64) -> Result<(), DevError>
    requires range { IsRange (D.seen device.old).size at count }
    requires few { count ≤ PIECE }
    ensures step { WriteStep (write_at at (replicate count 0)) (D.seen device.old) result (D.seen device.new) }
    ensures gives { MakesCall D.gives device.old (Writes (write_at at (replicate count 0)) result) device.new }
{
    let piece = zero_piece();
    device.write(at, &piece[..count as usize])
}

/// Fills the device with zeros from one offset up to another, by as few writes as that takes.
pub(crate) fn erase<D: Sectors>(device: &mut D, from: u64, end: u64) -> Result<(), DevError>
    requires aligned { from % BLOCK_SIZE ≡ 0 }
    requires whole { end % BLOCK_SIZE ≡ 0 }
    requires order { from ≤ end }
    requires within { end ≤ (D.seen device.old).size }
    ensures ok { OnOk result (OnTold (D.seen device.old).tells (D.seen device.new).tells
        (λ old new. Reaches end old → HasErased from end old new)) }
    ensures err { OnErr result (OnTold (D.seen device.old).tells (D.seen device.new).tells
        (λ old new. Reaches end old → Erases from end old new)) }
    ensures size { (D.seen device.new).size ≡ (D.seen device.old).size }
    ensures cause { HasCause (D.seen device.old).faults (D.seen device.new).faults result }
    ensures calls { MakesCalls D.gives device.old device.new (PutsWhere (IsWithin end) (error_of result)) }
{
    let mut at = from;
    while at < end {
        let count = (end - at).min(PIECE as u64);
        write_zeros(device, at, count)?;
        at += count;
    }
    Ok(())
}

/// The same of a log device that is at rest, and makes that stay.
pub(crate) fn erase_and_sync<L: Sectors>(log: &mut L, from: u64, end: u64) -> Result<(), DevError>
    requires aligned { from % BLOCK_SIZE ≡ 0 }
    requires whole { end % BLOCK_SIZE ≡ 0 }
    requires order { from ≤ end }
    requires within { end ≤ (L.seen log.old).size }
    ensures keeps { OnTold (L.seen log.old).tells (L.seen log.new).tells
        (λ old new. IsAtRestTo end old → ErasesIn from end old.reads new) }
    ensures ok { OnOk result (OnTold (L.seen log.old).tells (L.seen log.new).tells
        (λ old new. IsAtRestTo end old → HasZeros from end old.reads new)) }
    ensures unmoved { OnErr result (OnTold (L.seen log.old).tells (L.seen log.new).tells
        (λ old new. Reaches end old → new.base ≡ old.base)) }
    ensures size { (L.seen log.new).size ≡ (L.seen log.old).size }
    ensures cause { HasCause (L.seen log.old).faults (L.seen log.new).faults result }
    ensures calls { MakesCalls L.gives log.old log.new (PutsWhere (IsWithin end) (error_of result)) }
{
    erase(log, from, end)?;
    log.sync()
}
