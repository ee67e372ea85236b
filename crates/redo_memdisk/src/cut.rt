// A write that a stop cuts.
ghost use Rattle.std.specs.Prelude.{◌≡◌, length, Result};
ghost use Rattle.model_device.specs.{FailsWrite};
ghost use Rattle.redo_disk.specs.{IsRange, MakesCall, OnTold, write_at, Writes, WriteStep};
ghost use Rattle.redo_disk.specs.declared.error.DevError.{DevError};

use redo_disk::Sectors;

/// Passes a write on whose answer nobody hears, so that it is done or not.
pub(crate) fn cut_write<D: Sectors>(device: &mut D, at: u64, bytes: &[u8])
    requires { IsRange (D.seen device.old).size at (length bytes.now) }
    ensures told { OnTold (D.seen device.old).tells (D.seen device.new).tells (FailsWrite (write_at at bytes.now)) }
    ensures passed { (unheard : Result (Unit {0}) DevError) × MakesCall D.gives device.old (Writes (write_at at bytes.now) unheard) device.new
        × WriteStep (write_at at bytes.now) (D.seen device.old) unheard (D.seen device.new) }
{
    // only this call says that the device holds as many bytes as it has, without which a write may change its length
    let _ = device.len();
    let _ = device.write(at, bytes);
}
