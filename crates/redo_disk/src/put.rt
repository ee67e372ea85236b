// A write that survives any crash.
ghost use Rattle.std.specs.Prelude.{◌≡◌, length, OnOk, OnErr};
ghost use Rattle.model_base.specs.{overwritten};
ghost use Rattle.model_device.specs.{HasOneImage, IsPutOrNot, synced, written};
ghost use Rattle.redo_disk.specs.Calls.{Serve, error_of, put_requests, MakesCalls};
ghost use Rattle.redo_disk.specs.Sight.{HasCause, OnTold, write_at};
ghost use Rattle.redo_disk.specs.Ranges.{IsRange};

use crate::{DevError, Sectors};

/// Writes bytes from an offset on, so that they survive every crash after it.
#[tactic(auto, using(crate::proofs::Made::put_cut))]
pub fn write_and_sync<D: Sectors>(device: &mut D, at: u64, bytes: &[u8]) -> Result<(), DevError>
    requires { IsRange (D.seen device.old).size at (length bytes.now) }
    ensures stays { OnOk result (OnTold (D.seen device.old).tells (D.seen device.new).tells
        (λ old new. HasOneImage new (overwritten at bytes.now old.reads))) }
    ensures ok { OnOk result (OnTold (D.seen device.old).tells (D.seen device.new).tells
        (λ old new. new ≡ synced (written old (write_at at bytes.now)))) }
    ensures err { OnErr result (OnTold (D.seen device.old).tells (D.seen device.new).tells
        (IsPutOrNot (write_at at bytes.now))) }
    ensures size { (D.seen device.new).size ≡ (D.seen device.old).size }
    ensures cause { HasCause (D.seen device.old).faults (D.seen device.new).faults result }
    ensures calls { MakesCalls D.gives device.old device.new (Serve (put_requests (write_at at bytes.now)) (error_of result)) }
{
    device.write(at, bytes)?;
    device.sync()
}
