// The calls of a device, and what they say of it.
ghost use Rattle.std.specs.Prelude.{◌≡◌, ◌≢◌, ℕ, length, None, IfSome};
ghost use Rattle.redo_disk.specs.Calls.{Call, Reads, Writes, Syncs, MakesCall};
ghost use Rattle.redo_disk.specs.Sight.{Seen, ReadStep, WriteStep, SyncStep, write_at};
ghost use Rattle.redo_disk.specs.Ranges.{CrashStep, IsRange, HasSize};

use crate::DevError;

/// A device of sectors of 512 bytes. A good write is seen by every read after it, and survives a crash for sure only
/// once a good sync has followed.
///
/// The ghost members `gives` and `crash_gives` are all that the device's own contract says of one call: the device
/// before, what the call was given and gave, and the device after. Code that hands them on tells exactly which calls it
/// made (`MakesCalls`), and a wrapper that does has passed each call on, once and as it was.
pub trait Sectors {
    /// What a reader of the device sees of it. Its size never changes, and its count of faults never falls.
    ghost seen: { Self → Seen };

    /// What a call gives: the device before, the call with its answer, and the device after.
    ghost gives: { Self → Call → Self → Type 0 } = { λ _ _ _. Unit {0} };

    /// A device that tells what it means after a call told it before.
    ghost told_before: { (old new : Self) (call : Call) → gives old call new → (seen new).tells ≢ None → (seen old).tells ≢ None };

    /// What a crash with this pick gives.
    ghost crash_gives: { Self → ℕ → Self → Type 0 } = { λ _ _ _. Unit {0} };

    /// How many bytes it has.
    fn len(&self) -> u64
        ensures size { result ≡ (seen self.now).size }
        // what stood there at the last good sync and what reads give are that long
        ensures told { IfSome (seen self.now).tells (HasSize (seen self.now).size) };

    /// Reads the bytes from an offset on. Where it fails, `out` holds any bytes.
    fn read(&mut self, at: u64, out: &mut [u8]) -> Result<(), DevError>
        requires { IsRange (seen self.old).size at (length out.old) }
        ensures step { ReadStep at (length out.old) (seen self.old) result out.new (seen self.new) }
        ensures gives { MakesCall gives self.old (Reads at out.old result out.new) self.new };

    /// Writes bytes from an offset on. Where it fails, the sectors of that range may hold any bytes.
    fn write(&mut self, at: u64, bytes: &[u8]) -> Result<(), DevError>
        requires { IsRange (seen self.old).size at (length bytes.now) }
        ensures step { WriteStep (write_at at bytes.now) (seen self.old) result (seen self.new) }
        ensures gives { MakesCall gives self.old (Writes (write_at at bytes.now) result) self.new };

    /// Makes every write before it survive a crash.
    fn sync(&mut self) -> Result<(), DevError>
        ensures step { SyncStep (seen self.old) result (seen self.new) }
        ensures gives { MakesCall gives self.old (Syncs result) self.new };

    /// A crash, and the start after it. The pick says which of the writes since the last good sync survive, where the
    /// device can choose.
    fn crash(&mut self, pick: u64)
        ensures step { CrashStep (seen self.old) (seen self.new) }
        ensures gives { crash_gives self.old pick self.new };
}
