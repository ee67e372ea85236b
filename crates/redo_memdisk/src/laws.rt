// What calls through a fuse leave, whatever code made them, and when a device in a file tells. Each law is the contract
// of a function that does nothing.
ghost use Rattle.std.specs.Prelude.{◌≡◌, ◌⊎◌, ℕ, true, List, [], length, Ok, Some, IfSome};
ghost use Rattle.model_device.specs.{settled};
ghost use Rattle.redo_disk.specs.{Call, changing_calls, failed_calls, Makes, part, Reads};
ghost use Rattle.redo_memdisk.specs.Counted.{CountsCalls, KeepsBehind, after_calls};
ghost use Rattle.redo_memdisk.specs.File.{FileGives, file_access, file_notes, file_seen};
ghost use Rattle.redo_memdisk.specs.Fused.{CallsThrough, fuse_of};
ghost use Rattle.redo_memdisk.specs.Notes.{filled};
ghost use Rattle.redo_memdisk.specs.declared.file.Access.TheVariants.{Writing};
ghost use Rattle.redo_memdisk.specs.declared.file.FileDisk.{FileDisk};
ghost use Rattle.redo_memdisk.specs.declared.file.Opening.TheVariants.{ForReading};
ghost use Rattle.redo_memdisk.specs.declared.file.TheConstants.{FILE_DISK_LEN};
ghost use Rattle.redo_memdisk.specs.declared.fused.Fused.{Fused};

use crate::{Contents, DeviceFiles};
use redo_disk::Sectors;

/// What a fuse tells after calls through it, and what they leave of the device behind it.
pub fn a_fuse_counts_calls<D: Sectors>()
    ensures after { (old new : Fused D) (calls : List Call) → Makes (CallsThrough D.seen D.gives) old calls new
        → fuse_of new ≡ after_calls (fuse_of old) calls }
    ensures counts { (old new : Fused D) (calls : List Call) → Makes (CallsThrough D.seen D.gives) old calls new
        → CountsCalls (fuse_of old) (length calls) (failed_calls calls) (changing_calls calls) (fuse_of new) }
    ensures behind { (old new : Fused D) (calls : List Call) → Makes (CallsThrough D.seen D.gives) old calls new
        → KeepsBehind D.seen old (failed_calls calls) new }
{}

/// What is asked of a file can be met: a read that gives what it meant leaves the device telling that, where the device
/// was made for writing, or the file could be synced as it was opened.
pub fn a_true_read_is_told<R: DeviceFiles, S: Contents>()
    ensures { (bytes : List ℕ) (old new : FileDisk R S R.File R.Dir) (at : ℕ) (before after : List ℕ) (done : Unit {0})
        → FileGives old (Reads at before (Ok done) after) new
        → (file_access old ≡ Writing) ⊎ (new.opening ≡ ForReading true)
        → IfSome (file_seen bytes old).tells (λ disk. after ≡ part disk.reads at (length after))
        → (file_seen bytes new).tells ≡ (file_seen bytes old).tells }
{}

/// Whether a device in a file tells is decided by its own calls alone, so a lie that one read told empties nothing that
/// is said of another device: a new one tells what the file holds then.
pub fn a_file_tells_by_its_calls<R: DeviceFiles, S: Contents>()
    ensures new { (bytes : List ℕ) (device : FileDisk R S R.File R.Dir) → file_notes device ≡ []
        → (file_seen bytes device).tells ≡ Some (settled (filled FILE_DISK_LEN bytes)) }
    ensures same { (bytes : List ℕ) (one other : FileDisk R S R.File R.Dir) → file_notes one ≡ file_notes other
        → (file_seen bytes one).tells ≡ (file_seen bytes other).tells }
{}
