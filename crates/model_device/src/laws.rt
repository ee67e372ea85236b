// What holds of every device. Each law is the contract of a function that does nothing.
ghost use Rattle.std.specs.Prelude.{ℕ, List, ◌≡◌, ◌+◌, ◌*◌, ◌%◌, ◌<◌, ◌≤◌, length};
ghost use Rattle.model_base.specs.declared.limits.TheConstants.{BLOCK_SIZE};
ghost use Rattle.model_device.specs.Disks.{Crashes, FailsWrite, synced, written, Covers, Disk, HasOneImage, IsCovered, IsImage, sector, settled, IsValid, IsSectorWrite, AreSectorWrites};
ghost use Rattle.model_device.specs.Crash.{crash_image};
ghost use Rattle.model_device.specs.MayHold.{written_sector, Adds, MayHold};
ghost use Rattle.model_device.specs.declared.write.Write.{Write};

/// Whichever sector writes a crash lets survive, and wherever it tears the others, it leaves an image of the device.
pub fn crash_leaves_an_image()
    ensures { (disk : Disk) (cut pick : ℕ) → AreSectorWrites (length disk.base) disk.writes
        → IsImage disk (crash_image cut pick disk) }
{}

/// A device with no write since the last good sync has one image: what it holds.
pub fn settled_has_one_image()
    ensures { (bytes : List ℕ) → IsImage (settled bytes) bytes × HasOneImage (settled bytes) bytes }
{}

/// A device that is valid stays so through every call: a good write, a failed one, a good sync and a crash. A failed
/// sync changes nothing.
pub fn calls_keep_a_device_valid()
    ensures settled { (bytes : List ℕ) → length bytes % BLOCK_SIZE ≡ 0 → IsValid (settled bytes) }
    ensures write { (disk : Disk) (write : Write) → IsValid disk → IsSectorWrite (length disk.base) write
        → IsValid (written disk write) }
    ensures failed_write { (old new : Disk) (write : Write) → IsValid old → IsSectorWrite (length old.base) write
        → FailsWrite write old new → IsValid new }
    ensures sync { (disk : Disk) → IsValid disk → IsValid (synced disk) }
    ensures crash { (old new : Disk) → IsValid old → Crashes old new → IsValid new }
{}

/// A sector that a write since the last good sync covers may hold any bytes after a crash: of a valid device they stand
/// there in an image. So does each whole content that a sector may hold.
pub fn sectors_stand_in_images()
    ensures torn { (disk : Disk) (k : ℕ) (bytes : List ℕ) → IsValid disk → BLOCK_SIZE * k + BLOCK_SIZE ≤ length disk.base
        → IsCovered disk.writes k → length bytes ≡ BLOCK_SIZE
        → (image : List ℕ) × IsImage disk image × (sector k image ≡ bytes) }
    ensures whole { (disk : Disk) (k : ℕ) (bytes : List ℕ) → IsValid disk → BLOCK_SIZE * k + BLOCK_SIZE ≤ length disk.base
        → MayHold disk k bytes → (image : List ℕ) × IsImage disk image × (sector k image ≡ bytes) }
{}

/// What the calls do to the whole contents that a sector may hold. A good write adds what it puts there, a failed one adds that at the most,
/// and after a good sync only what reads give is left.
pub fn calls_add_to_sectors()
    ensures adds { (disk : Disk) (write : Write) → Adds write disk (written disk write) }
    ensures keeps { (disk : Disk) (write : Write) (k : ℕ) (bytes : List ℕ) → MayHold disk k bytes
        → MayHold (written disk write) k bytes }
    ensures puts { (disk : Disk) (write : Write) (k : ℕ) → Covers write k
        → MayHold (written disk write) k (written_sector write k) }
    ensures failed { (old new : Disk) (write : Write) → FailsWrite write old new → Adds write old new }
    ensures synced { (disk : Disk) (k : ℕ) (bytes : List ℕ) → MayHold (synced disk) k bytes
        → bytes ≡ sector k disk.reads }
    ensures one_image { (disk : Disk) (k : ℕ) (bytes : List ℕ) → IsValid disk → HasOneImage disk disk.reads
        → BLOCK_SIZE * k + BLOCK_SIZE ≤ length disk.base → MayHold disk k bytes → bytes ≡ sector k disk.reads }
{}
