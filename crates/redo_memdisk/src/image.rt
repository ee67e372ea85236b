// Whether a crash may leave these bytes: the definition of an image, tried out.
ghost use Rattle.std.specs.Prelude.{◌≡◌, ◌+◌, ◌*◌, ◌^◌, ◌≤◌, ◌<◌, ◌⊎◌, ◌↔◌, length, take, drop, IsTrue};
ghost use Rattle.model_device.specs.{Covers, IsCovered, IsImage, sector};

use crate::SECTOR;
use model_device::Write;

/// The bytes of the sector that begins at this offset; fewer at the end of the row.
fn sector_at(bytes: &[u8], at: usize) -> &[u8]
    ensures { result.now ≡ take SECTOR (drop at bytes.now) }
{
    let rest = &bytes[at.min(bytes.len())..];
    &rest[..rest.len().min(SECTOR)]
}

/// Whether the write covers the sector of this number.
fn covers(write: &Write, k: usize) -> bool
    requires { SECTOR * k + SECTOR < 2 ^ 64 }
    ensures { IsTrue result ↔ Covers write.now k }
{
    let start = (SECTOR * k) as u64;
    if start < write.at {
        return false;
    }
    (start - write.at) as usize + SECTOR <= write.bytes.len()
}

/// Whether one of the writes covers the sector of this number.
fn is_covered(writes: &[Write], k: usize) -> bool
    requires { SECTOR * k + SECTOR < 2 ^ 64 }
    ensures { IsTrue result ↔ IsCovered writes.now k }
{
    writes.iter().any(|write| covers(write, k))
}

/// Whether a crash may leave these bytes in the sector of this number.
fn may_stand(base: &[u8], writes: &[Write], k: usize, bytes: &[u8]) -> bool
    requires { SECTOR * k + SECTOR < 2 ^ 64 }
    ensures { IsTrue result ↔ ((bytes.now ≡ sector k base.now) ⊎ IsCovered writes.now k) }
{
    bytes == sector_at(base, SECTOR * k) || is_covered(writes, k)
}

/// Whether a crash may leave this image of a device that held `base` at its last good sync and took these writes since.
pub fn is_image(base: &[u8], writes: &[Write], image: &[u8]) -> bool
    ensures { IsTrue result
        ↔ IsImage (record { base = base.now; writes = writes.now; reads = base.now }) image.now }
{
    if image.len() != base.len() {
        return false;
    }
    for k in 0..base.len().div_ceil(SECTOR) {
        if !may_stand(base, writes, k, sector_at(image, SECTOR * k)) {
            return false;
        }
    }
    true
}
