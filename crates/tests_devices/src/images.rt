// Images of a row of two sectors, of which the first is written twice.
ghost use Rattle.std.specs.Prelude.{◌≡◌, ◌*◌, length, IfOk};
ghost use Rattle.std.specs.Bool.{OnTrue};
ghost use Rattle.model_device.specs.{AreWithin};

use model_base::{BLOCK_SIZE, Bytes};
use model_device::Write;
use redo_memdisk::{apply_writes, is_image};
use std::alloc::{AllocError, Global};
use std::test::Fail;

/// Bytes of a sector.
const SECTOR: usize = BLOCK_SIZE as usize;

/// Two sectors of one byte each.
fn two_sectors(alloc: Global, first: u8, second: u8) -> Result<Vec<u8>, AllocError>
    ensures { IfOk result (λ row. length row.items ≡ 2 * SECTOR) }
{
    let mut row = vec![in alloc; first; SECTOR]?;
    row.extend_from_slice([second; SECTOR].as_slice())?;
    Ok(row)
}

/// Whether each write lies within so many bytes.
fn are_within(size: usize, writes: &[Write]) -> bool
    ensures { OnTrue result (AreWithin size writes.now) }
{
    writes.iter().all(|write| write.at as usize <= size
        && write.bytes.len() <= size - write.at as usize)
}

/// Writes of ones and of twos into the first sector.
fn two_writes(alloc: Global) -> Result<Vec<Write>, AllocError> {
    let mut writes = Vec::new(alloc);
    for byte in [1, 2] {
        let bytes = Bytes::new(vec![in alloc; byte; SECTOR]?);
        writes.push(Write { at: 0, bytes })?;
    }
    Ok(writes)
}

#[test]
fn a_written_sector_may_hold_any_bytes(rt: HostRuntime) -> Result<(), Fail> {
    let alloc = rt.alloc();
    let base = two_sectors(alloc, 0, 7)?;
    let writes = two_writes(alloc)?;
    assert!(rt; are_within(base.len(), writes.as_slice()));
    let after = apply_writes(alloc, base.as_slice(), writes.as_slice())?;
    assert!(rt; after == two_sectors(alloc, 2, 7)?);
    // what stands at the two offsets in the first sector and in the second one, and whether that is an image
    for (front, back, second, want) in [
        (0, 0, 7, true),
        (2, 2, 7, true),
        (1, 0, 7, true),
        (1, 2, 7, true),
        (3, 9, 7, true),
        (2, 2, 8, false),
        (0, 0, 2, false),
    ] {
        let mut image = two_sectors(alloc, front, second)?;
        image[256..512].fill(back);
        let found = is_image(base.as_slice(), writes.as_slice(), image.as_slice());
        assert!(rt; found == want, "{front}, {back} and {second}");
    }
    let short = vec![in alloc; 2; SECTOR]?;
    assert!(rt; !is_image(base.as_slice(), writes.as_slice(), short.as_slice()));
    Ok(())
}
