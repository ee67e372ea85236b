// Restoring.
ghost use Rattle.std.specs.Prelude.{◌≡◌, ◌≤◌, IfOk, IfErr, length};
ghost use Rattle.model_archive.specs.{archive_length, HasExtent, IsRestored};
ghost use Rattle.model_base.specs.declared.limits.TheConstants.{MAX_PAGES};
ghost use Rattle.redo_archive.specs.Restoring.{device_error_of, HasRestoreCause, IsExtentFault, IsSoundExtent};
ghost use Rattle.redo_recover.specs.Devices.{OnContent, IsOnlyRead};

use crate::base::read_base;
use crate::blocks::restore_blocks;
use crate::extent::extent_in;
use crate::places::archive_length;
use crate::{RestoreFault, Restored};
use model_archive::{ARCHIVE_HEADER, Extent};
use redo_disk::Sectors;
use std::alloc::Global;

/// Bytes of the head and the marks.
const HEADER: usize = ARCHIVE_HEADER as usize;

/// Reads the head and the marks, and judges the device's length by them.
fn read_extent<A: Sectors>(device: &mut A) -> Result<Extent, RestoreFault>
    ensures extent { IfOk result (λ extent. OnContent (A.seen device.new).tells (λ image. HasExtent image extent)) }
    ensures sound { IfOk result IsSoundExtent }
    ensures long { IfOk result (λ extent.
        archive_length extent.shape extent.start extent.mark ≤ (A.seen device.old).size) }
    ensures fault { IfErr result (IsExtentFault (A.seen device.new).tells) }
    ensures reads { IsOnlyRead A.seen A.gives device.old (device_error_of result) device.new }
{
    let length = device.len();
    if length < ARCHIVE_HEADER {
        return Err(RestoreFault::Missing);
    }
    let mut header = [0; HEADER];
    device.read(0, &mut header)?;
    let Some(extent) = extent_in(&header) else {
        return Err(RestoreFault::Missing);
    };
    if length < archive_length(&extent.shape, extent.start, extent.mark) {
        return Err(RestoreFault::Missing);
    }
    Ok(extent)
}

/// Restores the pages for an lsn: as the run left them once it had applied every group that ends at or below it. It
/// writes nothing. It reads the head and the marks, then the archived pages one by one, and then the blocks in pieces
/// of 65,536 bytes at the most, so that it takes memory for the pages and little more.
///
/// All of the archive up to its mark is judged, whatever the lsn is. `RestoreFault` has the causes in the order in
/// which they are judged; `docs/formats.md` has the layout.
pub fn restore<A: Sectors>(
    alloc: Global,
    device: &mut A,
    lsn: u64,
) -> Result<Restored, RestoreFault>
    ensures restored { IfOk result (λ restored. OnContent (A.seen device.new).tells
        (λ image. IsRestored image lsn restored.n restored.end restored.pages)) }
    ensures few { IfOk result (λ restored. length restored.pages ≤ MAX_PAGES) }
    ensures caused { IfErr result (HasRestoreCause (A.seen device.new).tells lsn) }
    ensures reads { IsOnlyRead A.seen A.gives device.old (device_error_of result) device.new }
{
    let extent = read_extent(device)?;
    if lsn < extent.start || extent.mark < lsn {
        return Err(RestoreFault::To(lsn));
    }
    let pages = read_base(alloc, device, &extent.shape)?;
    restore_blocks(alloc, device, &extent, lsn, pages)
}
