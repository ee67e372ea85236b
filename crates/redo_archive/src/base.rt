// The pages of an archive, read one by one.
ghost use Rattle.std.specs.Prelude.{◌≡◌, ◌≤◌, ◌<◌, ◌+◌, ◌*◌, IfOk, IfErr};
ghost use Rattle.model_archive.specs.{AreBasePages, pages_end};
ghost use Rattle.model_archive.specs.declared.layout.TheConstants.{ARCHIVE_HEADER};
ghost use Rattle.model_base.specs.{IsWithinLimits};
ghost use Rattle.redo_apply.specs.{ArePagesOf};
ghost use Rattle.redo_archive.specs.Restoring.{device_error_of, IsBaseFault};
ghost use Rattle.redo_recover.specs.Devices.{OnContent, IsOnlyRead};

use crate::RestoreFault;
use crate::places::page_place;
use model_base::Shape;
use redo_apply::Pages;
use redo_disk::Sectors;
use redo_page::{place_lsn, user_part};
use redo_recover::read_part;
use std::alloc::Global;

/// Reads the pages with which the run was opened, each by one call.
pub(crate) fn read_base<A: Sectors>(
    alloc: Global,
    device: &mut A,
    shape: &Shape,
) -> Result<Pages, RestoreFault>
    requires limits { IsWithinLimits shape.now }
    requires long { pages_end shape.now ≤ (A.seen device.old).size }
    ensures pages { IfOk result (λ pages. OnContent (A.seen device.new).tells
        (λ image. AreBasePages shape.now image pages)) }
    ensures its_pages { IfOk result (ArePagesOf shape.now) }
    ensures fault { IfErr result (IsBaseFault shape.now (A.seen device.new).tells) }
    ensures reads { IsOnlyRead A.seen A.gives device.old (device_error_of result) device.new }
{
    let size = shape.page_size as usize;
    let mut pages = Pages::blank(alloc, shape)?;
    for page in 0..shape.pages {
        let read = read_part(alloc, device, page_place(shape, page), size)?;
        let text = read.as_slice();
        let Some(lsn) = place_lsn(text, shape, page) else {
            return Err(RestoreFault::Page(page));
        };
        pages.put(page, lsn, user_part(text));
    }
    Ok(pages)
}
