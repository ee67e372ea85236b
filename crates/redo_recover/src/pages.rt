// The pages of a store: as they are kept, judged, and with the scanned groups applied.
ghost use Rattle.std.specs.Prelude.{◌≤◌, All, IfOk, IfErr};
ghost use Rattle.model_base.specs.{IsWithinLimits};
ghost use Rattle.model_page.specs.{data_device_length};
ghost use Rattle.model_log.specs.{GroupFits};
ghost use Rattle.model_log.specs.declared.group.Whole.{Whole};
ghost use Rattle.std.specs.List.{AllByRecursion};
ghost use Rattle.model_store.specs.{AreReadPages};
ghost use Rattle.redo_apply.specs.{ArePagesOf};
ghost use Rattle.redo_recover.specs.Devices.{OnContent, IsOnlyRead, data_error_of};
ghost use Rattle.redo_recover.specs.Groups.{EndBehindStarts};
ghost use Rattle.redo_recover.specs.Pages.{AreNotAhead, IsAheadFault, IsPageFault, AreFoundOn, ArePlacesOf};

use crate::errors::data_fault;
use crate::kept::keep_pages;
use crate::piece::read_part;
use crate::replay::Replay;
use crate::{Places, RecFault};
use model_base::Shape;
use model_log::Whole;
use redo_apply::Pages;
use redo_disk::Sectors;
use std::alloc::Global;

/// The pages of a store, and where each was found.
#[derive(Debug, Drop)]
pub(crate) struct Placed {
    pub(crate) pages: Pages,
    pub(crate) places: Places,
}

/// Whether a page has an lsn above the log's end.
fn check_ahead(pages: &Pages, shape: &Shape, end: u64) -> Result<(), RecFault>
    requires { ArePagesOf shape.now pages.now }
    ensures fine { IfOk result (λ _. AreNotAhead pages.now end) }
    ensures fault { IfErr result (IsAheadFault pages.now end) }
{
    for number in 0..shape.pages {
        let lsn = pages.lsn(number);
        if end < lsn {
            return Err(RecFault::PageAhead(number, lsn));
        }
    }
    Ok(())
}

/// Reads the pages off the data device, where the log has these groups and ends there. All are judged for being lost
/// before one is for being ahead. The slots are read once and handed on, and each place is read by itself.
pub(crate) fn read_pages<D: Sectors, P: Replay>(
    alloc: Global,
    device: &mut D,
    shape: &Shape,
    groups: &[Whole],
    end: u64,
    replay: &P,
) -> Result<Placed, RecFault>
    requires ready { P.is_ready replay.now }
    requires limits { IsWithinLimits shape.now }
    requires long { data_device_length shape.now ≤ (D.seen device.old).size }
    requires fit { All (λ whole. GroupFits shape.now whole.group) groups.now }
    requires ends { AllByRecursion (λ (whole : Whole). whole.end ≤ end) groups.now }
    requires rise { EndBehindStarts groups.now }
    ensures pages { IfOk result (λ placed. OnContent (D.seen device.new).tells
        (λ content. AreReadPages shape.now content groups.now end placed.pages)) }
    ensures found { IfOk result (λ placed. OnContent (D.seen device.new).tells
        (AreFoundOn shape.now placed.places placed.pages)) }
    ensures its_places { IfOk result (λ placed. ArePlacesOf shape.now placed.places placed.pages) }
    ensures not_ahead { IfOk result (λ placed. AreNotAhead placed.pages end) }
    ensures fault { IfErr result (IsPageFault shape.now end (D.seen device.new).tells) }
    ensures reads { IsOnlyRead D.seen D.gives device.old (data_error_of result) device.new }
{
    let slots_length = shape.slots as usize * shape.page_size as usize;
    let slots = match read_part(alloc, device, 0, slots_length) {
        Ok(slots) => slots,
        Err(error) => return Err(data_fault(error)),
    };
    let (mut pages, found) = keep_pages(alloc, device, shape, slots.as_slice())?;
    check_ahead(&pages, shape, end)?;
    replay.replay(alloc, &mut pages, groups, shape)?;
    let places = Places { slots, found };
    Ok(Placed { pages, places })
}
