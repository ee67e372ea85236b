// Kept pages, read off the data device place by place.
ghost use Rattle.std.specs.Prelude.{List, ℕ, ◌≡◌, ◌≤◌, ◌<◌, ◌+◌, ◌*◌, length, take, OnOk, IfOk, IfErr, IfSome, MatchOption};
ghost use Rattle.model_base.specs.{IsWithinLimits, user_length};
ghost use Rattle.model_page.specs.{data_device_length, IsKept, IsLost, place_bytes};
ghost use Rattle.redo_apply.specs.{ArePagesOf};
ghost use Rattle.redo_recover.specs.Devices.{OnContent, IsOnlyRead, data_error_of};
ghost use Rattle.redo_recover.specs.Pages.{AreKept, HoldsSlots, IsFirstLostFault, IsLostFault, PutsKept, AreFoundAt, AreFoundWith, HasItsSlot, IsFoundAt, PutsFound};

use crate::errors::data_fault;
use crate::piece::read_part;
use crate::{Found, RecFault};
use model_base::Shape;
use redo_apply::Pages;
use redo_disk::Sectors;
use redo_page::{best_copy, place_lsn, user_part};
use std::alloc::Global;

/// Where a page was found, and its user bytes: what its place holds if that passes, else what the copy in the slots holds
/// that counts.
fn kept_in<'a>(
    slots: &'a [u8],
    place: &'a [u8],
    shape: &Shape,
    page: u32,
) -> Option<(Found, &'a [u8])>
    requires limits { IsWithinLimits shape.now }
    requires slots { length slots.now ≡ shape.now.slots * shape.now.page_size }
    requires place { length place.now ≡ shape.now.page_size }
    ensures kept { (image : List ℕ) → slots.now ≡ take (shape.now.slots * shape.now.page_size) image
        → place.now ≡ place_bytes shape.now page image → MatchOption result (IsLost shape.now image page)
        (λ kept. IsKept shape.now image page (record { lsn = kept.0.lsn; user = kept.1.now })) }
    ensures found { (image : List ℕ) → slots.now ≡ take (shape.now.slots * shape.now.page_size) image
        → place.now ≡ place_bytes shape.now page image → IfSome result (λ kept. IsFoundAt shape.now image page kept.0) }
    ensures slot { IfSome result (λ kept. HasItsSlot shape.now kept.0) }
    ensures long { IfSome result (λ kept. length kept.1.now ≡ user_length shape.now) }
{
    if let Some(lsn) = place_lsn(place, shape, page) {
        return Some((Found { lsn, slot: None }, user_part(place)));
    }
    let Some((slot, lsn)) = best_copy(slots, shape, page) else {
        return None;
    };
    let size = shape.page_size as usize;
    let at = slot as usize * size;
    let found = Found {
        lsn,
        slot: Some(slot),
    };
    Some((found, user_part(&slots[at..at + size])))
}

/// Reads the place of a page, puts what is kept of the page among the pages, and gives where it was found.
fn keep_page<D: Sectors>(
    alloc: Global,
    device: &mut D,
    shape: &Shape,
    slots: &[u8],
    pages: &mut Pages,
    page: u32,
) -> Result<Found, RecFault>
    requires limits { IsWithinLimits shape.now }
    requires long { data_device_length shape.now ≤ (D.seen device.old).size }
    requires count { length slots.now ≡ shape.now.slots * shape.now.page_size }
    requires slots { OnContent (D.seen device.old).tells (HoldsSlots shape.now slots.now) }
    requires page { page < shape.now.pages }
    requires its_pages { ArePagesOf shape.now pages.old }
    ensures kept { OnOk result (OnContent (D.seen device.new).tells (PutsKept shape.now page pages.old pages.new)) }
    ensures its_pages { OnOk result (ArePagesOf shape.now pages.new) }
    ensures found { IfOk result (λ found. OnContent (D.seen device.new).tells (λ content. IsFoundAt shape.now content page found)) }
    ensures puts { IfOk result (PutsFound shape.now page pages.old pages.new) }
    ensures fault { IfErr result (IsLostFault shape.now page (D.seen device.new).tells) }
    ensures reads { IsOnlyRead D.seen D.gives device.old (data_error_of result) device.new }
{
    let size = shape.page_size as usize;
    let at = u64::from(shape.slots + page) * u64::from(shape.page_size);
    let place = match read_part(alloc, device, at, size) {
        Ok(place) => place,
        Err(error) => return Err(data_fault(error)),
    };
    let Some((found, user)) = kept_in(slots, place.as_slice(), shape, page) else {
        return Err(RecFault::PageLost(page));
    };
    pages.put(page, found.lsn, user);
    Ok(found)
}

/// All pages of the store as they are kept, and where each was found, where these are the slots of its data device.
pub(crate) fn keep_pages<D: Sectors>(
    alloc: Global,
    device: &mut D,
    shape: &Shape,
    slots: &[u8],
) -> Result<(Pages, Vec<Found>), RecFault>
    requires limits { IsWithinLimits shape.now }
    requires long { data_device_length shape.now ≤ (D.seen device.old).size }
    requires count { length slots.now ≡ shape.now.slots * shape.now.page_size }
    requires slots { OnContent (D.seen device.old).tells (HoldsSlots shape.now slots.now) }
    ensures kept { IfOk result (λ kept. OnContent (D.seen device.new).tells (λ content. AreKept shape.now content kept.0)) }
    ensures its_pages { IfOk result (λ kept. ArePagesOf shape.now kept.0) }
    ensures found { IfOk result (λ kept. OnContent (D.seen device.new).tells (AreFoundAt shape.now kept.1.items)) }
    ensures lsns { IfOk result (λ kept. AreFoundWith shape.now shape.now.pages kept.1.items kept.0) }
    ensures fault { IfErr result (IsFirstLostFault shape.now (D.seen device.new).tells) }
    ensures reads { IsOnlyRead D.seen D.gives device.old (data_error_of result) device.new }
{
    let mut pages = Pages::blank(alloc, shape)?;
    let mut found = Vec::with_capacity(alloc, shape.pages as usize)?;
    for page in 0..shape.pages {
        let one = keep_page(alloc, device, shape, slots, &mut pages, page)?;
        found.push_reserved(one);
    }
    Ok((pages, found))
}
