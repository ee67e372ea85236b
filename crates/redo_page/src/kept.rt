// Which bytes of an image of the data device a page's content is read from.
ghost use Rattle.std.specs.Prelude.{◌≡◌, ◌+◌, ◌*◌, ◌≤◌, ◌<◌, length, IfOk, MatchOption};
ghost use Rattle.model_base.specs.{frame_length, IsWithinLimits};
ghost use Rattle.model_page.specs.{data_device_length, HasNoCopy, IsBestCopy, IsKept, IsLost, stretch_at, user_part};

use crate::state::{copy_lsn, place_lsn};
use crate::text::user_part;
use model_base::{Bytes, Shape};
use model_page::Content;
use std::alloc::{AllocError, Global};

/// The n-th stretch of page size on the device: the slots come first, and then the places.
#[tactic(auto, unfolding(model_page::specs::Page::stretch_at))]
fn stretch_at<'a>(image: &'a [u8], shape: &Shape, n: u32) -> &'a [u8]
    requires limits { IsWithinLimits shape.now }
    requires inside { (n + 1) * shape.now.page_size ≤ length image.now }
    ensures bytes { result.now ≡ stretch_at shape.now n image.now }
    ensures whole { length result.now ≡ shape.now.page_size }
{
    let size = shape.page_size as usize;
    let start = n as usize * size;
    &image[start..start + size]
}

/// The slot and the lsn of the copy of a page that counts: of those that pass the one with the greatest lsn, in the
/// lowest slot on a tie. Of the image the slots are enough.
pub fn best_copy(image: &[u8], shape: &Shape, page: u32) -> Option<(u32, u64)>
    requires limits { IsWithinLimits shape.now }
    requires slots { shape.now.slots * shape.now.page_size ≤ length image.now }
    ensures { MatchOption result (HasNoCopy shape.now image.now page)
        (λ best. IsBestCopy shape.now image.now page best.0 best.1) }
{
    let mut best: Option<(u32, u64)> = None;
    for slot in 0..shape.slots {
        if let Some(lsn) = copy_lsn(stretch_at(image, shape, slot), shape, page)
            && best.is_none_or(|(_, greatest)| greatest < lsn)
        {
            best = Some((slot, lsn));
        }
    }
    best
}

/// The user bytes of a page.
fn user_bytes(alloc: Global, page: &[u8]) -> Result<Bytes, AllocError>
    requires { frame_length ≤ length page.now }
    ensures { IfOk result (λ user. user ≡ user_part page.now) }
{
    Ok(Bytes::new(user_part(page).to_vec(alloc)?))
}

/// What a page holds: what its place holds if that passes, else what the copy that counts holds; `None` where neither
/// passes.
pub fn kept_page(
    alloc: Global,
    image: &[u8],
    shape: &Shape,
    page: u32,
) -> Result<Option<Content>, AllocError>
    requires limits { IsWithinLimits shape.now }
    requires device { data_device_length shape.now ≤ length image.now }
    requires page { page < shape.now.pages }
    ensures { IfOk result (λ found. MatchOption found (IsLost shape.now image.now page)
        (λ kept. IsKept shape.now image.now page kept)) }
{
    let place = shape.slots + page;
    let (n, lsn) = match place_lsn(stretch_at(image, shape, place), shape, page) {
        Some(lsn) => (place, lsn),
        None => match best_copy(image, shape, page) {
            Some(best) => best,
            None => return Ok(None),
        },
    };
    let user = user_bytes(alloc, stretch_at(image, shape, n))?;
    Ok(Some(Content { lsn, user }))
}
