// A store of an earlier format gets the slots and places of a run, and then its headers.
ghost use Rattle.std.specs.Prelude.{◌≡◌, ◌≤◌, ◌<◌, ◌==◌, ◌&&◌, length};
ghost use Rattle.model_base.specs.{IsEarly, IsWithinLimits, run_shape, user_length};
ghost use Rattle.model_device.specs.{IsWithin};
ghost use Rattle.model_log.specs.declared.layout.TheConstants.{HEADER_BYTES};
ghost use Rattle.model_page.specs.{data_device_length, is_blank};
ghost use Rattle.redo_apply.specs.{ArePagesOf};
ghost use Rattle.redo_disk.specs.{error_of, MakesCalls};
ghost use Rattle.redo_open.specs.Enlarge.{EnlargeStep, HeadStep, IsPlaceText, WritesPlace};
ghost use Rattle.redo_open.specs.Puts.{PutsWhere};
ghost use Rattle.redo_open.specs.Zeroing.{zeros};

use crate::put::put_head;
use crate::zeros::erase;
use model_base::{PAGE_SIZE, Shape};
use redo_apply::Pages;
use redo_dblwr::{fill_texts, place_at};
use redo_disk::{DevError, Sectors};

/// Bytes of a page of each earlier format.
const PAGE: usize = PAGE_SIZE as usize;

/// As many zeros as a page has bytes.
fn zero_page() -> [u8; PAGE]
    ensures { result ≡ zeros PAGE }
{
    [0; PAGE]
}

/// Whether all bytes are 0.
fn are_zeros(bytes: &[u8]) -> bool
    ensures { result ≡ is_blank bytes.now }
{
    bytes.iter().all(|byte| *byte == 0)
}

/// Whether a page with this lsn and these user bytes was never written.
fn is_blank(lsn: u64, user: &[u8]) -> bool
    ensures { result ≡ (lsn == 0 && is_blank user.now) }
{
    lsn == 0 && are_zeros(user)
}

/// What goes into the place of a page: zeros if it was never written, else its text.
fn place_text(shape: &Shape, page: u32, lsn: u64, user: &[u8]) -> [u8; PAGE]
    requires limits { IsWithinLimits shape.now }
    requires size { shape.now.page_size ≡ PAGE }
    requires page { page < shape.now.pages }
    requires user { length user.now ≡ user_length shape.now }
    ensures { IsPlaceText shape.now page (record { lsn = lsn; user = user.now }) result }
{
    let mut text = zero_page();
    if is_blank(lsn, user) {
        return text;
    }
    fill_texts(&mut text, shape, &[(page, lsn)], user);
    text
}

/// Writes a page into its place.
fn write_place<D: Sectors>(
    device: &mut D,
    shape: &Shape,
    page: u32,
    lsn: u64,
    user: &[u8],
) -> Result<(), DevError>
    requires limits { IsWithinLimits shape.now }
    requires size { shape.now.page_size ≡ PAGE }
    requires page { page < shape.now.pages }
    requires long { data_device_length shape.now ≤ (D.seen device.old).size }
    requires user { length user.now ≡ user_length shape.now }
    ensures step { WritesPlace shape.now page (record { lsn = lsn; user = user.now }) (D.seen device.old) result (D.seen device.new) }
    ensures calls { MakesCalls D.gives device.old device.new (PutsWhere (IsWithin (data_device_length shape.now)) (error_of result)) }
{
    let text = place_text(shape, page, lsn, user);
    device.write(place_at(shape, page), &text)
}

/// Fills the slots of a run with zeros that aren't among the old slots and places, writes each page into its place of a run,
/// pages that were never written too, and makes all of it stay. The old slots and places are as they were.
pub(crate) fn enlarge<D: Sectors>(
    device: &mut D,
    shape: &Shape,
    pages: &Pages,
) -> Result<(), DevError>
    requires limits { IsWithinLimits shape.now }
    requires early { IsEarly shape.now }
    requires long { data_device_length (run_shape shape.now) ≤ (D.seen device.old).size }
    requires pages { ArePagesOf shape.now pages.now }
    ensures step { EnlargeStep shape.now pages.now (D.seen device.old) result (D.seen device.new) }
    ensures calls { MakesCalls D.gives device.old device.new
        (PutsWhere (IsWithin (data_device_length (run_shape shape.now))) (error_of result)) }
{
    let run = shape.run_shape();
    // What the device tells is as long as it says.
    let _size = device.len();
    let from = u64::from(shape.slots + shape.pages) * u64::from(shape.page_size);
    let end = u64::from(run.slots) * u64::from(run.page_size);
    erase(device, from, end)?;
    for page in 0..run.pages {
        write_place(device, &run, page, pages.lsn(page), pages.user_bytes(page))?;
    }
    device.sync()
}

/// Puts the header of a run into its two blocks, into the first one last: until that stays, the store is one of the format that
/// was found.
pub(crate) fn put_run_heads<L: Sectors>(log: &mut L, shape: &Shape) -> Result<(), DevError>
    requires { HEADER_BYTES ≤ (L.seen log.old).size }
    ensures step { HeadStep shape.now (L.seen log.old) result (L.seen log.new) }
    ensures calls { MakesCalls L.gives log.old log.new (PutsWhere (IsWithin HEADER_BYTES) (error_of result)) }
{
    let run = shape.run_shape();
    put_head(log, 2, &run)?;
    put_head(log, 0, &run)
}
