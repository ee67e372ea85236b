// When a group may be applied to the pages of a store.
ghost use Rattle.std.specs.Prelude.{◌↔◌, ◌<◌, ◌^◌, IsTrue};
ghost use Rattle.model_log.specs.{GroupFits, IsPage, IsUserWrite, RecordFits};

use model_base::USER_START;
use model_log::{Group, Rec};
use redo_lsn::Shape;

/// Bytes at a page's end that are no user bytes.
const TRAILER: u32 = 8;

/// What is asked of a group before it is applied.
pub trait Fits {
    /// Whether each record names a page of the store and writes user bytes, and each number has room in its width.
    fn fits(&self, shape: &Shape) -> bool;
}

impl Fits for Group {
    fn fits(&self, shape: &Shape) -> bool
        ensures { IsTrue result ↔ GroupFits shape.now self.now }
    {
        self.0.iter().all(|rec| record_fits(rec, shape))
    }
}

fn record_fits(rec: &Rec, shape: &Shape) -> bool
    ensures { IsTrue result ↔ RecordFits shape.now rec.now }
{
    match rec {
        Rec::Num {
            width,
            space,
            page,
            offset,
            value,
        } => {
            is_page(shape, *space, *page)
                && has_room(*width, *value)
                && is_user_write(shape, *offset, *width as usize)
        }
        Rec::Text {
            space,
            page,
            offset,
            bytes,
        } => is_page(shape, *space, *page) && is_user_write(shape, *offset, bytes.len()),
        Rec::Init { space, page } => is_page(shape, *space, *page),
    }
}

fn is_page(shape: &Shape, space: u32, page: u32) -> bool
    ensures { IsTrue result ↔ IsPage shape.now space page }
{
    space == shape.space && page < shape.pages
}

fn has_room(width: u32, value: u64) -> bool
    ensures { IsTrue result ↔ (value < 256 ^ width) }
{
    match 256u64.checked_pow(width) {
        Some(limit) => value < limit,
        None => true,
    }
}

fn is_user_write(shape: &Shape, offset: u32, count: usize) -> bool
    ensures { IsTrue result ↔ IsUserWrite shape.now offset count }
{
    let end = shape.page_size.saturating_sub(TRAILER) as usize;
    match end.checked_sub(count) {
        Some(last) => USER_START <= offset && offset as usize <= last,
        None => false,
    }
}
