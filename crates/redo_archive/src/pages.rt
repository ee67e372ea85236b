// The pages with which a run was opened, as an archive has them.
ghost use Rattle.std.specs.Prelude.{◌≡◌, ◌≤◌, length, map, IfSome, None, OnOk};
ghost use Rattle.model_archive.specs.{AreTexts, base_text, pages_end};
ghost use Rattle.model_archive.specs.declared.layout.TheConstants.{ARCHIVE_HEADER};
ghost use Rattle.model_base.specs.{IsWithinLimits, overwritten, user_length};
ghost use Rattle.model_page.specs.{FitsPage, page_text};
ghost use Rattle.redo_apply.specs.{ArePagesOf};
ghost use Rattle.redo_archive.specs.Part.{base_writes};
ghost use Rattle.redo_disk.specs.{HasCause, HasSize, MakesCalls, OnTold, Serve, ToWrite};

use crate::places::page_place;
use model_base::Shape;
use redo_apply::Pages;
use redo_dblwr::fill_texts;
use redo_disk::{DevError, Sectors};
use std::alloc::Global;

/// Makes these bytes the page with this number, lsn and user bytes, sealed.
fn fill_base(out: &mut [u8], shape: &Shape, page: u32, lsn: u64, user: &[u8])
    requires limits { IsWithinLimits shape.now }
    requires room { length out.old ≡ shape.now.page_size }
    requires count { length user.now ≡ user_length shape.now }
    ensures text { out.new ≡ page_text page shape.now.space lsn user.now }
    ensures fits { FitsPage page shape.now.space lsn user.now }
{
    fill_texts(out, shape, &[(page, lsn)], user);
}

/// Writes the pages side by side, each by one call.
pub(crate) fn write_base<A: Sectors>(
    alloc: Global,
    device: &mut A,
    shape: &Shape,
    pages: &Pages,
) -> Result<(), DevError>
    requires limits { IsWithinLimits shape.now }
    requires its_pages { ArePagesOf shape.now pages.now }
    requires long { pages_end shape.now ≤ (A.seen device.old).size }
    requires sized { IfSome (A.seen device.old).tells (HasSize (A.seen device.old).size) }
    ensures ok { OnOk result (AreTexts shape.now.page_size shape.now.space pages.now
        × OnTold (A.seen device.old).tells (A.seen device.new).tells
        (λ old new. new.reads ≡ overwritten ARCHIVE_HEADER (base_text 0 shape.now.space pages.now) old.reads)) }
    ensures size { (A.seen device.new).size ≡ (A.seen device.old).size }
    ensures cause { HasCause (A.seen device.old).faults (A.seen device.new).faults result }
    ensures calls { OnOk result (MakesCalls A.gives device.old device.new
        (Serve (map ToWrite (base_writes shape.now 0 pages.now)) None)) }
{
    let mut room = vec![in alloc; 0u8; shape.page_size as usize]?;
    let text = room.as_mut_slice();
    for page in 0..shape.pages {
        let user = pages.user_bytes(page);
        fill_base(text, shape, page, pages.lsn(page), user);
        device.write(page_place(shape, page), text)?;
    }
    Ok(())
}
