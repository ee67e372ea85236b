// The texts of a store that was read.
ghost use Rattle.std.specs.Prelude.{◌≡◌, ◌≤◌, ◌<◌, ◌+◌, ◌*◌, ◌^◌, length, take, None, Some, if◌then◌else◌, IfOk};
ghost use Rattle.model_base.specs.declared.limits.TheConstants.{BLOCK_SIZE, MAX_PAGES};
ghost use Rattle.model_report.specs.{dump_text, recover_text};
ghost use Rattle.redo_recover.specs.{reading_of};

use model_base::Bytes;
use model_page::Content;
use redo_apply::Pages;
use redo_io::Text;
use redo_lsn::NoMemory;
use redo_recover::Recovered;
use redo_report::{Listed, listing, recovery};
use std::alloc::{AllocError, Global};

/// The pages, each by itself.
pub(crate) fn contents(alloc: Global, pages: &Pages) -> Result<Vec<Content>, AllocError>
    requires { length pages.now ≤ MAX_PAGES }
    ensures { IfOk result (λ contents. contents.items ≡ pages.now) }
{
    let mut contents = Vec::new(alloc);
    for page in 0..pages.len() {
        let user = Vec::from_slice(alloc, pages.user_bytes(page as u32))?;
        contents.push(Content {
            lsn: pages.lsn(page as u32),
            user: Bytes::new(user),
        })?;
    }
    Ok(contents)
}

/// What `recover` prints of it.
pub(crate) fn reading_text(alloc: Global, recovered: &Recovered) -> Result<Text, NoMemory>
    requires { length recovered.now.pages ≤ MAX_PAGES }
    ensures { IfOk result (λ text. text ≡ recover_text (reading_of recovered.now)) }
{
    let pages = contents(alloc, &recovered.pages)?;
    recovery(
        alloc,
        recovered.groups.len(),
        recovered.end,
        pages.as_slice(),
    )
}

/// What `dump` prints of it, and where that is asked why no further block is read.
pub(crate) fn listing_of(alloc: Global, recovered: &Recovered, why: bool) -> Result<Text, NoMemory>
    requires { recovered.now.ckpt + BLOCK_SIZE * length recovered.now.views.items < 2 ^ 64 }
    ensures { IfOk result (λ text. text ≡ dump_text (if why then Some recovered.now.stop else None) (reading_of recovered.now)) }
{
    listing(
        alloc,
        &Listed {
            shape: &recovered.shape,
            number: recovered.number,
            ckpt: recovered.ckpt,
            views: recovered.views.as_slice(),
            stop: recovered.stop,
            groups: recovered.groups.as_slice(),
            end: recovered.end,
        },
        why,
    )
}
