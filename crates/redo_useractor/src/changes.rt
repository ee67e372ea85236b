// The pages that a group changes.
ghost use Rattle.std.specs.Prelude.{◌≡◌, IfOk};
ghost use Rattle.model_core.specs.{collected};
ghost use Rattle.redo_useractor.specs.Places.{page_if_touched};

use crate::written::next_page;
use model_log::Rec;
use redo_lsn::NoMemory;
use std::alloc::Global;

/// The pages that the records are on, of so many, ascending.
#[tactic(auto, using(model_core::proofs::Collected::collected_none))]
pub(crate) fn touched_pages(alloc: Global, pages: u32, recs: &[Rec]) -> Result<Vec<u32>, NoMemory>
    ensures { IfOk result (λ touched. touched.items ≡ collected (page_if_touched recs.now) pages) }
{
    let mut touched = Vec::with_capacity(alloc, recs.len().min(pages as usize))?;
    let mut page = next_page(recs, 0, pages);
    while page < pages {
        touched.push(page)?;
        page = next_page(recs, page + 1, pages);
    }
    Ok(touched)
}
