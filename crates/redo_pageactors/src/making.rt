// The actors of the pages as a run begins.
ghost use Rattle.std.specs.Prelude.{◌≡◌, ◌≤◌, IfOk};
ghost use Rattle.model_base.specs.{IsWithinLimits};
ghost use Rattle.model_core.specs.{new_checkpointer, new_cleaner};
ghost use Rattle.model_core.specs.declared.limits.TheConstants.{READERS};

use crate::batch::RIM;
use crate::checkpointer::Checkpointer;
use crate::cleaner::Cleaner;
use model_base::Shape;
use model_core::{CheckpointerStep, CleanerStep};
use model_log::BLOCK_HEADER;
use redo_lsn::NoMemory;
use std::alloc::Global;

impl Cleaner {
    /// The cleaner of a store of this shape. It takes the room for a batch, which has a page for each slot.
    pub fn new(alloc: Global, shape: &Shape) -> Result<Cleaner, NoMemory>
        requires { IsWithinLimits shape.now }
        ensures { IfOk result (λ cleaner. cleaner ≡ new_cleaner shape.now.pages shape.now.page_size shape.now.slots) }
    {
        let page = shape.page_size as usize;
        let most = shape.slots as usize;
        let kept = Vec::with_capacity(alloc, page)?;
        let batch = Vec::with_capacity(alloc, most)?;
        let users = Vec::with_capacity(alloc, most * (page - RIM))?;
        let rims = Vec::with_capacity(alloc, most * RIM)?;
        Ok(Cleaner {
            pages: shape.pages,
            page_size: shape.page_size,
            slots: shape.slots,
            flushed: 0,
            page: 0,
            left: 0,
            newest: 0,
            kept,
            batch,
            users,
            rims,
            code: 0,
            checks: false,
            step: CleanerStep::LoadFlushed,
        })
    }
}

impl Checkpointer {
    /// The checkpointer of a run that starts at this lsn, with the readers from the first number up to the last; the
    /// newest checkpoint stands at the block of that lsn.
    pub fn new(start: u64, first: u32, last: u32) -> Checkpointer
        requires { first ≤ last × last ≤ READERS }
        ensures { result ≡ new_checkpointer start first last }
    {
        Checkpointer {
            own: start.saturating_sub(BLOCK_HEADER),
            ctail: 0,
            flushed: 0,
            to: 0,
            list: 0,
            first,
            last,
            reader: 0,
            code: 0,
            checks: false,
            step: CheckpointerStep::LoadCtail,
        }
    }
}
