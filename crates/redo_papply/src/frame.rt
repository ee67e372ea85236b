// A page in the hands of a worker.
ghost use Rattle.std.specs.Prelude.{◌<◌, ◌∷◌, [], length, IfOk};
ghost use Rattle.model_log.specs.{page_of};
ghost use Rattle.redo_apply.specs.{WritesWithin};
ghost use Rattle.redo_papply.specs.Frames.{IsAfterGroup, IsFrameOf};

use model_log::Rec;
use redo_apply::{Pages, put_record};
use redo_lsn::NoMemory;
use std::alloc::Global;

/// A page in the hands of a worker.
#[derive(Debug, Drop)]
pub(crate) struct Frame {
    /// The lsn that it had before any group was applied.
    pub(crate) from: u64,
    /// The lsn that it has.
    pub(crate) lsn: u64,
    /// Its user bytes.
    pub(crate) user: Vec<u8>,
}

impl Frame {
    /// A page to which no group was applied.
    pub(crate) fn of(alloc: Global, pages: &Pages, page: u32) -> Result<Frame, NoMemory>
        requires { page < length pages.now }
        ensures { IfOk result (IsFrameOf [] pages.now page) }
    {
        let lsn = pages.lsn(page);
        let user = Vec::from_slice(alloc, pages.user_bytes(page))?;
        Ok(Frame {
            from: lsn,
            lsn,
            user,
        })
    }

    /// Applies a record that is on this page, of a group with this start and this end, if the group may be applied to the
    /// page.
    pub(crate) fn apply(&mut self, rec: &Rec, start: u64, end: u64)
        requires { WritesWithin (length self.old.user.items) rec.now }
        ensures { IsAfterGroup (page_of rec.now) (rec.now ∷ []) start end self.old self.new }
    {
        if self.from <= start {
            put_record(self.user.as_mut_slice(), rec);
            self.lsn = end;
        }
    }
}
