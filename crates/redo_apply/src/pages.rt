// The pages of a store in memory.
ghost use Rattle.std.specs.Prelude.{◌≡◌, ◌+◌, ◌≤◌, ◌<◌, ◌∷◌, [], length, slice_get, slice_set, IfOk, IfSome};
ghost use Rattle.model_base.specs.{IsWithinLimits};
ghost use Rattle.model_base.specs.declared.shape.Shape.{Shape};
ghost use Rattle.model_page.specs.{blank_pages};
ghost use Rattle.model_log.specs.{page_of};
ghost use Rattle.model_store.specs.{applied, page_after};
ghost use Rattle.redo_apply.specs.Fits.{ArePagesOf};
ghost use Rattle.redo_apply.specs.Writing.{FitsPages, WritesWithin};
ghost use Rattle.redo_apply.specs.Replay.{AreAfterWhere, HaveLsns};

use crate::record::{page_of, put_record};
use model_base::Shape;
use model_log::{Group, Rec};
use redo_lsn::NoMemory;
use std::alloc::{AllocError, Global};
use std::marker::Model;

/// The pages of a store, numbered from 0. Contracts see them as the list of what each holds. All frames stand in one
/// allocation, and only `blank` and `copy` take memory.
#[derive(Debug, Drop)]
pub struct Pages {
    // user bytes of a page
    size: usize,
    lsns: Vec<u64>,
    // the user bytes of the pages, joined
    users: Vec<u8>,
}

impl Model for Pages {
    ghost use Rattle.std.specs.Prelude.{List, ◌≡◌, ◌*◌, vec_len};
    ghost use Rattle.model_page.specs.declared.content.Content.{Content};
    ghost use Rattle.redo_apply.specs.Frames.{contents};

    ghost Value = { List Content };

    ghost view = { λ pages. contents pages.size pages.lsns.items pages.users.items };

    ghost invariant = { λ pages. vec_len pages.users ≡ pages.size * vec_len pages.lsns };
}

impl Pages {
    /// The pages of a store that was just formatted.
    pub fn blank(alloc: Global, shape: &Shape) -> Result<Pages, NoMemory>
        requires limits { IsWithinLimits shape.now }
        ensures pages { IfOk result (λ pages. pages ≡ blank_pages shape.now) }
        ensures its_pages { IfOk result (ArePagesOf shape.now) }
    {
        let size = shape.user_bytes() as usize;
        let count = shape.pages as usize;
        let lsns = vec![in alloc; 0; count]?;
        let users = vec![in alloc; 0; size * count]?;
        Ok(Pages { size, lsns, users })
    }

    /// The same pages once more.
    pub fn copy(&self, alloc: Global) -> Result<Pages, NoMemory>
        ensures { IfOk result (λ pages. pages ≡ self.now) }
    {
        let lsns = Vec::from_slice(alloc, self.lsns.as_slice())?;
        let users = Vec::from_slice(alloc, self.users.as_slice())?;
        Ok(Pages {
            size: self.size,
            lsns,
            users,
        })
    }

    /// How many pages there are.
    pub fn len(&self) -> usize
        ensures { result ≡ length self.now }
    {
        self.lsns.len()
    }

    /// The lsn of a page.
    pub fn lsn(&self, page: u32) -> u64
        requires { page < length self.now }
        ensures { IfSome (slice_get self.now page) (λ content. result ≡ content.lsn) }
    {
        self.lsns[page as usize]
    }

    /// The lsns of the pages.
    pub fn lsns(&self) -> &[u64]
        ensures { HaveLsns self.now result.now }
    {
        self.lsns.as_slice()
    }

    /// The user bytes of a page.
    pub fn user_bytes(&self, page: u32) -> &[u8]
        requires { page < length self.now }
        ensures { IfSome (slice_get self.now page) (λ content. result.now ≡ content.user) }
    {
        let at = page as usize * self.size;
        &self.users[at..at + self.size]
    }

    /// Gives a page this content.
    pub fn put(&mut self, page: u32, lsn: u64, user: &[u8])
        requires page { page < length self.old }
        requires user { IfSome (slice_get self.old page) (λ content. length user.now ≡ length content.user) }
        ensures content { self.new ≡ slice_set self.old page (record { lsn = lsn; user = user.now }) }
        ensures its_pages { (shape : Shape) → ArePagesOf shape self.old → ArePagesOf shape self.new }
    {
        let at = page as usize * self.size;
        self.users[at..at + self.size].copy_from_slice(user);
        self.lsns[page as usize] = lsn;
    }

    /// Applies one record of a group that ends at this lsn.
    fn apply_record(&mut self, rec: &Rec, end: u64)
        requires page { page_of rec.now < length self.old }
        requires within { IfSome (slice_get self.old (page_of rec.now)) (λ content. WritesWithin (length content.user) rec.now) }
        ensures { self.new ≡ applied (rec.now ∷ []) end self.old }
    {
        let page = page_of(rec) as usize;
        let at = page * self.size;
        put_record(&mut self.users[at..at + self.size], rec);
        self.lsns[page] = end;
    }

    /// Applies a group that ends at this lsn: its records are written in order, and each page that one of them names gets
    /// the end as its lsn. It costs the bytes that are written, and one pass over a page for each `Rec::Init`.
    pub fn apply(&mut self, group: &Group, end: u64)
        requires { FitsPages group.now self.old }
        ensures pages { self.new ≡ applied group.now end self.old }
        ensures its_pages { (shape : Shape) → ArePagesOf shape self.old → ArePagesOf shape self.new }
    {
        for rec in group.0.iter() {
            self.apply_record(rec, end);
        }
    }

    /// Applies to one page a group that ends at this lsn; the other pages stay.
    pub fn apply_to_page(&mut self, page: u32, group: &Group, end: u64)
        requires page { page < length self.old }
        requires fits { FitsPages group.now self.old }
        ensures content { IfSome (slice_get self.old page) (λ content. self.new ≡ slice_set self.old page (page_after page group.now end content)) }
        ensures its_pages { (shape : Shape) → ArePagesOf shape self.old → ArePagesOf shape self.new }
    {
        for rec in group.0.iter() {
            if page_of(rec) == page {
                self.apply_record(rec, end);
            }
        }
    }

    /// Applies a group with this start and this end to those pages for which an lsn is named that is at or below the start;
    /// the others stay.
    pub fn apply_where(&mut self, froms: &[u64], group: &Group, start: u64, end: u64)
        requires count { length froms.now ≡ length self.old }
        requires fits { FitsPages group.now self.old }
        ensures pages { AreAfterWhere froms.now group.now start end self.old self.new }
        ensures its_pages { (shape : Shape) → ArePagesOf shape self.old → ArePagesOf shape self.new }
    {
        for rec in group.0.iter() {
            if froms[page_of(rec) as usize] <= start {
                self.apply_record(rec, end);
            }
        }
    }
}
