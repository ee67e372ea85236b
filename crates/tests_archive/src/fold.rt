// Groups of strings: their texts, and what they do to the pages of a default store, as the test itself reckons.
ghost use Rattle.std.specs.Prelude.{◌<◌, ◌≤◌};

use redo_apply::Pages;
use std::alloc::{AllocError, Global};

/// User bytes of a page.
pub const USER: usize = 4050;
/// Pages of the store.
pub const PAGES: usize = 8;

/// A group of so many records, each of which writes one byte so often.
#[derive(Clone, Copy)]
pub struct Strings {
    pub number: u8,
    pub records: u8,
    pub count: u16,
}

impl Strings {
    /// Which page the record of this number changes. A group of more than eight records writes some pages again.
    fn page(&self, record: u8) -> u8
        ensures { result < 8 }
    {
        (self.number % 8 + record % 8) % 8
    }

    /// Where its bytes begin among the user bytes of that page.
    fn offset(&self) -> u16
        ensures { result < 1000 }
    {
        61 * u16::from(self.number % 16)
    }

    /// The byte that it writes.
    fn byte(&self, record: u8) -> u8 {
        self.number.wrapping_mul(31).wrapping_add(record)
    }

    /// The text of the group in a store of this space.
    pub fn text(&self, alloc: Global, space: u8) -> Result<Vec<u8>, AllocError> {
        let kind = if self.records == 1 { 0x9e } else { 0x1e };
        let [high, low] = (38 + self.offset()).to_be_bytes();
        let [most, least] = self.count.to_be_bytes();
        let mut text = Vec::new(alloc);
        for record in 0..self.records {
            let page = self.page(record);
            text.extend_from_slice(&[kind, space, page, high, low, most, least])?;
            text.resize(text.len() + usize::from(self.count), self.byte(record))?;
        }
        if self.records > 1 {
            text.push(31)?;
        }
        Ok(text)
    }
}

/// The user bytes of all pages, joined, and the lsn of each.
#[derive(Drop)]
pub struct Fold {
    users: Vec<u8>,
    lsns: [u64; PAGES],
}

impl Fold {
    /// Pages that each hold a byte of their own all over, and were changed up to this lsn.
    pub fn opened(alloc: Global, lsn: u64) -> Result<Fold, AllocError> {
        let mut users = Vec::new(alloc);
        for page in 0..PAGES {
            users.resize(USER * (page + 1), 0xa0 + page as u8)?;
        }
        Ok(Fold {
            users,
            lsns: [lsn; PAGES],
        })
    }

    /// Applies a group that ends at this lsn.
    pub fn apply(&mut self, group: Strings, end: u64) {
        for record in 0..group.records {
            let page = usize::from(group.page(record));
            let at = USER * page + usize::from(group.offset());
            let count = usize::from(group.count);
            for byte in self.users.iter_mut().skip(at).take(count) {
                *byte = group.byte(record);
            }
            self.lsns[page] = end;
        }
    }

    /// Whether these are a store's pages.
    pub fn is(&self, pages: &Pages) -> bool {
        if pages.len() != PAGES || self.users.len() != USER * PAGES {
            return false;
        }
        for page in 0..PAGES {
            let at = USER * page;
            let user = pages.user_bytes(page as u32);
            if pages.lsn(page as u32) != self.lsns[page] || user != &self.users[at..at + USER] {
                return false;
            }
        }
        true
    }
}
