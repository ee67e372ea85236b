// A flush list.
ghost use Rattle.std.specs.Prelude.{◌≡◌, ◌<◌, ◌++◌, ◌∷◌, [], None, All, IfOk, IsSome};
ghost use Rattle.redo_flushlist.specs.Order.{without_page};
ghost use Rattle.redo_flushlist.specs.InOrder.{IsInOrder, MayFollow, first_oldest, listed_oldest};

use crate::Dirty;
use redo_lsn::NoMemory;
use std::alloc::Global;
use std::marker::Model;

/// A flush list. Contracts see the listed pages in order of entry, and how many pages the store has. Only `new` takes
/// memory.
#[derive(Debug, Drop)]
pub struct FlushList {
    pages: u32,
    entries: Vec<Dirty>,
}

impl Model for FlushList {
    ghost use Rattle.std.specs.Prelude.{◌≤◌, vec_capacity};
    ghost use Rattle.redo_flushlist.specs.Order.{Listing};
    ghost use Rattle.redo_flushlist.specs.InOrder.{IsInOrder};

    ghost Value = { Listing };

    ghost view = { λ list. record { pages = list.pages; entries = list.entries.items } };

    ghost invariant = { λ list. IsInOrder (record { pages = list.pages; entries = list.entries.items }) × (list.pages ≤ vec_capacity list.entries) };
}

impl FlushList {
    /// An empty list, with room for each page of a store with so many pages.
    pub fn new(alloc: Global, pages: u32) -> Result<FlushList, NoMemory>
        ensures { IfOk result (λ list. list ≡ record { pages = pages; entries = [] }) }
    {
        let entries = Vec::with_capacity(alloc, pages as usize)?;
        Ok(FlushList { pages, entries })
    }

    /// Lists a page whose oldest change starts at this lsn.
    pub fn add(&mut self, page: u32, oldest: u64)
        requires below { page < self.old.pages }
        requires unlisted { listed_oldest self.old.entries page ≡ None }
        requires order { All (λ earlier. MayFollow earlier (record { page = page; oldest = oldest })) self.old.entries }
        ensures { self.new ≡ record { pages = self.old.pages; entries = self.old.entries ++ (record { page = page; oldest = oldest }) ∷ [] } }
    {
        match self.entries.push(Dirty { page, oldest }) {
            Ok(()) => (),
            Err(_) => unreachable!(),
        }
    }

    /// Takes a page off the list.
    pub fn remove(&mut self, page: u32)
        requires { IsSome (listed_oldest self.old.entries page) }
        ensures { self.new ≡ record { pages = self.old.pages; entries = without_page page self.old.entries } }
    {
        self.entries.retain(|dirty| dirty.page != page);
    }

    /// The oldest lsn of the page that entered first. Every listed oldest lsn is above it, or at most the bound below.
    pub fn oldest_end(&self) -> Option<u64>
        ensures oldest { result ≡ first_oldest self.now.entries }
        ensures order { IsInOrder self.now }
    {
        self.entries.first().map(|dirty| dirty.oldest)
    }

    /// The oldest lsn of a page, if it is listed.
    pub fn listed(&self, page: u32) -> Option<u64>
        ensures { result ≡ listed_oldest self.now.entries page }
    {
        let dirty = self.entries.iter().find(|dirty| dirty.page == page)?;
        Some(dirty.oldest)
    }
}
