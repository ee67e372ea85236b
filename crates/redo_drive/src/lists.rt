// The flush lists of a store.
ghost use Rattle.std.specs.Prelude.{◌≡◌, ◌<◌, ◌%◌, ◌+◌, IfOk};
ghost use Rattle.model_core.specs.{Each, oldest_end, oldest_of};
ghost use Rattle.model_core.specs.declared.limits.TheConstants.{CLOSED_LINKS};
ghost use Rattle.redo_drive.specs.Lists.{AreLists, added, empty_lists, lists_of, removed};

use model_core::FLUSH_LISTS;
use redo_flushlist::FlushList;
use redo_lsn::NoMemory;
use std::alloc::Global;
use std::marker::Model;

/// The flush lists. A page stands in the list of its number modulo their count. Contracts see the lists in order.
#[derive(Debug, Drop)]
pub struct FlushLists {
    pages: u32,
    lists: Vec<FlushList>,
}

impl Model for FlushLists {
    ghost use Rattle.redo_drive.specs.Lists.{Listings, AreLists};

    ghost Value = { Listings };

    ghost view = { λ own. record { pages = own.pages; lists = own.lists.items } };

    ghost invariant = { λ own. AreLists (record { pages = own.pages; lists = own.lists.items }) };
}

impl FlushLists {
    /// Empty lists, with room for each page of a store with so many.
    #[tactic(auto, using(crate::proofs::Listings::empty_are_lists))]
    pub fn new(alloc: Global, pages: u32) -> Result<FlushLists, NoMemory>
        ensures { IfOk result (λ lists. lists ≡ empty_lists pages) }
    {
        let mut lists = Vec::with_capacity(alloc, FLUSH_LISTS as usize)?;
        lists.push(FlushList::new(alloc, pages)?)?;
        lists.push(FlushList::new(alloc, pages)?)?;
        lists.push(FlushList::new(alloc, pages)?)?;
        lists.push(FlushList::new(alloc, pages)?)?;
        Ok(FlushLists { pages, lists })
    }

    /// Lists a page whose oldest modification starts at this lsn.
    pub fn add(&mut self, page: u32, oldest: u64)
        requires below { page < self.old.pages }
        requires unlisted { oldest_of page (lists_of self.old (page % FLUSH_LISTS)) ≡ 0 }
        requires order { Each (λ listed. listed.oldest < oldest + CLOSED_LINKS) (lists_of self.old (page % FLUSH_LISTS)) }
        requires real { Each (λ listed. 0 < listed.oldest) (lists_of self.old (page % FLUSH_LISTS)) }
        ensures added { self.new ≡ added self.old page oldest }
        ensures are_lists { AreLists self.old }
    {
        let list = &mut self.lists[page as usize % FLUSH_LISTS as usize];
        list.add(page, oldest);
    }

    /// Takes a page off its list.
    pub fn remove(&mut self, page: u32)
        requires { 0 < oldest_of page (lists_of self.old (page % FLUSH_LISTS)) }
        ensures removed { self.new ≡ removed self.old page }
        ensures are_lists { AreLists self.old }
    {
        let list = &mut self.lists[page as usize % FLUSH_LISTS as usize];
        list.remove(page);
    }

    /// The oldest modification of the page that entered a list first.
    pub fn oldest_end(&self, list: u32) -> Option<u64>
        requires { list < FLUSH_LISTS }
        ensures { result ≡ oldest_end (lists_of self.now list) }
    {
        self.lists[list as usize].oldest_end()
    }

    /// The lists, in their order.
    pub fn into_lists(self) -> Vec<FlushList>
        ensures lists { result.items ≡ self.lists }
        ensures are_lists { AreLists self }
    {
        let FlushLists { pages: _, lists } = self;
        lists
    }
}
