// The cleaner's state.
use model_core::CleanerStep;
use std::marker::Model;

/// The cleaner: it goes round the pages, writes those whose groups are flushed in batches, and takes them out of the flush
/// lists. Contracts see its state.
#[derive(Debug, Drop)]
pub struct Cleaner {
    pub(crate) pages: u32,
    pub(crate) page_size: u32,
    pub(crate) slots: u32,
    pub(crate) flushed: u64,
    pub(crate) page: u32,
    pub(crate) left: u32,
    pub(crate) newest: u64,
    pub(crate) kept: Vec<u8>,
    // the pages of the batch with their lsns; the user bytes of each, joined; the other bytes of each, joined
    pub(crate) batch: Vec<(u32, u64)>,
    pub(crate) users: Vec<u8>,
    pub(crate) rims: Vec<u8>,
    pub(crate) code: u32,
    pub(crate) checks: bool,
    pub(crate) step: CleanerStep,
}

impl Model for Cleaner {
    ghost use Rattle.model_core.specs.{CleanerState};
    ghost use Rattle.redo_pageactors.specs.CleanerView.{cleaner_view, IsSoundCleaner};

    ghost Value = { CleanerState };

    ghost view = { cleaner_view };

    ghost invariant = { IsSoundCleaner };
}
