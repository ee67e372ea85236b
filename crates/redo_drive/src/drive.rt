// How a run ends, and what it leaves.
use crate::closed::Closed;
use redo_disk::Sectors;

/// How a run ends.
#[derive(Clone, Copy, Debug, PartialEq, Eq)]
pub enum RunEnd {
    /// Each user has ended.
    Done,
    /// So many turns are spent, and this is the least user that hasn't ended.
    Spent { turns: u64, user: u32 },
}

/// A run that was driven: how it ended, and what it leaves.
#[derive(Drop)]
pub struct Driven<L: Sectors, D: Sectors> {
    pub ended: RunEnd,
    pub closed: Closed<L, D>,
}
