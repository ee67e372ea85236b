// What is recovered of a store.
use crate::places::Places;
use model_base::Shape;
use model_log::{BlockView, Cause, Format, Whole};
use model_store::Tail;
use redo_apply::Pages;

/// What is read off the two devices of a store.
#[derive(Debug, Drop)]
pub struct Recovered {
    /// The format of the store.
    pub format: Format,
    /// Its sizes.
    pub shape: Shape,
    /// The number of the newest checkpoint.
    pub number: u64,
    /// Its lsn.
    pub ckpt: u64,
    /// The log blocks that were scanned from there on.
    pub views: Vec<BlockView>,
    /// The groups that were scanned, with their places.
    pub groups: Vec<Whole>,
    /// The lsn at which the log ends.
    pub end: u64,
    /// The lsn at which no further block was read, and why.
    pub stop: (u64, Cause),
    /// The tail block in which the last of the log blocks stands, if it stands in one.
    pub tail: Option<Tail>,
    /// The pages, with the scanned groups applied.
    pub pages: Pages,
    /// The slots, and where each page was found, before groups were applied.
    pub places: Places,
}
