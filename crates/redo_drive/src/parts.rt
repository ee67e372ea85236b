// What the actors of a store share.
use crate::lists::FlushLists;
use redo_disk::Sectors;
use redo_logdev::LogPart;
use redo_store::DataPart;
use redo_words::PlainWords;

/// The words, both device parts, and the flush lists.
#[derive(Drop)]
pub struct Parts<L: Sectors, D: Sectors> {
    pub words: PlainWords,
    pub log: LogPart<L>,
    pub store: DataPart<D>,
    pub lists: FlushLists,
}
