// A page that is read, and what a read came to. No value of these is made.
use std::collections::LinkedList;

/// A page that is being read: its number, NEWEST as it was loaded first, the words of its frame that were loaded since, and the
/// lsn as of which it is read. It may have been seen free behind all those words.
#[derive(Drop)]
pub struct Glance {
    pub page: u64,
    pub newest: u64,
    pub words: LinkedList<u64>,
    pub upto: u64,
    pub seen_free: bool,
}

/// A page that was read: its number, the lsn as of which it was read, and its user bytes.
#[derive(Drop)]
pub struct PageRead {
    pub page: u64,
    pub lsn: u64,
    pub bytes: LinkedList<u8>,
}

/// What a read came to: a page that was read, or the code of a failure.
#[derive(Drop)]
pub enum ReadEnd {
    Page(PageRead),
    Failed(u64),
}
