// The words that the actors share, and their numbers.

/// A shared word of 64 bits. Marks and links are lsns and distances of lsns.
#[derive(Clone, Copy, Debug, PartialEq, Eq)]
pub enum Word {
    /// How many bytes of groups are reserved: the next group's sn.
    Sn,
    /// The log is written up to this lsn.
    Write,
    /// The tail of the recent-written buffer: all below it is copied into the log buffer. The word is twice the tail, and 1
    /// more while an actor holds it.
    Wtail,
    /// The log is flushed up to this lsn.
    Flushed,
    /// The newest checkpoint.
    Ckpt,
    /// The tail of the recent-closed buffer: all below it stands in the flush lists. Its word is made alike.
    Ctail,
    /// 0, or the code of a failure that ends the run.
    Failed,
    /// The turn word of the log device: 1 while an actor has the log part.
    Device,
    /// The turn word of a flush list.
    List(u32),
    /// A place of the recent-written buffer: the length of the group that starts there, as a distance of lsns, or 0.
    Wlink(u32),
    /// The same of the recent-closed buffer.
    Clink(u32),
    /// Eight bytes of the log buffer, in its lanes.
    Cell(u32),
    /// The first offset of a block in the log buffer, or 0.
    First(u32),
    /// The place of a reader of the log: 0 is the archiver's, and 1 to 4 are the followers'.
    Place(u32),
    /// A page's latch: 1 while it is held.
    Latch(u32),
    /// The end of the newest group on a page.
    Newest(u32),
    /// The start of the oldest group on a page that isn't written, or 0.
    Oldest(u32),
    /// Eight bytes of a page's frame, in its lanes.
    Frame(u32, u32),
}

/// One of the two link buffers.
#[derive(Clone, Copy, Debug, PartialEq, Eq)]
pub enum LinkBuffer {
    /// Recent-written: its tail is WTAIL, its links are WLINK.
    Written,
    /// Recent-closed: its tail is CTAIL, its links are CLINK.
    Closed,
}

/// Which words there are: those of a store of so many pages of a size in bytes.
#[derive(Clone, Copy, Debug, PartialEq, Eq)]
pub struct Layout {
    pub pages: u32,
    pub page_size: u32,
}
