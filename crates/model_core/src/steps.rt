// Where each actor stands in its program. A step is named for the next Op of the actor, which is a load of FAILED first
// where the actor checks for a failure.

/// An advance of a tail: whoever makes it takes the tail's word, follows links from there on, and frees the word.
#[derive(Clone, Copy, Debug, PartialEq, Eq)]
pub enum AdvanceStep {
    /// Loads the tail's word, which may be held.
    LoadTail,
    /// Takes it by a compare-exchange, from free to held.
    TakeTail,
    /// Loads the link at its place.
    LoadLink,
    /// Clears the link that it has found; its place goes on.
    ClearLink,
    /// Stores its place as the tail, free.
    FreeTail,
}

/// A user's steps.
#[derive(Clone, Copy, Debug, PartialEq, Eq)]
pub enum UserStep {
    /// Loads CKPT, for its check of free space.
    LoadCheckpoint,
    /// Loads SN, for that check.
    LoadSn,
    /// Takes the latch of the page that it is at.
    TakeLatch,
    /// Adds to SN: the group has its place.
    Reserve,
    /// Loads WRITE, and waits for room in the log buffer.
    LoadWrite,
    /// Adds the next bytes of its group, as many as stand in one word, in their lanes.
    AddCell,
    /// Stores the first offset of the block in which its group ends.
    StoreFirst,
    /// Loads WTAIL: does the recent-written buffer have room?
    LoadWtail,
    /// Advances WTAIL, where the buffer has no room.
    AdvanceWritten(AdvanceStep),
    /// Loads WTAIL again, and waits for room where it hasn't moved.
    ReloadWtail,
    /// Stores the group's link: the group is copied.
    StoreLink,
    /// Loads CTAIL: does the recent-closed buffer have room?
    LoadCtail,
    /// Advances CTAIL, where the buffer has no room.
    AdvanceClosed(AdvanceStep),
    /// Loads CTAIL again, and waits for room where it hasn't moved.
    ReloadCtail,
    /// Loads the next word of the page's frame that the group changes.
    LoadFrame,
    /// Stores that word, with the bytes that the group changes there.
    StoreFrame,
    /// Stores the group's end into NEWEST of that page.
    StoreNewest,
    /// Loads OLDEST: is that page in its flush list already?
    LoadOldest,
    /// Adds the page, which isn't, to its flush list.
    AddToList,
    /// Stores the group's start into OLDEST of that page.
    StoreOldest,
    /// Gives the flush list back.
    GiveList,
    /// Stores the group's link: all its pages are in the flush lists.
    StoreClosedLink,
    /// Releases the latch of the page that it is at.
    ReleaseLatch,
    /// Waits for FLUSHED or WRITE, as its line's mode asks.
    AwaitMark,
    /// Has ended: all its commits are answered.
    Done,
    /// Has ended by a failure.
    Failed,
}

/// The writer's steps.
#[derive(Clone, Copy, Debug, PartialEq, Eq)]
pub enum WriterStep {
    /// Advances WTAIL; it goes on with the tail that it finds or leaves.
    Advance(AdvanceStep),
    /// Loads CKPT, and waits for room in the log.
    LoadCheckpoint,
    /// Loads the first offset of the block that it enters.
    LoadFirst,
    /// Clears that first offset.
    ClearFirst,
    /// Loads the word of its read place.
    LoadCell,
    /// Clears the word that it has loaded, where all its bytes are below the tail.
    ClearCell,
    /// Takes DEVICE, to write.
    TakeDevice,
    /// Gives the log part back, which has failed.
    GiveBroken,
    /// Writes what it has read.
    WriteTo,
    /// Stores the written mark into WRITE.
    StoreWrite,
    /// Gives DEVICE back after a write.
    GiveDevice,
    /// Stores the code of a write that failed into FAILED.
    StoreFailed,
    /// Gives the log part back after that.
    GiveFailed,
    /// Has ended by a failure.
    Failed,
}

/// The flusher's steps.
#[derive(Clone, Copy, Debug, PartialEq, Eq)]
pub enum FlusherStep {
    /// Loads WRITE, and waits for something to flush.
    LoadWrite,
    /// Takes DEVICE, to flush.
    TakeDevice,
    /// Gives the log part back, which has failed.
    GiveBroken,
    /// Flushes what is written.
    Sync,
    /// Stores the stable mark into FLUSHED.
    StoreFlushed,
    /// Gives DEVICE back after a flush.
    GiveDevice,
    /// Stores the code of a flush that failed into FAILED.
    StoreFailed,
    /// Gives the log part back after that.
    GiveFailed,
    /// Has ended by a failure.
    Failed,
}

/// The closer's steps.
#[derive(Clone, Copy, Debug, PartialEq, Eq)]
pub enum CloserStep {
    /// Advances CTAIL.
    Advance(AdvanceStep),
    /// Has ended by a failure.
    Failed,
}

/// The cleaner's steps.
#[derive(Clone, Copy, Debug, PartialEq, Eq)]
pub enum CleanerStep {
    /// Begins a round with a load of FLUSHED.
    LoadFlushed,
    /// Loads OLDEST of the page that it is at.
    LoadOldest,
    /// Tries the page's latch; a held page is skipped.
    TakeLatch,
    /// Loads NEWEST of that page.
    LoadNewest,
    /// Releases the page's latch: a group on it isn't flushed.
    ReleaseSkipped,
    /// Loads the page's next eight bytes.
    LoadFrame,
    /// Writes the batch.
    WriteBatch,
    /// Removes the batch's first page from its flush list.
    RemoveFromList,
    /// Clears OLDEST of the batch's first page.
    ClearOldest,
    /// Gives the flush list back.
    GiveList,
    /// Releases that page's latch; the page leaves the batch.
    ReleaseLatch,
    /// Stores the code of a write that failed into FAILED.
    StoreFailed,
    /// Has ended by a failure.
    Failed,
}

/// The checkpointer's steps.
#[derive(Clone, Copy, Debug, PartialEq, Eq)]
pub enum CheckpointerStep {
    /// Begins a round with the first bound, CTAIL.
    LoadCtail,
    /// Loads the place of the next reader of the log.
    LoadPlace,
    /// Takes the next flush list, and reads its oldest modification.
    ReadList,
    /// Gives that list back.
    GiveList,
    /// Loads the last bound, FLUSHED.
    LoadFlushed,
    /// Takes DEVICE, to write a checkpoint.
    TakeDevice,
    /// Gives the log part back, which has failed.
    GiveBroken,
    /// Writes a checkpoint at the candidate.
    Checkpoint,
    /// Stores the candidate into CKPT.
    StoreCheckpoint,
    /// Gives DEVICE back after a checkpoint.
    GiveDevice,
    /// Stores the code of a checkpoint that failed into FAILED.
    StoreFailed,
    /// Gives the log part back after that.
    GiveFailed,
    /// Has ended by a failure.
    Failed,
}

/// The steps of a reader of the log: the archiver or a follower.
#[derive(Clone, Copy, Debug, PartialEq, Eq)]
pub enum ReaderStep {
    /// Loads FLUSHED, and waits for something flushed that it hasn't got.
    LoadFlushed,
    /// Takes DEVICE, to read.
    TakeDevice,
    /// Gives the log part back, which has failed.
    GiveBroken,
    /// Reads the next block that it needs.
    ReadBlock,
    /// Gives DEVICE back after a read; then a follower has what the block holds for it.
    GiveDevice,
    /// Appends that block to the archive, up to the next block's first data byte; only the archiver does.
    Append,
    /// Stores its place, where that has moved.
    StorePlace,
    /// Stores the code of a read that failed into FAILED.
    StoreFailed,
    /// Gives the log part back after that.
    GiveFailed,
    /// Stores the code of an append that failed into FAILED.
    StoreLost,
    /// Has ended by a failure.
    Failed,
}
