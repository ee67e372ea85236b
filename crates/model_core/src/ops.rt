// What an actor asks of the words and of the devices, what it is answered, and how its step ends.
use crate::words::Word;

/// One operation of an actor.
#[derive(Clone, Copy, Debug, PartialEq, Eq)]
pub enum Op {
    /// Reads a word.
    Load(Word),
    /// Writes a word.
    Store(Word, u64),
    /// Adds to a word.
    Add(Word, u64),
    /// Writes the second number where the word is the first.
    Swap(Word, u64, u64),
    /// Takes the log part.
    TakeDevice,
    /// Gives it back.
    GiveDevice,
    /// Takes a page's flush list, and adds the page with its oldest modification.
    TakeAdd(u32, u64),
    /// Takes a page's flush list, and removes the page.
    TakeRemove(u32),
    /// Takes a flush list, and reads the oldest modification of the page that entered it first.
    TakeOldest(u32),
    /// Gives a flush list back.
    GiveList(u32),
    /// Writes the log up to a mark.
    WriteTo(u64),
    /// Flushes the log.
    Sync,
    /// Writes a checkpoint at an lsn.
    Checkpoint(u64),
    /// Reads the log's block at an lsn.
    ReadBlock(u64),
    /// Writes the cleaner's batch of pages.
    WriteBatch,
    /// Appends the block that the archiver has read to its archive, up to a mark.
    Append(u64),
    /// Does nothing: the Op of an actor that has ended.
    Rest,
}

/// What an Op is answered.
#[derive(Clone, Copy, Debug, PartialEq, Eq)]
pub enum Answer {
    /// The word before the Op.
    Old(u64),
    /// A turn word was taken or given; after `TakeOldest` with what was read.
    Taken(Option<u64>),
    /// The turn word is held by another actor.
    Held,
    /// The log part was taken, and has failed.
    Broken,
    /// A device call answered Ok: after `Sync` with the stable mark, else with 0.
    Called(u64),
    /// A device call failed, with the code for FAILED.
    Failed(u32),
    /// The answer to `Rest`.
    Rested,
}

/// How a step of an actor ends.
#[derive(Clone, Copy, Debug, PartialEq, Eq)]
pub enum Step {
    /// It did something.
    Moved,
    /// It waits.
    Idle,
    /// It has ended: all its work is done.
    Ended,
    /// It has ended by a failure of this code.
    Failed(u32),
}
