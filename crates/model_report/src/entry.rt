// The entries of a history.
use std::marker::Model;

/// How a group's commit stands at the end of a run.
#[derive(Clone, Copy, Debug, PartialEq, Eq)]
pub enum State {
    /// Its user ended by a failure before the commit was answered.
    Lost,
    /// Its end is at or below the flushed mark.
    Flushed,
    /// Its end is at or below the written mark, and above the flushed one.
    Written,
    /// Its end is above the written mark.
    Copied,
}

/// A group that was reserved in a run.
#[derive(Clone, Copy, Debug, PartialEq, Eq)]
pub struct Entry {
    /// The number of its user.
    pub user: u32,
    /// Its index among the user's groups, from 0.
    pub k: u64,
    /// The lsn at which it starts.
    pub start: u64,
    /// The lsn at which it ends.
    pub end: u64,
    pub state: State,
}

/// The groups of a run in lsn order. Contracts see it as the list of them.
#[derive(Debug, Drop)]
pub struct History(pub Vec<Entry>);

impl Model for History {
    ghost use Rattle.std.specs.Prelude.{List};
    ghost use Rattle.model_report.specs.declared.entry.Entry.{Entry};

    ghost Value = { List Entry };

    ghost view = { λ history. history.0.items };
}

/// The marks of a run, as lsns.
#[derive(Clone, Copy, Debug, PartialEq, Eq)]
pub struct Marks {
    /// The tail of the recent-written link buffer: all below it is copied.
    pub wtail: u64,
    /// All below it is written.
    pub write: u64,
    /// All below it is flushed.
    pub flushed: u64,
    /// The newest checkpoint.
    pub ckpt: u64,
}

/// What a follower came to: its number, how many groups it handed on, modulo 2^64, up to which lsn, and the CRC-32C of
/// their joined texts.
#[derive(Clone, Copy, Debug, PartialEq, Eq)]
pub struct Followed {
    pub number: u32,
    pub count: u64,
    pub lsn: u64,
    pub crc: u32,
}
