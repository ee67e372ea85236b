// The words of a call.

/// The number of turns where none is asked for.
pub const DEFAULT_TURNS: u64 = 100_000_000;
/// The greatest number of turns.
pub const MAX_TURNS: u64 = 1_000_000_000_000_000_000;
/// The greatest number of groups that `gen` makes.
pub const MAX_GENERATED: u64 = 1_000_000;
/// The greatest number of workers that apply the groups of a log.
pub const MAX_WORKERS: u32 = 16;
/// The greatest number of followers.
pub const MAX_FOLLOWERS: u32 = 4;

/// An option of some command.
#[derive(Clone, Copy, Debug, PartialEq, Eq)]
pub enum Name {
    Archive,
    Files,
    Followers,
    LogBlocks,
    LogOnly,
    Max,
    OwnWrites,
    PageSize,
    Pages,
    Pick,
    Run,
    Space,
    StopData,
    StopLog,
    Threads,
    To,
    Turns,
    Why,
    Workers,
}

/// An option that was given, with its number if it takes one.
#[derive(Clone, Copy, Debug, PartialEq, Eq)]
pub struct Given {
    pub name: Name,
    pub number: Option<u64>,
}

/// What one word says by itself.
#[derive(Clone, Copy, Debug, PartialEq, Eq)]
pub enum Word {
    /// An option that takes no number.
    Flag(Name),
    /// An option whose number is the next word.
    Open(Name),
    /// An option and its number, with `=` between them.
    Joined(Name, u64),
    /// A number that belongs to no option.
    Value(u64),
    /// `--`: the words after it are no options.
    End,
}

/// What the next word is expected to be.
#[derive(Clone, Copy, Debug, PartialEq, Eq)]
pub enum Expected {
    /// An option or a number by itself.
    Any,
    /// The number of this option.
    Number(Name),
    /// A number by itself: the words stand after `--`.
    Numbers,
}
