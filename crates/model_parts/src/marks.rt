// The marks of a log device, and those of its tail blocks.

/// How far the log on a device is written and stable, and its newest checkpoint. Marks are lsns.
#[derive(Clone, Copy, Debug, PartialEq, Eq)]
pub struct LogMarks {
    /// Up to here the run survives each crash.
    pub stable: u64,
    /// Up to here reads give it.
    pub written: u64,
    /// The last mark given to `write_to`, whatever it answered.
    pub given: u64,
    /// The number of the newest checkpoint that a good call made.
    pub number: u64,
    /// Its lsn.
    pub ckpt: u64,
    /// The last lsn given to `checkpoint`, whatever it answered.
    pub asked: u64,
}

/// How far the last good sync, be it a checkpoint's, made the run of a log device stay, and which tail blocks hold its end.
/// Tail blocks are numbered as blocks of the device.
#[derive(Clone, Copy, Debug, PartialEq, Eq)]
pub struct TailMarks {
    /// Up to here the run stays by the last good sync.
    pub kept: u64,
    /// The tail block that holds the incomplete block of that mark. The next version goes to the other one.
    pub tail: u64,
    /// The tail block that holds the incomplete block of the written mark.
    pub newest: u64,
}
