// Why a store isn't read.

/// Why the bytes of two devices are no store that can be read, in the order in which it is judged. That the log device
/// is too short for the layout that its header names is judged after the header.
#[derive(Clone, Copy, Debug, PartialEq, Eq)]
pub enum Refusal {
    /// The log device is shorter than this many bytes.
    SmallLog(u64),
    /// There is no file header.
    NotFormatted,
    /// The header is of another format, of this number.
    BadFormat(u32),
    /// The data device is shorter than this many bytes.
    SmallData(u64),
    /// Neither checkpoint block passes.
    NoCheckpoint,
    /// At this lsn stands no group that fits the store, nor the front of one at the log's end.
    BadRecord(u64),
    /// Neither the place of this page nor a copy of it passes.
    PageLost(u32),
    /// The kept page of this number has this lsn, which is above the log's end.
    PageAhead(u32, u64),
}
