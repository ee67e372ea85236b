// Where the last block of a log was found.

/// A tail block of a log device in which the scan found the last block of the log.
#[derive(Clone, Copy, Debug, PartialEq, Eq)]
pub struct Tail {
    /// The number of the tail block on the device.
    pub which: u64,
    /// The lsn of the block that it holds.
    pub lsn: u64,
}
