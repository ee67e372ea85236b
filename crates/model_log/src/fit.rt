// Whether 512 bytes are a block.

/// Whether 512 bytes are a block of an lsn, and else what of them doesn't fit: the first in this order.
#[derive(Clone, Copy, Debug, PartialEq, Eq)]
pub enum Fit {
    /// They are.
    Whole,
    /// The number isn't that of the lsn.
    Number,
    /// The length isn't one of a block.
    Length,
    /// The first group begins where no data is in use.
    First,
    /// The last four bytes aren't the checksum of those before.
    Checksum,
}
