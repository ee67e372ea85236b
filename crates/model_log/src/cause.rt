// Why no further block is read.
use crate::Fit;

/// Why no block is read after the ones that are.
#[derive(Clone, Copy, Debug, PartialEq, Eq)]
pub enum Cause {
    /// The last of them isn't full.
    Partial,
    /// They are as many as the ring has.
    Round,
    /// The next one's lsn is the limit or above.
    End,
    /// What stands in the next one's place isn't read: it is no block of its lsn, or in format 2 one that isn't full.
    Misfit(Fit),
}
