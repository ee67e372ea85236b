// Why a commit isn't answered, or a page isn't read.
use model_script::Misfit;
use thiserror::Error;

/// Why a commit isn't answered, or a page isn't read.
#[derive(Clone, Copy, Debug, PartialEq, Eq, Error)]
pub enum Refused {
    /// A quantity of it doesn't fit the store. The user is as it was.
    #[error("a quantity of the group doesn't fit the store")]
    Unfit(Misfit),
    /// The groups of its user have no room for it. The user is as it was.
    #[error("the user's groups have no room for another one")]
    Full,
    /// Memory ran out. The user is as it was.
    #[error("out of memory")]
    NoMemory,
    /// The log runs alone, so no page has what was committed. A commit isn't refused so.
    #[error("the log runs alone, so there are no pages")]
    LogOnly,
    /// The run has failed with this code. The user of a commit has failed with it: its group may be in the log or not, and each
    /// later commit of the user is refused so. A page is refused so where it couldn't be read at once: it may be free later.
    #[error("the run has failed with code {0}")]
    Device(u32),
}
