// What is restored, or why nothing is.
ghost use Rattle.std.specs.Prelude.{◌≡◌};
ghost use Rattle.redo_archive.specs.declared.restored.RestoreFault.TheVariants.{NoMemory};
ghost use Rattle.redo_archive.specs.Restoring.{restore_fault};

use redo_apply::Pages;
use redo_disk::DevError;
use redo_lsn::NoMemory;
use std::alloc::{AllocError, AllocFailed};
use thiserror::Error;

/// What is restored for an lsn.
#[derive(Debug, Drop)]
pub struct Restored {
    /// How many groups end at or below it.
    pub n: u64,
    /// Where the last of them ends, or the run's start.
    pub end: u64,
    /// The archived pages with these groups applied.
    pub pages: Pages,
}

/// Why nothing is restored for an lsn, in the order in which it is judged. A device's failure is answered at the call
/// that fails.
#[derive(Clone, Copy, Debug, PartialEq, Eq, Error)]
pub enum RestoreFault {
    /// There is no archive: the device has no room for a head and marks, its head doesn't pass, no mark does, or it is
    /// shorter than they ask.
    #[error("there is no archive")]
    Missing,
    /// The archive doesn't reach to this lsn.
    #[error("the archive doesn't reach to the lsn {0}")]
    To(u64),
    /// The page of this number doesn't pass.
    #[error("page {0} of the archive doesn't pass")]
    Page(u32),
    /// The block at this lsn doesn't fit, or is too short for the mark.
    #[error("no block of the archive stands at the lsn {0}")]
    Block(u64),
    /// At this lsn stands no group that fits the store, nor the front of one at the mark.
    #[error("no group stands at the lsn {0}")]
    Record(u64),
    /// The device failed.
    #[error("the archive device failed")]
    Dev,
    /// Memory ran out, of the program or of the device.
    #[error("out of memory")]
    NoMemory,
}

impl From<DevError> for RestoreFault {
    ghost from_gives = { λ error fault. fault ≡ restore_fault error };

    fn from(error: DevError) -> Self {
        match error {
            DevError::Failed => RestoreFault::Dev,
            DevError::NoMemory => RestoreFault::NoMemory,
        }
    }
}

impl From<AllocError> for RestoreFault {
    ghost from_gives = { λ _ fault. fault ≡ NoMemory };

    fn from(_: AllocError) -> Self {
        RestoreFault::NoMemory
    }
}

impl<T: Drop> From<AllocFailed<T>> for RestoreFault {
    ghost from_gives = { λ _ fault. fault ≡ NoMemory };

    fn from(_: AllocFailed<T>) -> Self {
        RestoreFault::NoMemory
    }
}

impl From<NoMemory> for RestoreFault {
    ghost from_gives = { λ _ fault. fault ≡ NoMemory };

    fn from(_: NoMemory) -> Self {
        RestoreFault::NoMemory
    }
}
