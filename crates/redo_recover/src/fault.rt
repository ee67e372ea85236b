// Why a store isn't recovered.
ghost use Rattle.std.specs.Prelude.{◌≡◌};
ghost use Rattle.redo_recover.specs.declared.fault.RecFault.TheVariants.{NoMemory};

use redo_lsn::NoMemory;
use std::alloc::{AllocError, AllocFailed};
use thiserror::Error;

/// Why a store isn't recovered, in the order in which it is judged. A device's failure is answered at the call that
/// fails.
#[derive(Clone, Copy, Debug, PartialEq, Eq, Error)]
pub enum RecFault {
    /// The log device is shorter than this many bytes: than its header, or than the header says.
    #[error("the log device is shorter than {0} bytes")]
    SmallLog(u64),
    /// There is no file header.
    #[error("the log device is not formatted")]
    NotFormatted,
    /// The file header is of another format, of this number.
    #[error("the log device has format {0}")]
    BadFormat(u32),
    /// The data device is shorter than this many bytes.
    #[error("the data device is shorter than {0} bytes")]
    SmallData(u64),
    /// Neither checkpoint block passes.
    #[error("there is no checkpoint")]
    NoCheckpoint,
    /// At this lsn stands no group that fits the store, nor the front of one at the log's end.
    #[error("no group stands at the lsn {0}")]
    BadRecord(u64),
    /// Neither the place of this page nor a copy of it passes.
    #[error("page {0} is lost")]
    PageLost(u32),
    /// The kept page of this number has this lsn, which is above the log's end.
    #[error("page {0} has the lsn {1}, which is above the log's end")]
    PageAhead(u32, u64),
    /// The log device failed.
    #[error("the log device failed")]
    LogDev,
    /// The data device failed.
    #[error("the data device failed")]
    DataDev,
    /// Memory ran out, of the program or of a device.
    #[error("out of memory")]
    NoMemory,
}

impl From<AllocError> for RecFault {
    ghost from_gives = { λ _ fault. fault ≡ NoMemory };

    fn from(_: AllocError) -> Self {
        RecFault::NoMemory
    }
}

impl<T: Drop> From<AllocFailed<T>> for RecFault {
    ghost from_gives = { λ _ fault. fault ≡ NoMemory };

    fn from(_: AllocFailed<T>) -> Self {
        RecFault::NoMemory
    }
}

impl From<NoMemory> for RecFault {
    ghost from_gives = { λ _ fault. fault ≡ NoMemory };

    fn from(_: NoMemory) -> Self {
        RecFault::NoMemory
    }
}
