// What goes wrong in a read or a write.
ghost use Rattle.std.specs.Prelude.{◌≡◌};
ghost use Rattle.redo_io.specs.declared.fault.ReadFault.TheVariants.{Fault, NoMemory};

use std::alloc::AllocError;
use thiserror::Error;

/// A read or a write failed.
#[derive(Clone, Copy, Debug, PartialEq, Eq, Error)]
pub enum IoFault {
    /// The source or the sink has counted the fault.
    #[error("a read or a write failed")]
    Failed,
}

/// Why a text was not read.
#[derive(Clone, Copy, Debug, PartialEq, Eq, Error)]
pub enum ReadFault {
    /// A read failed.
    #[error("a read failed")]
    Fault,
    /// There are more bytes than the limit.
    #[error("the text is too long")]
    TooLong,
    /// Memory ran out.
    #[error("out of memory")]
    NoMemory,
}

impl From<IoFault> for ReadFault {
    ghost from_gives = { λ _ fault. fault ≡ Fault };

    fn from(_fault: IoFault) -> ReadFault {
        ReadFault::Fault
    }
}

impl From<AllocError> for ReadFault {
    ghost from_gives = { λ _ fault. fault ≡ NoMemory };

    fn from(_error: AllocError) -> ReadFault {
        ReadFault::NoMemory
    }
}
