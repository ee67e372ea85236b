// What a call of a device may answer instead of Ok.
ghost use Rattle.std.specs.Prelude.{◌≡◌};
ghost use Rattle.redo_disk.specs.declared.error.DevError.TheVariants.{NoMemory};

use std::alloc::{AllocError, AllocFailed};
use thiserror::Error;

/// Why a call of a device did not do what was asked.
#[derive(Clone, Copy, Debug, PartialEq, Eq, Error)]
pub enum DevError {
    /// The device failed.
    #[error("the device failed")]
    Failed,
    /// Memory ran out; the device is as it was.
    #[error("out of memory")]
    NoMemory,
}

impl From<AllocError> for DevError {
    ghost from_gives = { λ _ error. error ≡ NoMemory };

    fn from(_: AllocError) -> Self {
        DevError::NoMemory
    }
}

impl<T: Drop> From<AllocFailed<T>> for DevError {
    ghost from_gives = { λ _ error. error ≡ NoMemory };

    fn from(_: AllocFailed<T>) -> Self {
        DevError::NoMemory
    }
}
