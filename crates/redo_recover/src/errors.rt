// What a device's answer comes to in the program.
ghost use Rattle.std.specs.Prelude.{◌≡◌};
ghost use Rattle.redo_recover.specs.Devices.{log_fault_of, data_fault_of};

use crate::RecFault;
use redo_disk::DevError;

/// The fault of a program whose log device answered this.
pub fn log_fault(error: DevError) -> RecFault
    ensures { result ≡ log_fault_of error }
{
    match error {
        DevError::Failed => RecFault::LogDev,
        DevError::NoMemory => RecFault::NoMemory,
    }
}

/// The fault of a program whose data device answered this.
pub fn data_fault(error: DevError) -> RecFault
    ensures { result ≡ data_fault_of error }
{
    match error {
        DevError::Failed => RecFault::DataDev,
        DevError::NoMemory => RecFault::NoMemory,
    }
}
