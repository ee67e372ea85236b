// Both devices of a store, and how a call of one is answered.
ghost use Rattle.std.specs.Prelude.{◌≡◌};
ghost use Rattle.redo_disk.specs.{error_of};
ghost use Rattle.redo_drive.specs.Asking.{code_of};
ghost use Rattle.redo_drive.specs.Calls.{call_answer};

use redo_disk::DevError;
use redo_words::Answer;

/// A device of a store.
#[derive(Clone, Copy, Debug, PartialEq, Eq)]
pub enum Device {
    Log,
    Data,
}

impl Device {
    /// What FAILED gets where a call of this device answers this error: 1 or 2 by the device, 3 for want of memory.
    pub fn code(self, error: DevError) -> u32
        ensures { result ≡ code_of self error }
    {
        match error {
            DevError::Failed => match self {
                Device::Log => 1,
                Device::Data => 2,
            },
            DevError::NoMemory => 3,
        }
    }
}

/// The answer to a call of a device that ended so, and told this number.
pub fn answer_of(device: Device, ended: Result<(), DevError>, told: u64) -> Answer
    ensures { result ≡ call_answer device (error_of ended) told }
{
    match ended {
        Ok(()) => Answer::Called(told),
        Err(error) => Answer::Failed(device.code(error)),
    }
}
