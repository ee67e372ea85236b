// Why no value was read off the front of some bytes.
ghost use Rattle.std.specs.Prelude.{◌≡◌};
ghost use Rattle.redo_record.specs.Reading.{stop_of};
ghost use Rattle.redo_record.specs.declared.stop.Stop.TheVariants.{Memory};

use crate::no_text::NoText;
use std::alloc::{AllocError, AllocFailed};
use thiserror::Error;

/// Why no value was read off the front of some bytes.
#[derive(Clone, Copy, Debug, PartialEq, Eq, Error)]
pub(crate) enum Stop {
    /// Memory ran out.
    #[error("out of memory")]
    Memory,
    /// The bytes are the front of a text, and more have to come.
    #[error("more bytes have to come")]
    Short,
    /// No text begins so.
    #[error("no text begins so")]
    Bad,
}

impl From<AllocError> for Stop {
    ghost from_gives = { λ _ stop. stop ≡ Memory };

    fn from(_error: AllocError) -> Stop {
        Stop::Memory
    }
}

impl<T: Drop> From<AllocFailed<T>> for Stop {
    ghost from_gives = { λ _ stop. stop ≡ Memory };

    fn from(_error: AllocFailed<T>) -> Stop {
        Stop::Memory
    }
}

impl From<NoText> for Stop {
    ghost from_gives = { λ given stop. stop ≡ stop_of given };

    fn from(given: NoText) -> Stop {
        match given {
            NoText::Short => Stop::Short,
            NoText::Bad => Stop::Bad,
        }
    }
}
