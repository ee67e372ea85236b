//! The log device as one part of the store: it writes the blocks of a run up to a mark, makes them stable, moves the
//! checkpoint, and reads blocks back. Full blocks go to their places in the ring, and the incomplete block of a mark to
//! one of two tail blocks, so that a torn sector takes away nothing that a sync made stable. The layer above may rely
//! on this: whatever a crash leaves of the device at any moment reads as the run's groups up to a boundary from the
//! stable mark up to the last mark given.
#![tactic(auto)]

mod blocks;
mod calls;
mod part;
mod tails;

pub use model_parts::{LogMarks, TailMarks};
pub use part::LogPart;
