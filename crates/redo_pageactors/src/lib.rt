//! The programs of the cleaner and the checkpointer. A layer above may rely on `next` and `took` being those of the
//! definitions on the actor's own state, and on no call but `new` taking memory.
#![tactic(auto)]

mod batch;
mod checkpointer;
mod checkpointing;
mod cleaner;
mod cleaning;
mod making;
mod round;

pub use checkpointer::Checkpointer;
pub use cleaner::Cleaner;
