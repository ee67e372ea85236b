//! The programs of the writer, the flusher and the closer. A layer above may rely on `next` and `took` being those of the
//! definitions on the actor's own state, and on no call but `new` taking memory.
#![tactic(auto)]

mod closer;
mod closing;
mod flusher;
mod flushing;
mod lending;
mod making;
mod taking;
mod writer;
mod writing;

pub use closer::Closer;
pub use flusher::Flusher;
pub use writer::Writer;
