//! The edge for text: where bytes come from, where they go, and the lines of a text. A source and a sink count their
//! faults, so that a contract can tell an error that was met from one that was made up. What stands in memory fails the
//! calls of a plan.
#![tactic(auto)]

mod fault;
mod lines;
mod mem_sink;
mod mem_source;
mod plan;
mod put;
mod read;
mod reader_source;
mod sink;
mod source;
mod writer_sink;

pub use fault::{IoFault, ReadFault};
pub use lines::Lines;
pub use mem_sink::MemSink;
pub use mem_source::MemSource;
pub use model_base::Bytes as Text;
pub use plan::Plan;
pub use put::put_all;
pub use read::{PIECE, read_all};
pub use reader_source::ReaderSource;
pub use sink::Sink;
pub use source::Source;
pub use writer_sink::WriterSink;
