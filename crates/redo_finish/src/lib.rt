//! What is appended to an archive after its run. The layer above may rely on this: where neither the log part nor the archive
//! part fails, the archive has the run up to FLUSHED then.
#![tactic(auto)]

mod finishing;

pub use finishing::finish_archive;
