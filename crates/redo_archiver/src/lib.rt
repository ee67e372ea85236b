//! The archiver: the reader of a running store's log that copies its blocks, as they become stable, into an archive.
//! The archive part lies beside it, and whoever drives it calls that part where it asks for an append. A layer above
//! may rely on `next` and `took` being those of the definitions on the archiver's own state, on a write into `room`
//! changing its block alone, and on no call taking memory. What a drive keeps of both, from turn to turn, is
//! `HasArchived`, with a law for each thing that it does.
#![tactic(auto)]

mod appending;
mod archiver;
mod archiving;
mod laws;

pub use appending::append_block;
pub use archiver::Archiver;
pub use laws::{
    archive_begins, archive_finishes, archive_stays, archiver_appends, archiver_may_append,
    archiver_turns,
};
