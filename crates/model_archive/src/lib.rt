//! What an archive device holds: the pages with which a run was opened, and the log blocks of the run. What is restored
//! from it for an lsn, or why nothing is; and the laws that a crash leaves an archive from which each lsn up to its
//! mark is restored.
#![tactic(auto)]

mod extent;
mod laws;
mod layout;
mod marks;
mod refusal;

pub use extent::Extent;
pub use laws::{
    archive_reads, boundary_block_archived, longer_archive, one_block_archived, one_restore,
    restored_exactly,
};
pub use layout::{ARCHIVE_FORMAT, ARCHIVE_HEADER};
pub use marks::ArchMarks;
pub use refusal::RestoreRefusal;
