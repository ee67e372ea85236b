//! The archive of a run: it is begun with the pages with which the run was opened, the run's log blocks are appended to
//! it as they become stable, and for each lsn up to its mark the pages are restored from it. The layer above may rely
//! on this, once an archive is begun: each fair image that a crash may leave of the device at any moment restores each
//! lsn from the run's start up to the newest good mark.
#![tactic(auto)]

mod base;
mod begin;
mod blocks;
mod extent;
mod fault;
mod groups;
mod head;
mod marks;
mod pages;
mod part;
mod places;
mod puts;
mod reading;
mod restored;

pub use fault::BeginFault;
pub use part::ArchPart;
pub use reading::restore;
pub use restored::{RestoreFault, Restored};
