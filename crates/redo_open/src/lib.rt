//! Formatting and opening a store. Opening reads the store, syncs both devices, takes away what stands on the log past
//! its end, repairs the places of pages that don't pass, writes each page that the log has changed, moves the checkpoint,
//! and takes a store of an earlier format to format 3, so that each run is of that format. The layer above may rely on
//! this: wherever opening ends after those syncs, whatever a crash leaves of the two devices is read with the same pages;
//! and before them too, where nothing was unsynced.
#![tactic(auto)]

mod batch;
mod blank;
mod chain;
mod clear;
mod devices;
mod enlarge;
mod formatting;
mod heads;
mod mark;
mod mend;
mod migrate;
mod opening;
mod places;
mod put;
mod rewrite;
mod zeros;

pub use formatting::format;
pub use opening::open_store;

/// How many bytes one call of a device moves at the most.
const PIECE: usize = 65_536;
