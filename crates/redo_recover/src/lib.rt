//! Recovery: what is read off the two devices of a store, also after a crash. The header names the sizes, the newest
//! checkpoint the place from which the log is scanned, and the scanned groups are applied to the pages as they are kept.
#![tactic(auto)]

mod ahead;
mod blocks;
mod errors;
mod fault;
mod full;
mod groups;
mod kept;
mod pages;
mod piece;
mod places;
mod recovered;
mod recovery;
mod replay;
mod run;
mod scan;
mod start;
mod stretch;
mod taking;

pub use errors::{data_fault, log_fault};
pub use fault::RecFault;
pub use groups::read_storable;
pub use piece::{Piece, read_part, sector_at};
pub use places::{Found, Places};
pub use recovered::Recovered;
pub use recovery::{recover, recover_with};
pub use start::check_lengths;
