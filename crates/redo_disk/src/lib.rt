//! A device of sectors of 512 bytes, as the program sees it, and what its calls say of its images.
#![tactic(auto)]

mod error;
mod laws;
mod put;
mod sectors;

pub use error::DevError;
pub use laws::{calls_end_once, calls_join};
pub use put::write_and_sync;
pub use sectors::Sectors;
