//! CRC-32C, eight bytes at once by eight tables of 256 entries, over whole texts and over texts in parts, and at the
//! end of a sector. No memory is taken.
#![tactic(auto)]

mod laws;
mod register;
pub mod sector;
mod step;
mod tables;

pub use laws::value_of_joined;
pub use register::{Crc, crc32c};
