//! Compressed numbers, written into and read off the front of bytes in place. No memory is taken.
#![tactic(auto)]

mod get;
mod put;
mod table;

pub use get::{get32, get64};
pub use model_base::{Got, one_spelling};
pub use put::{put32, put64};

// A number of 64 bits is its high half times this, and its low half.
const HALF: u64 = 1 << 32;
