//! The doublewrite area of the data device: the pages of a batch are sealed side by side and written into its slots, and
//! all slots are read at once. The layer above writes the places, and may rely on the slots holding the whole batch before
//! it does, and on each call telling exactly which calls of the device it made.
#![tactic(auto)]

mod copies;
mod stretch;
mod texts;

pub use copies::read_slots;
pub use stretch::{place_at, read_stretch};
pub use texts::fill_texts;
