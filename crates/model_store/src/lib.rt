//! What a store means: its pages, what applying groups does to them, what is read off its two devices, also after a
//! crash, and what it is opened as; and the laws on which the rest is built.
#![tactic(auto)]

mod laws;
mod refusal;
mod tail;

pub use laws::{base_is_fair, get_folded, one_answer, one_reading, read_not_ahead};
pub use refusal::Refusal;
pub use tail::Tail;
