//! The words of a call of the program, read by `clap`: which of the seven commands they are, with its options, or that they
//! are none.
#![tactic(auto)]

mod app;
mod fault;
mod found;
mod words;

pub use fault::WordsFault;
pub use model_script::{Asked, Command, Drive};
pub use words::read_words;
