//! What the actors of a running store ask of the words and of the devices: Ops and answers, and what an actor lends to a
//! device call. And the words as they stand in memory while one thread plays the Ops: one list of 64-bit words, each with
//! the number that its layout gives it. An Op on a word changes that word alone and is answered with what stood there.
//! The layer above may rely on this: `play` is the definition's Op.
#![tactic(auto)]

mod answers;
mod lanes;
mod lent;
mod number;
mod plain;

pub use answers::{code_of, heard, old_of};
pub use lanes::{Spot, packed, push_lanes, spot_of};
pub use lent::Lent;
pub use model_core::{Answer, Layout, Op, Step, Word};
pub use number::{count_of, number_of};
pub use plain::PlainWords;
