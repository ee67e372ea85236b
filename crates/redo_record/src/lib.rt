//! The texts of groups, written and read; how long a text is, and which groups have one and fit a store.
#![tactic(auto)]

mod bodies;
mod decoding;
mod encoding;
mod fields;
mod fitting;
mod measuring;
mod no_text;
mod spanning;
mod spelled;
mod stop;
mod types;

pub use decoding::decode;
pub use encoding::encode;
pub use fitting::Fits;
pub use measuring::Length;
pub use model_log::{Group, Rec, group_reads_back, one_group};
pub use spanning::span;
pub use spelled::has_text;
