//! The blocks of the log. One is filled and read in place, without memory; a stream is cut into blocks and joined
//! again.
#![tactic(auto)]

mod block;
mod filling;
mod framing;

pub use block::{block_data, fill, is_first, length_of, read, why};
pub use filling::frame_into;
pub use framing::{are_firsts, frame, run_firsts_fit, unframe, unframe_of_frame};
pub use model_log::{BlockView, Fit, block_reads_back, given_is_framed};
