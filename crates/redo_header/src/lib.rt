//! The header blocks of a log device, the file header and the checkpoints, filled and read in place. No memory is
//! taken.
#![tactic(auto)]

mod checkpoint;
mod head;

pub use checkpoint::{fill_ckpt, newer, place_of, read_ckpt};
pub use head::{fill_head, read_head, read_one_head};
pub use model_log::{Format, Head, Layout, checkpoint_reads_back, head_reads_back};
