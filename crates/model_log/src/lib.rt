//! What the text of a redo record, of a mini-transaction's group and of a stream of groups is, and when a group fits a
//! store. What an lsn is, what stands in a log block, in the file header and in a checkpoint block, and how the groups of
//! a run are cut into log blocks. Why 512 bytes are no block of a log, and where and why the reading of its blocks ends.
#![tactic(auto)]

mod block;
mod boundary;
mod cause;
mod fit;
mod group;
mod group_laws;
mod head;
mod laws;
mod layout;
mod place;
mod rec;

pub use block::BlockView;
pub use boundary::{boundary_length, given_is_framed};
pub use cause::Cause;
pub use fit::Fit;
pub use group::{Group, Whole};
pub use group_laws::{group_reads_back, one_group};
pub use head::{Format, Head};
pub use laws::{block_reads_back, checkpoint_reads_back, head_reads_back, lsn_and_sn};
pub use layout::{
    BLOCK_DATA, BLOCK_DATA_END, BLOCK_HEADER, HEADER_BLOCKS, HEADER_BYTES, Layout, RING_SIZE,
    TAIL_BLOCKS,
};
pub use place::{Place, Spot};
pub use rec::Rec;
