//! Where bytes of the log stand: lsn, sn and block, and which shapes a store may have, all without memory. Beside them
//! the types that the crates of the log share.
#![tactic(auto)]

mod layout;
mod limits;
mod lsn;
mod memory;

pub use layout::{layout_of, log_device_length, round_of, run_format, run_layout};
pub use limits::{Limits, has_sizes_of};
pub use lsn::{block_of, is_data_lsn, lsn_of, number_of, offset_of, sn_of, start_after};
pub use memory::NoMemory;
pub use model_base::{Bytes, Shape};
pub use model_log::{Format, Layout, lsn_and_sn};
