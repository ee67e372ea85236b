//! What every drive of a run stands on, however it interleaves the Ops: both device parts as the running store sees them,
//! the actors, the flush lists, the run as it begins, its history, what it leaves, and what a drive owes. An error stays an
//! error from a device to the answer of its call, where it becomes the code that FAILED gets.
#![tactic(auto)]

mod actor;
mod asking;
mod calling;
mod closed;
mod data_laws;
mod device;
mod drive;
mod history;
mod lists;
mod live;
mod log_laws;
mod making;
mod memory;
mod parts;
mod plan;
mod seating;
mod start_words;
mod users;

pub use actor::Actor;
pub use calling::{call_batch, call_checkpoint, call_read, call_sync, call_write};
pub use closed::Closed;
pub use data_laws::{data_part_meets_laws, data_part_tells, held_pages_are_stored};
pub use device::{Device, answer_of};
pub use drive::{Driven, RunEnd};
pub use history::history_of;
pub use lists::FlushLists;
pub use live::begin_live;
pub use log_laws::{
    log_half_has_watermarks, log_part_keeps_its_shape, log_part_meets_laws, log_part_tells,
};
pub use making::{Beginning, begin_run, begin_run_with};
pub use parts::Parts;
pub use plan::Plan;
pub use seating::FIRST_FOLLOWER;
