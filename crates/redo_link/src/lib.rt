//! The link buffers of the log, recent-written and recent-closed: links between places of the log that are added in any
//! order, and the path that they connect from the tail on. Who has copied a group into the log buffer adds a link from the
//! group's start to its end, and the tail follows the links that stand, so it is the lsn up to which nothing is missing.
//!
//! `LinkBuf` is a link buffer in one thread's memory, as InnoDB's `Link_buf`: its links stand in a ring of slots, one for
//! each place of a window of one capacity from the tail on. In a running store the slots and the tail are shared words, and
//! `Advance` is the program by which an actor moves a tail. The layer above may rely on this: the tail never passes a hole,
//! and one actor at a time moves it.
#![tactic(auto)]

mod advance;
mod buffer;
mod tails;

pub use advance::{Advance, frees, loaded_tail};
pub use buffer::LinkBuf;
pub use tails::{is_held, tail_of, tail_word};
