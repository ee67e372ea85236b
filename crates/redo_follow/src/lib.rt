//! Followers: readers of a running store's log that hand its groups on, in their order. A layer above may rely on
//! `next` and `took` being those of the definitions on the follower's own state, on a write into `room` changing its
//! block alone, on what the receiver stands for, and on no call but `new` taking memory.
#![tactic(auto)]

mod follower;
mod following;
mod handing;
mod receiver;
mod room;
mod tally;

pub use follower::Follower;
pub use receiver::Receiver;
pub use tally::Tally;
