//! A user that writes for itself: the user, and its errands, on which it does the log's work. A layer above may rely on
//! `next`, `lent` and `took` being those of the definitions, and on no call taking memory.
#![tactic(auto)]

mod user;
mod work;

pub use user::OwnUser;
pub use work::LogWork;
