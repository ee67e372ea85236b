//! A store that its players share, each in a thread of its own: actors by their own programs, and, where that is asked for, users
//! that write for themselves. Such a user would wait for the log in another store; here it takes DEVICE with the log's work, and
//! does that itself. The rule of the table is that of `redo_rule`.
//!
//! `Shared::new` lays a store into a table, as `Shared::new_live` does for a live run, into which lines are handed,
//! `Shared::seats` gives each player its seat, `ask` tells which Op a player asks for, `play` plays it on the table, and
//! `Shared::finish` closes the table once all players are at rest, as `Shared::finish_live` does after a live run, also
//! where users of it were dropped.
#![tactic(auto)]

mod answering;
mod closing;
mod device;
mod leaving;
mod listing;
mod live_closing;
mod live_sharing;
mod own;
mod player;
mod plays;
mod seats;
mod shared;
mod slots;
mod staffing;
mod steps;

pub use player::{Player, ask, is_at_rest, play};
pub use shared::Shared;
