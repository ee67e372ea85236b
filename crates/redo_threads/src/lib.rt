//! The drive of a run in threads: one for each player, over the table that they share.
//!
//! `run_threads` gives each player its seat, and lets each play in a thread of its own until all users have ended and nobody
//! else holds a turn or a tail. The archiver's is the caller's. Where a thread can't be started, the caller plays in its place.
//! A test may hold users at a gate, and refuse threads there. Users that write for themselves play as others do.
//! Of a live run, which starts no threads, each player is played by whoever has it, by `play_to_end`.
#![tactic(auto)]

mod archiving;
mod bells;
mod crew;
mod drive;
mod gate;
mod live;
mod pace;
mod run;
mod starting;
mod work;

pub use drive::drive_in_threads;
pub use gate::{Gate, NoGate, Point};
pub use live::{Calls, play_to_end};
pub use run::run_threads;
