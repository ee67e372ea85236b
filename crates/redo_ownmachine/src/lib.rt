//! A running store whose users write for themselves, by turns: neither a writer nor a flusher has a turn, and a user that
//! would wait for the log does the log's work itself. The layer above may rely on this: each turn is one of the definition's,
//! whatever the devices answer, and no call but `new` takes memory.
#![tactic(auto)]

mod drive;
mod finishing;
mod laws;
mod machine;
mod open_users;
mod running;
mod seats;
mod turning;

pub use drive::run_own_by_turns;
pub use laws::{own_machine_has_watermarks, own_turn_keeps_failed};
pub use machine::OwnMachine;
