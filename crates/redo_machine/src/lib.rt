//! A running store whose actors take turns, one Op a turn, and the drive by turns. The layer above may rely on this: each
//! turn is one of the definition's, whatever the devices answer, and no call but `new` takes memory.
#![tactic(auto)]

mod drive;
mod finishing;
mod laws;
mod machine;
mod open_users;
mod playing;
mod running;
mod turning;

pub use drive::{Turns, run_by_turns};
pub use laws::{running_machine_has_followed, running_machine_has_watermarks, turn_keeps_failed};
pub use machine::Machine;
pub use open_users::number_if_open;
pub use playing::play;
pub use redo_words::Step as Turned;
pub use running::seat_of;
pub use turning::{serve, serve_with};
