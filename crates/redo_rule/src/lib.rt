//! The table of a run that is driven by threads: its words, both device parts and the flush lists, which its actors
//! share without
//! a lock.
//!
//! `lay_out` and `make_board` lay all that into a table, `cut_off` gives an actor a seat, `play` plays one Op of an
//! actor on the
//! table, `take_in` takes its seat in again, and `close_table` closes the table once no actor holds anything, as
//! `close_known` does where seats were dropped. The rule of the table
//! is the invariant of the running store, and holds between any two steps of any threads.
#![tactic(auto)]

mod appending;
mod batch;
mod closing;
mod device;
mod handing;
mod law;
mod laying;
mod listing;
mod playing;
mod plays;
mod reading;
mod resting;
mod seating;
mod slots;
mod steps;

pub use appending::append;
pub use closing::{Left, close_known, close_table};
pub use handing::hand_in;
pub use law::{
    About, Block, Board, DATA_SLOT, Desk, Errand, Groups, Heard, Keeping, LOG_SLOT, LOG_TURN, Law,
    Live, Numbered, Ring, SLOTS, Seat, Slot, View, Viewed,
};
pub use laying::{lay_out, make_board, parts_in};
pub use listing::{list_slot, list_turn};
pub use playing::play;
pub use plays::Looked;
pub use reading::{failure, look};
pub use resting::holds_nothing;
pub use seating::{cut_off, cut_seat, take_in};
pub use slots::{add_slot, sync_slot, taken_answer};
