//! The parts of the crash theorem: what is promised of a run and of what is read after it, over plain values. The contract
//! of a call fills them in. Beside these definitions stand laws that say which values the parts admit and which they refuse.
//!
//! Below it stands what every drive owes of its run. However far the run came, both devices hold it (`IsHeld`): whatever a
//! crash leaves of them is read as a prefix of it (`held_run_reads`).
#![tactic(auto)]

mod examples;
mod laws;

pub use examples::{
    changed_pages_are_refused, empty_run_is_admitted, gap_is_refused, loss_for_nothing_is_refused,
    lost_group_is_admitted, missing_flushed_group_is_refused, other_start_is_refused,
    run_without_opening_is_refused, stop_behind_opening_is_refused, stopped_opening_is_admitted,
};
pub use laws::{
    held_run_is_opened, held_run_reads, longer_data, opened_store_is_closed, stored_pages_hold,
    whole_page_is_prefix,
};
