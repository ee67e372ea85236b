//! What a run's history is, and when it is a legal one: which groups were reserved, where they stand in the log, and
//! how each commit was answered; and the laws by which a history grows and its groups are read. What the program prints:
//! the report of a run and a crash, the listing of a store, the page lines, and the fault lines with their statuses.
//! Nothing runs here.
#![tactic(auto)]

mod entry;
mod fault;
mod laws;

pub use entry::{Entry, Followed, History, Marks, State};
pub use fault::Fault;
pub use laws::{
    answered_state_is_legal, first_groups_are_front, history_is_run, legal_history_grows,
    mark_is_boundary, reached_entry_counts,
};
