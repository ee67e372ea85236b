//! The printed texts: the report of a run and a crash, the listing of a store, the lines of the other commands, and the
//! fault lines with their statuses.
#![tactic(auto)]

mod commands;
mod dump;
mod fault_line;
mod laws;
mod left;
mod pages;
mod run;
mod run_lines;

pub use commands::{formatted, recovery, restored, summary};
pub use dump::{Listed, listing};
pub use fault_line::{FAULT_ROOM, fault_text, status_of};
pub use laws::listed_record_reads_back;
pub use left::left_of;
pub use model_report::Fault;
pub use pages::pages_text;
pub use run::report;
