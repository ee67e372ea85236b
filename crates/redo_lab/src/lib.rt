//! The top call: it does one of the seven commands on a source, a sink, two devices and an archive's device. `lab`'s contract says what each ending
//! means, carries the crash theorem, of a run that is the drive's, and says that whatever the status what is left is accepted.
#![tactic(auto)]

mod archiving;
mod asked;
mod closing;
mod commands;
mod crash_command;
mod drives;
mod ended;
mod examples;
mod faults;
mod fitted;
mod following;
mod gen_command;
mod in_files;
mod lab_call;
mod laws;
mod outcome;
mod playing;
mod prepare;
mod printing;
mod reading;
mod reporting;
mod restore_command;
mod run_command;
mod script;
mod shapes;
mod simple;
mod start;

pub use ended::Ended;
pub use examples::{
    late_arming_is_refused, other_stop_is_refused, stop_for_nothing_is_refused, stops_are_admitted,
};
pub use in_files::lab_in_files;
pub use lab_call::lab;
pub use printing::print_fault;
pub use shapes::{ARCHIVE_LENGTH, LOG_LENGTH, STORE_LENGTH};
