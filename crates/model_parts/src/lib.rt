//! What the two parts hold of a store, and what opening leaves. Of the log device: what it means that it holds a run of
//! groups, whatever a crash leaves of it, and what is then read off it. Of the data device: what it keeps while batches of
//! pages are written through its doublewrite slots, in every fair image that a crash may leave of it. Of opening: what it
//! leaves on both, and the laws that this is read with the opened pages.
#![tactic(auto)]

mod data_laws;
mod log_laws;
mod marks;
mod opening_laws;

pub use data_laws::{crash_keeps, opened_is_stored, orderly_is_opened, zeros_are_opened};
pub use log_laws::{crash_reads, longer_run};
pub use marks::{LogMarks, TailMarks};
pub use opening_laws::{
    clearing_keeps, clearing_reads, enlarged_is_stored, enlarging_keeps, formatted_is_openable,
    headed_is_fresh, heading_keeps, kept_head_is_read, kept_head_keeps, marked_is_fresh,
    marking_keeps, marking_reads, migrated_is_fresh, migrating_keeps, migrating_reads,
    openable_reads, opened_again, ready_is_read, repairing_rewrites, stored_is_rewritten,
    writing_rewrites,
};
