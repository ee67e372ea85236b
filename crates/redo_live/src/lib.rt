//! A live store: commits come while it runs, from threads of the program's own, which read its pages too. A group is the unit:
//! there is no rollback, and no isolation but a group's own.
//!
//! `Store::open` gives an open store, its users and its workers. `Store::serve` has each user do a program's `Work` in a thread
//! of its own, while the workers run in theirs. Or a program lends the store to its own threads: in each of these a user commits,
//! or a worker runs until `Store::end` is called. Then `Store::close` takes the workers back, and those users that weren't
//! dropped, and gives what the run leaves.
//!
//! A commit waits for the writer, and in mode 1 for the flusher, so these have to run beside it. What was committed in mode 0 or 2
//! lasts once a later commit in mode 1 is answered. Closing lets each worker look once more, which flushes what is left, unless a
//! device fails; tests show that, and no clause says so.
//!
//! A user reads a page as of an lsn: it has just the groups that end at or below that, those of the user among them
//! (`User::read_page`, `page_is_kept`). Nobody is kept from anything by that. A page that is changed without a pause may be read
//! again and again.
//!
//! The history that it leaves has each commit that was answered, where the answer said (`commit_is_kept`). What a crash
//! leaves of its devices is read as a prefix of that history (`called_store_is_read`), which reaches each commit that was
//! answered once its group was flushed (`flushed_commit_is_read`). Commits and reads are those of users that came back. Each group of
//! a user that was dropped is in the history whole, or not at all, and no clause tells which of its commits were answered. Nor does one say that a
//! commit is ever answered, since threads may not run.
#![tactic(auto)]

mod closing;
mod commit;
mod giving;
mod laws;
mod quota;
mod reading;
mod refused;
mod seating;
mod serving;
mod store;
mod taking;
mod telling;
mod user;
mod worker;

pub use laws::{
    called_store_is_read, commit_is_kept, commits_go_on, flushed_commit_is_read, page_is_kept,
};
pub use refused::Refused;
pub use serving::Work;
pub use store::Store;
pub use user::User;
pub use worker::Worker;
