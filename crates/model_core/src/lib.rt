//! The running store as definitions: the words that its actors share, the Ops on them, the program of each actor, and one
//! turn; and what the group of a line changes of the pages, as the cells that a user stores. Nothing runs here; the two
//! halves of the invariant stand in `model_logcore` and `model_pagecore`.
#![tactic(auto)]

mod change_laws;
mod laws;
mod limits;
mod ops;
mod steps;
mod words;

pub use change_laws::cells_decide;
pub use laws::{
    a_check_holds_no_tail, a_wait_changes_no_word, a_wait_leads_to_a_check,
    an_ended_actor_holds_no_tail, an_ended_actor_rests, words_are_numbered,
};
pub use limits::{
    ADVANCE_PLACES, BUFFER_BLOCKS, BUFFER_WORDS, CLOSED_LINKS, FLUSH_LISTS, FREE_MARGIN,
    LOG_BUFFER, READERS, WORD_LANES, WRITTEN_LINKS,
};
pub use ops::{Answer, Op, Step};
pub use steps::{
    AdvanceStep, CheckpointerStep, CleanerStep, CloserStep, FlusherStep, ReaderStep, UserStep,
    WriterStep,
};
pub use words::{Layout, LinkBuffer, Word};
