//! The program of a user. A layer above may rely on `next` and `took` being those of the definitions on the user's own
//! state, and on no call but `new` and `take_line` taking memory.
//!
//! A user that begins with no line, as those of a live store do, holds its last line alone: its group, the text of that, the
//! pages that it is on, and where it starts. `take_line` frees the line before. So its memory doesn't grow with its commits,
//! though contracts see all its lines.
#![tactic(auto)]

mod actor;
mod asking;
mod book;
mod changes;
mod changing;
mod handing;
mod helping;
mod line;
mod linking;
mod making;
mod past;
mod runs;
mod taking;
mod telling;
mod words;
mod written;

pub use actor::UserActor;
