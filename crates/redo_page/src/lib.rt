//! Pages as the store runs them: sealed and checked in place without memory, and found on an image of the data device.
//! A layer above may rely on `seal` making the one text of a page, on `check` telling a whole page from a torn one, and
//! on the kept page of an image being what its place holds or, where that doesn't pass, the copy that counts.
#![tactic(auto)]

mod kept;
mod state;
mod text;

pub use kept::{best_copy, kept_page};
pub use model_page::{Content, PageState};
pub use state::{check, copy_lsn, place_lsn};
pub use text::{seal, user_part};
