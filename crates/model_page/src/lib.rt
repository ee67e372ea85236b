//! What stands on a page and on the data device: the page's layout, when its bytes are sound, and when a page place or
//! a copy in the doublewrite area counts.
#![tactic(auto)]

mod content;
mod laws;
mod page;

pub use content::Content;
pub use laws::{best_copy_is_one, kept_is_one, page_reads_back};
pub use page::{LSN_START, NUMBER_START, PageState, SPACE_START};
