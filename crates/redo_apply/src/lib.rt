//! The pages of a store in memory, and what groups do to them. A layer above may rely on `apply` meeting the definition
//! of a group's effect, and on no call but `blank` and `copy` taking memory.
#![tactic(auto)]

mod pages;
mod record;

pub use model_page::Content;
pub use pages::Pages;
pub use record::{page_of, put_record};
