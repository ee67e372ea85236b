//! A flush list: the dirty pages of a store in order of entry, each with the start of its oldest change that isn't on
//! the data device. Groups enter their pages in any order up to a bound, as with InnoDB's recent-closed link buffer, so
//! the order is relaxed: an earlier page's lsn may be above a later one's, but by less than the bound. The layer above
//! may rely on that order, so that the first page of a list bounds all the others.
#![tactic(auto)]

mod dirty;
mod list;

pub use dirty::{Dirty, FLUSH_ORDER_LAG};
pub use list::FlushList;
