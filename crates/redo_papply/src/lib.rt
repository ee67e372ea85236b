//! Groups applied to the pages of a store by several workers, each of which has some of the pages to itself. A layer above
//! may rely on this: whatever the number of workers, each page has those groups applied that start at or above its lsn.
#![tactic(auto)]

mod apply;
mod frame;
mod merge;
mod run;

pub use apply::{MAX_WORKERS, apply_all};
