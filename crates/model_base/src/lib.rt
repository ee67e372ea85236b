//! What the definitions are written with: a text of bytes that contracts see as a list, the shape of a store, the limits
//! of both, what a checksum is, and how a compressed number is spelled.
#![tactic(auto)]

mod bytes;
mod got;
mod laws;
mod limits;
mod shape;
mod spelling_laws;
mod table;

pub use bytes::Bytes;
pub use got::Got;
pub use laws::{limits_as_facts, page_size_as_facts};
pub use limits::{
    BLOCK_SIZE, DEFAULT_LOG_BLOCKS, DEFAULT_PAGES, DEFAULT_SPACE, EARLY_SLOTS, FIRST_DATA_LSN,
    LARGE_PAGE_SIZE, LSN_LIMIT, MAX_EARLY_PAGES, MAX_GROUP, MAX_LOG_BLOCKS, MAX_PAGE_SIZE,
    MAX_PAGES, MAX_SCRIPT, MIN_LOG_BLOCKS, PAGE_SIZE, PAGE_TRAILER, SLOTS, START_LSN, USER_START,
};
pub use shape::Shape;
pub use spelling_laws::{one_spelling, spelling_lengths};
pub use table::{
    FOURTEEN_BITS, LOW_10_BITS, LOW_17_BITS, LOW_24_BITS, Row, SEVEN_BITS, TWENTY_EIGHT_BITS,
    TWENTY_ONE_BITS, WHOLE,
};
