//! The data part of a store: the data device with its doublewrite slots and its page places. A batch of pages is written
//! into the slots, and only once it stays there into the places, so that at each exit of a call, and in every fair image
//! that a crash may leave, each page is kept as it was or as the batch has it. The layer above may rely on that, and on
//! no call but `new` taking memory. Beside it stands the whole store, as it is opened for a run.
#![tactic(auto)]

mod batch;
mod mend;
mod opened;
mod part;
mod places;

pub use opened::Opened;
pub use part::DataPart;
