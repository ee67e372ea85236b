// How the pages stood on the data device when a store was read.

/// Where the content of a page was found that counts.
#[derive(Debug, Clone, Copy)]
pub struct Found {
    /// Its lsn, before groups are applied.
    pub lsn: u64,
    /// The slot of its copy, if its place doesn't pass.
    pub slot: Option<u32>,
}

/// The slots of a data device as they were read, and where each page was found. So opening needs no second read.
#[derive(Debug, Drop)]
pub struct Places {
    /// The bytes of all slots, side by side.
    pub slots: Vec<u8>,
    /// Where each page was found, by their numbers.
    pub found: Vec<Found>,
}
