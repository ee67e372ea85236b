// What the check of a page's bytes finds, and where its fields stand.

/// The offset of the page number, which is where the checked bytes begin.
pub const NUMBER_START: u32 = 4;
/// The offset of the page lsn.
pub const LSN_START: u32 = 16;
/// The offset of the space id.
pub const SPACE_START: u32 = 34;

/// What the check of a page's bytes finds.
#[derive(Clone, Copy, Debug, PartialEq, Eq)]
pub enum PageState {
    /// All bytes are 0: the page was never written, and counts as lsn 0.
    Blank,
    /// Both checksums fit. The fields are the page number, the space id and the page lsn.
    Sound(u32, u32, u64),
    /// Anything else, as a page of which only some sectors were written.
    Broken,
}
