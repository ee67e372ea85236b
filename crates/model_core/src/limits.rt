// The sizes of what the actors share, with their units.

/// Bytes of the log buffer: it has a byte lane for each lsn of its window, so also for those of a block's header and
/// trailer, which stay unused.
pub const LOG_BUFFER: u64 = 65_536;
/// Byte lanes of a word of the log buffer.
pub const WORD_LANES: u64 = 8;
/// Words of the log buffer.
pub const BUFFER_WORDS: u64 = LOG_BUFFER / WORD_LANES;
/// Log blocks that the log buffer spans, and so words FIRST.
pub const BUFFER_BLOCKS: u64 = 128;
/// Links of the recent-written buffer: one for each lsn of its window.
pub const WRITTEN_LINKS: u64 = 32_768;
/// Links of the recent-closed buffer: one for each lsn of its window.
pub const CLOSED_LINKS: u64 = 16_384;
/// An advance loads links less than so many places past its tail.
pub const ADVANCE_PLACES: u64 = 32_768;
/// Bytes of the log that stay free for groups which have begun: a user begins one only with so much space beyond SN.
pub const FREE_MARGIN: u64 = 278_528;
/// Flush lists. A page stands in the list of its number modulo this.
pub const FLUSH_LISTS: u64 = 4;
/// Readers of the log there may be: the archiver, and four followers.
pub const READERS: u64 = 5;
