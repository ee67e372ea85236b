// The limits of a store and of its scripts, with their units.

/// Bytes of a sector, and of a log block.
pub const BLOCK_SIZE: u64 = 512;
/// Bytes of a page of a store that is formatted without an option.
pub const PAGE_SIZE: u32 = 4096;
/// The other number of bytes that a page may have, but in formats 1 and 2.
pub const LARGE_PAGE_SIZE: u32 = 16_384;
/// Bytes that the 16 bits of an offset in a record can name; no page has more.
pub const MAX_PAGE_SIZE: u32 = 65_536;
/// The offset of a page's first user byte.
pub const USER_START: u32 = 38;
/// Bytes of a page after its user bytes: the second checksum, and the low half of the page lsn.
pub const PAGE_TRAILER: u32 = 8;
/// The greatest number of pages of a store; pages are numbered from 0.
pub const MAX_PAGES: u32 = 1024;
/// The greatest number of pages of a store of format 1 or 2.
pub const MAX_EARLY_PAGES: u32 = 64;
/// The number of pages of a store that is formatted without an option.
pub const DEFAULT_PAGES: u32 = 8;
/// The space id of a store that is formatted without an option.
pub const DEFAULT_SPACE: u32 = 1;
/// The least number of log blocks.
pub const MIN_LOG_BLOCKS: u32 = 1024;
/// The greatest number of log blocks.
pub const MAX_LOG_BLOCKS: u32 = 1_048_576;
/// The number of log blocks of a store that is formatted without an option.
pub const DEFAULT_LOG_BLOCKS: u32 = 2048;
/// Slots of the doublewrite area, of one page each.
pub const SLOTS: u32 = 128;
/// Those of a store of format 1 or 2.
pub const EARLY_SLOTS: u32 = 8;
/// The greatest length of a group's text, in bytes.
pub const MAX_GROUP: u64 = 8192;
/// The lsn at which a log starts: the block of its first data byte.
pub const START_LSN: u64 = 8192;
/// The lsn of a log's first data byte.
pub const FIRST_DATA_LSN: u64 = 8204;
/// Every lsn of a store is below this.
pub const LSN_LIMIT: u64 = 1 << 60;
/// The greatest length of a script, in bytes.
pub const MAX_SCRIPT: u64 = 16_777_216;
