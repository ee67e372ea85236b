// The sizes of the parts of a log block and of a log device, in bytes.

use crate::Format;
use model_base::BLOCK_SIZE;

/// Bytes of a log block before its data.
pub const BLOCK_HEADER: u64 = 12;
/// Data bytes of a log block.
pub const BLOCK_DATA: u64 = 496;
/// The offset in a log block after its data, at which its checksum stands.
pub const BLOCK_DATA_END: u64 = 508;
/// Header blocks that stand at the front of a device.
pub const HEADER_BLOCKS: u64 = 4;
/// Tail blocks that stand after them in format 2, before the ring.
pub const TAIL_BLOCKS: u64 = 2;
/// Bytes that the header blocks take.
pub const HEADER_BYTES: u64 = BLOCK_SIZE * HEADER_BLOCKS;
/// The log buffer size that a checkpoint block names, in bytes.
pub const RING_SIZE: u64 = 65_536;

/// Where the ring of a log stands on its device.
#[derive(Clone, Copy, Debug, PartialEq, Eq)]
pub struct Layout {
    /// The format by which blocks are written and read.
    pub format: Format,
    /// The number of the ring's first block.
    pub first: u64,
    /// How many blocks the ring has.
    pub blocks: u64,
}
