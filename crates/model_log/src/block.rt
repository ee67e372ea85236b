// What a log block says.

/// What a log block says of itself.
#[derive(Clone, Copy, Debug, PartialEq, Eq)]
pub struct BlockView {
    /// Bytes in use, counted from the block's first byte; 512 where the block is full.
    pub length: u32,
    /// The offset of the first group that starts in the block, 0 if none.
    pub first: u32,
    /// The low 32 bits of the number of the newest checkpoint when the block was written.
    pub ckpt: u32,
}
