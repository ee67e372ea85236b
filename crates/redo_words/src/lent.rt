// What an actor lends to a device call.

/// What a device call takes beside its numbers.
#[derive(Clone, Copy, Debug)]
pub enum Lent<'a> {
    /// The Op is no device call, or takes nothing more.
    Nothing,
    /// The bytes of groups from the start of the written mark's block on, and the first offset of each of their blocks.
    Blocks {
        bytes: &'a [u8],
        firsts: &'a [u32],
    },
    /// The pages of a batch with their lsns, and their user bytes joined.
    Batch {
        pages: &'a [(u32, u64)],
        frames: &'a [u8],
    },
}
