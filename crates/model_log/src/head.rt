// What a file header says.
use model_base::Shape;

/// How the blocks of a log are laid out on its device.
#[derive(Clone, Copy, Debug, PartialEq, Eq)]
pub enum Format {
    /// Each block is written in its place in the ring, also while it isn't full. Such a store is read and migrated.
    One,
    /// A block that isn't full goes to one of two tail blocks before the ring.
    Two,
    /// The log is as in format 2; the store may have more pages, and has more doublewrite slots.
    Three,
}

/// What the first block of a log device says, or the block that stands in for it.
#[derive(Clone, Copy, Debug, PartialEq, Eq)]
pub enum Head {
    /// The header of a store of this format and shape.
    Good(Format, Shape),
    /// The header of another format, with its number.
    OtherFormat(u32),
    /// No header.
    Unformatted,
}
