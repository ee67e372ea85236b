// The table of spellings: a row for each length and mark.

/// A row of the table. The spellings of its numbers are as long as each other, and each, read as a number, is one more
/// than the one before it.
#[derive(Clone, Copy)]
pub struct Row {
    /// The lowest number of the row.
    pub first: u32,
    /// The highest number of the row.
    pub last: u32,
    /// How many bytes a spelling has.
    pub length: usize,
    /// The spelling of the lowest number, read as a number with its highest byte first.
    pub text: u64,
}

/// The numbers that are spelled as themselves.
pub const SEVEN_BITS: Row = Row {
    first: 0,
    last: 0x7F,
    length: 1,
    text: 0,
};

/// Numbers of up to 14 bits, after the mark 80.
pub const FOURTEEN_BITS: Row = Row {
    first: 0x80,
    last: 0x3FFF,
    length: 2,
    text: 0x8080,
};

/// Numbers of up to 21 bits, after the mark C0.
pub const TWENTY_ONE_BITS: Row = Row {
    first: 0x4000,
    last: 0x1F_FFFF,
    length: 3,
    text: 0xC0_4000,
};

/// Numbers of up to 28 bits, after the mark E0.
pub const TWENTY_EIGHT_BITS: Row = Row {
    first: 0x20_0000,
    last: 0x0FFF_FFFF,
    length: 4,
    text: 0xE020_0000,
};

/// Numbers in four bytes, after the byte F0.
pub const WHOLE: Row = Row {
    first: 0x1000_0000,
    last: 0xFEFF_FFFF,
    length: 5,
    text: 0xF0_1000_0000,
};

/// Numbers just below 2^32, by their low 24 bits, after the byte FE.
pub const LOW_24_BITS: Row = Row {
    first: 0xFF00_0000,
    last: 0xFFFD_FFFF,
    length: 4,
    text: 0xFE00_0000,
};

/// Numbers just below 2^32, by their low 17 bits, after the mark FC.
pub const LOW_17_BITS: Row = Row {
    first: 0xFFFE_0000,
    last: 0xFFFF_FBFF,
    length: 3,
    text: 0xFC_0000,
};

/// Numbers just below 2^32, by their low 10 bits, after the mark F8.
pub const LOW_10_BITS: Row = Row {
    first: 0xFFFF_FC00,
    last: 0xFFFF_FFFF,
    length: 2,
    text: 0xF800,
};
