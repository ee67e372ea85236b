// The row of a number in the table of spellings, and the row that a first byte tells.
ghost use Rattle.std.specs.Prelude.{MatchOption};
ghost use Rattle.model_base.specs.{BeginsNone, HasAllFrom, IsRowOf};

use model_base::{
    FOURTEEN_BITS, LOW_10_BITS, LOW_17_BITS, LOW_24_BITS, Row, SEVEN_BITS, TWENTY_EIGHT_BITS,
    TWENTY_ONE_BITS, WHOLE,
};

/// The row of a number.
pub(crate) fn row_of(n: u32) -> Row
    ensures { IsRowOf n result }
{
    match n {
        0..=0x7F => SEVEN_BITS,
        0x80..=0x3FFF => FOURTEEN_BITS,
        0x4000..=0x1F_FFFF => TWENTY_ONE_BITS,
        0x20_0000..=0x0FFF_FFFF => TWENTY_EIGHT_BITS,
        0x1000_0000..=0xFEFF_FFFF => WHOLE,
        0xFF00_0000..=0xFFFD_FFFF => LOW_24_BITS,
        0xFFFE_0000..=0xFFFF_FBFF => LOW_17_BITS,
        0xFFFF_FC00..=0xFFFF_FFFF => LOW_10_BITS,
    }
}

/// The row whose spellings begin with this byte, if there is one.
pub(crate) fn row_beginning_with(byte: u8) -> Option<Row>
    ensures { MatchOption result (BeginsNone byte) (HasAllFrom byte) }
{
    match byte {
        0x00..=0x7F => Some(SEVEN_BITS),
        0x80..=0xBF => Some(FOURTEEN_BITS),
        0xC0..=0xDF => Some(TWENTY_ONE_BITS),
        0xE0..=0xEF => Some(TWENTY_EIGHT_BITS),
        0xF0 => Some(WHOLE),
        0xF8..=0xFB => Some(LOW_10_BITS),
        0xFC | 0xFD => Some(LOW_17_BITS),
        0xFE => Some(LOW_24_BITS),
        0xF1..=0xF7 | 0xFF => None,
    }
}
