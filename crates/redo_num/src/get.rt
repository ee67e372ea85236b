// Reading a number's spelling off the front of bytes.
ghost use Rattle.std.specs.Prelude.{◌≡◌, ◌≤◌, ◌<◌, length};
ghost use Rattle.model_base.specs.{Gives, IsRow, number_from_bytes, Spells32, Spells64, SpellsIn};

use crate::HALF;
use crate::table::row_beginning_with;
use model_base::{Got, Row};

// A byte below this spells itself; the first bytes of longer spellings have a mark.
const MARKED: u8 = 0x80;

/// Reads a number of 32 bits off the front of the bytes.
pub fn get32(bytes: &[u8]) -> Got<u32>
    ensures { Gives Spells32 bytes.now result }
{
    let Some(first) = bytes.first() else {
        return Got::Short;
    };
    // Spaces and pages mostly have numbers this small.
    if *first < MARKED {
        return Got::Value(u32::from(*first), 1);
    }
    match row_beginning_with(*first) {
        Some(row) => read_in(row, bytes),
        None => Got::Bad,
    }
}

/// Reads a number of 64 bits off the front of the bytes.
pub fn get64(bytes: &[u8]) -> Got<u64>
    ensures { Gives Spells64 bytes.now result }
{
    match get32(bytes) {
        Got::Value(high, len) if bytes.len() - len >= 4 => {
            let low = number_from_bytes(&bytes[len..len + 4]);
            Got::Value(u64::from(high) * HALF + low, len + 4)
        }
        Got::Value(..) => Got::Short,
        Got::Short => Got::Short,
        Got::Bad => Got::Bad,
    }
}

// Reads a number of the row.
fn read_in(row: Row, bytes: &[u8]) -> Got<u32>
    requires { IsRow row }
    ensures { Gives (SpellsIn row) bytes.now result }
{
    if bytes.len() < row.length {
        read_cut(row, bytes)
    } else {
        read_whole(row, bytes)
    }
}

// Reads a number of the row where there are bytes enough for its spelling.
fn read_whole(row: Row, bytes: &[u8]) -> Got<u32>
    requires row { IsRow row }
    requires whole { row.length ≤ length bytes.now }
    ensures { Gives (SpellsIn row) bytes.now result }
{
    let text = number_from_bytes(&bytes[..row.length]);
    let last = row.text + u64::from(row.last - row.first);
    if text < row.text || last < text {
        Got::Bad
    } else {
        Got::Value(row.first + (text - row.text) as u32, row.length)
    }
}

// Judges the front of a spelling of the row. The texts that begin with it are consecutive numbers, as are those of the
// row, so it is enough to compare the ends.
fn read_cut(row: Row, bytes: &[u8]) -> Got<u32>
    requires row { IsRow row }
    requires cut { length bytes.now < row.length }
    ensures { Gives (SpellsIn row) bytes.now result }
{
    let following = 256u64.pow((row.length - bytes.len()) as u32);
    let lowest = number_from_bytes(bytes) * following;
    let last = row.text + u64::from(row.last - row.first);
    if lowest + following <= row.text || last < lowest {
        Got::Bad
    } else {
        Got::Short
    }
}

// The number that the bytes make, the highest first.
fn number_from_bytes(bytes: &[u8]) -> u64
    requires { length bytes.now ≤ 8 }
    ensures { result ≡ number_from_bytes bytes.now }
{
    let mut number = 0;
    for byte in bytes {
        number = number * 256 + u64::from(*byte);
    }
    number
}
