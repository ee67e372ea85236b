// The fields of a record's text. Each reader takes one off the front, and gives the bytes that are left.
ghost use Rattle.std.specs.Prelude.{◌<◌, length, Ok};
ghost use Rattle.model_base.specs.{Spells32, Spells64};
ghost use Rattle.redo_record.specs.Reading.{Reads, Takes};
ghost use Rattle.model_log.specs.{IsBody, IsLength, IsShort, IsValue};

use crate::no_text::NoText;
use crate::stop::Stop;
use redo_lsn::Bytes;
use redo_num::{Got, get32, get64};
use std::alloc::Global;

pub(crate) fn read_number32(bytes: &[u8]) -> Result<(u32, &[u8]), NoText>
    ensures { Takes (λ x. (x.0, x.1.now)) Spells32 bytes.now result }
{
    match get32(bytes) {
        Got::Value(number, taken) => Ok((number, &bytes[taken..])),
        Got::Short => Err(NoText::Short),
        Got::Bad => Err(NoText::Bad),
    }
}

fn read_number64(bytes: &[u8]) -> Result<(u64, &[u8]), NoText>
    ensures { Takes (λ x. (x.0, x.1.now)) Spells64 bytes.now result }
{
    match get64(bytes) {
        Got::Value(number, taken) => Ok((number, &bytes[taken..])),
        Got::Short => Err(NoText::Short),
        Got::Bad => Err(NoText::Bad),
    }
}

pub(crate) fn read_value(width: u32, bytes: &[u8]) -> Result<(u64, &[u8]), NoText>
    ensures { Takes (λ x. (x.0, x.1.now)) (IsValue width) bytes.now result }
{
    if width == 8 {
        return read_number64(bytes);
    }
    let (number, rest) = read_number32(bytes)?;
    Ok((u64::from(number), rest))
}

pub(crate) fn read_short(bytes: &[u8]) -> Result<(u32, &[u8]), NoText>
    ensures { Takes (λ x. (x.0, x.1.now)) IsShort bytes.now result }
{
    match bytes {
        [high, low, rest @ ..] => Ok((u32::from(u16::from_be_bytes([*high, *low])), rest)),
        _ => Err(NoText::Short),
    }
}

pub(crate) fn read_length(bytes: &[u8]) -> Result<(usize, &[u8]), NoText>
    ensures { Takes (λ x. (x.0, x.1.now)) IsLength bytes.now result }
{
    match bytes {
        [0, 0, ..] => Err(NoText::Bad),
        [high, low, rest @ ..] => Ok((usize::from(u16::from_be_bytes([*high, *low])), rest)),
        _ => Err(NoText::Short),
    }
}

pub(crate) fn read_body(alloc: Global, length: usize, bytes: &[u8]) -> Result<(Bytes, &[u8]), Stop>
    ensures { Reads (λ x. (x.0, x.1.now)) (IsBody length) bytes.now result }
{
    if bytes.len() < length {
        return Err(Stop::Short);
    }
    let (text, rest) = bytes.split_at(length);
    Ok((Bytes::new(Vec::from_slice(alloc, text)?), rest))
}
