// The length of the group's text in front of some bytes, found without memory. What skips a text gives the bytes that
// are left.
ghost use Rattle.std.specs.Prelude.{◌<◌, slice_index, Ok};
ghost use Rattle.model_log.specs.{IsAfterType, IsBody, IsGroupText, IsRecord, IsString};
ghost use Rattle.redo_record.specs.Skipping.{GivesSpan, Skips};

use crate::bodies::{read_init, read_num, read_spot};
use crate::decoding::is_ended;
use crate::fields::read_length;
use crate::no_text::NoText;
use crate::types::{INIT, SINGLE, STRING};
use model_base::MAX_GROUP;
use redo_num::Got;

/// How long the group's text in front of the bytes is, of which it may take 8,192; or that more bytes have to come, or
/// that no group begins so. It takes no memory.
pub fn span(bytes: &[u8]) -> Got<u64>
    ensures { GivesSpan bytes.now result }
{
    let limit = MAX_GROUP as usize;
    let front = &bytes[..bytes.len().min(limit)];
    match skip_whole(front) {
        Ok(rest) => {
            let taken = front.len() - rest.len();
            Got::Value(taken as u64, taken)
        }
        Err(NoText::Short) if bytes.len() < limit => Got::Short,
        Err(NoText::Short) => Got::Bad,
        Err(NoText::Bad) => Got::Bad,
    }
}

fn skip_whole(bytes: &[u8]) -> Result<&[u8], NoText>
    ensures { Skips (λ x. x.now) IsGroupText bytes.now result }
{
    match bytes {
        [] => Err(NoText::Short),
        [first, ..] if *first >= SINGLE => skip_record(SINGLE, bytes),
        _ => skip_several(bytes),
    }
}

fn skip_several(bytes: &[u8]) -> Result<&[u8], NoText>
    requires { slice_index bytes.now 0 < SINGLE }
    ensures { Skips (λ x. x.now) IsGroupText bytes.now result }
{
    let mut count = 0u32;
    let mut rest = bytes;
    while !is_ended(rest) {
        rest = skip_record(0, rest)?;
        count = (count + 1).min(2);
    }
    if count < 2 {
        return Err(NoText::Bad);
    }
    Ok(&rest[1..])
}

fn skip_record(flag: u8, bytes: &[u8]) -> Result<&[u8], NoText>
    ensures { Skips (λ x. x.now) (IsRecord flag) bytes.now result }
{
    let [first, rest @ ..] = bytes else {
        return Err(NoText::Short);
    };
    match first.checked_sub(flag) {
        Some(kind) => skip_after_type(kind, rest),
        None => Err(NoText::Bad),
    }
}

fn skip_after_type(kind: u8, bytes: &[u8]) -> Result<&[u8], NoText>
    ensures { Skips (λ x. x.now) (IsAfterType kind) bytes.now result }
{
    match kind {
        1 | 2 | 4 | 8 => {
            let (_, rest) = read_num(u32::from(kind), bytes)?;
            Ok(rest)
        }
        STRING => skip_text(bytes),
        INIT => {
            let (_, rest) = read_init(bytes)?;
            Ok(rest)
        }
        _ => Err(NoText::Bad),
    }
}

fn skip_text(bytes: &[u8]) -> Result<&[u8], NoText>
    ensures { Skips (λ x. x.now) (IsAfterType STRING) bytes.now result }
{
    let (_, rest) = read_spot(bytes)?;
    skip_string(rest)
}

fn skip_string(bytes: &[u8]) -> Result<&[u8], NoText>
    ensures { Skips (λ x. x.now) IsString bytes.now result }
{
    let (length, rest) = read_length(bytes)?;
    skip_body(length, rest)
}

fn skip_body(length: usize, bytes: &[u8]) -> Result<&[u8], NoText>
    ensures { Skips (λ x. x.now) (IsBody length) bytes.now result }
{
    if bytes.len() < length {
        return Err(NoText::Short);
    }
    Ok(&bytes[length..])
}
