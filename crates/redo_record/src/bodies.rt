// The parts of a record's text. Each reader takes one off the front, and gives the bytes that are left.
ghost use Rattle.std.specs.Prelude.{Ok};
ghost use Rattle.model_log.specs.{IsAfterType, IsPlace, IsRecord, IsSpot, IsString, IsWidth};
ghost use Rattle.redo_record.specs.Reading.{Reads, Takes};

use crate::fields::{read_body, read_length, read_number32, read_short, read_value};
use crate::no_text::NoText;
use crate::stop::Stop;
use crate::types::{INIT, STRING};
use model_log::{Place, Rec, Spot};
use redo_lsn::Bytes;
use std::alloc::Global;

fn read_place(bytes: &[u8]) -> Result<(Place, &[u8]), NoText>
    ensures { Takes (λ x. (x.0, x.1.now)) IsPlace bytes.now result }
{
    let (space, rest) = read_number32(bytes)?;
    let (page, rest) = read_number32(rest)?;
    Ok((Place { space, page }, rest))
}

pub(crate) fn read_spot(bytes: &[u8]) -> Result<(Spot, &[u8]), NoText>
    ensures { Takes (λ x. (x.0, x.1.now)) IsSpot bytes.now result }
{
    let (place, rest) = read_place(bytes)?;
    let (offset, rest) = read_short(rest)?;
    Ok((Spot { place, offset }, rest))
}

fn read_string(alloc: Global, bytes: &[u8]) -> Result<(Bytes, &[u8]), Stop>
    ensures { Reads (λ x. (x.0, x.1.now)) IsString bytes.now result }
{
    let (length, rest) = read_length(bytes)?;
    read_body(alloc, length, rest)
}

pub(crate) fn read_num(width: u32, bytes: &[u8]) -> Result<(Rec, &[u8]), NoText>
    requires { IsWidth width }
    ensures { Takes (λ x. (x.0, x.1.now)) (IsAfterType width) bytes.now result }
{
    let (spot, rest) = read_spot(bytes)?;
    let (value, rest) = read_value(width, rest)?;
    let Spot {
        place: Place { space, page },
        offset,
    } = spot;
    let rec = Rec::Num {
        width,
        space,
        page,
        offset,
        value,
    };
    Ok((rec, rest))
}

fn read_text(alloc: Global, bytes: &[u8]) -> Result<(Rec, &[u8]), Stop>
    ensures { Reads (λ x. (x.0, x.1.now)) (IsAfterType STRING) bytes.now result }
{
    let (spot, rest) = read_spot(bytes)?;
    let (bytes, rest) = read_string(alloc, rest)?;
    let Spot {
        place: Place { space, page },
        offset,
    } = spot;
    let rec = Rec::Text {
        space,
        page,
        offset,
        bytes,
    };
    Ok((rec, rest))
}

pub(crate) fn read_init(bytes: &[u8]) -> Result<(Rec, &[u8]), NoText>
    ensures { Takes (λ x. (x.0, x.1.now)) (IsAfterType INIT) bytes.now result }
{
    let (Place { space, page }, rest) = read_place(bytes)?;
    Ok((Rec::Init { space, page }, rest))
}

fn read_after_type(alloc: Global, kind: u8, bytes: &[u8]) -> Result<(Rec, &[u8]), Stop>
    ensures { Reads (λ x. (x.0, x.1.now)) (IsAfterType kind) bytes.now result }
{
    match kind {
        1 | 2 | 4 | 8 => Ok(read_num(u32::from(kind), bytes)?),
        STRING => read_text(alloc, bytes),
        INIT => Ok(read_init(bytes)?),
        _ => Err(Stop::Bad),
    }
}

/// A record whose type has this flag added, and the bytes that are left.
pub(crate) fn read_record(alloc: Global, flag: u8, bytes: &[u8]) -> Result<(Rec, &[u8]), Stop>
    ensures { Reads (λ x. (x.0, x.1.now)) (IsRecord flag) bytes.now result }
{
    let [first, rest @ ..] = bytes else {
        return Err(Stop::Short);
    };
    match first.checked_sub(flag) {
        Some(kind) => read_after_type(alloc, kind, rest),
        None => Err(Stop::Bad),
    }
}
