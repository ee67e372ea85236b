// Reading the text of a group.
ghost use Rattle.std.specs.Prelude.{◌≡◌, ◌↔◌, ◌≤◌, ◌<◌, slice_index, IsTrue, IfOk, Ok};
ghost use Rattle.model_log.specs.{GivesGroup, IsGroupText};
ghost use Rattle.redo_record.specs.Reading.{Reads};

use crate::bodies::read_record;
use crate::stop::Stop;
use crate::types::{END_MARK, SINGLE};
use model_base::MAX_GROUP;
use model_log::Group;
use redo_lsn::NoMemory;
use redo_num::Got;
use std::alloc::Global;

/// Reads a group off the front of the bytes, of which it may take 8,192: the group and the length of its text, or that
/// more bytes have to come, or that no group begins so. It fails only where memory runs out.
pub fn decode(alloc: Global, bytes: &[u8]) -> Result<Got<Group>, NoMemory>
    ensures { IfOk result (GivesGroup bytes.now) }
{
    let limit = MAX_GROUP as usize;
    let front = &bytes[..bytes.len().min(limit)];
    match read_whole(alloc, front) {
        Ok((group, rest)) => Ok(Got::Value(group, front.len() - rest.len())),
        Err(Stop::Short) if bytes.len() < limit => Ok(Got::Short),
        Err(Stop::Short) => Ok(Got::Bad),
        Err(Stop::Bad) => Ok(Got::Bad),
        Err(Stop::Memory) => Err(NoMemory),
    }
}

fn read_whole(alloc: Global, bytes: &[u8]) -> Result<(Group, &[u8]), Stop>
    ensures { Reads (λ x. (x.0, x.1.now)) IsGroupText bytes.now result }
{
    match bytes {
        [] => Err(Stop::Short),
        [first, ..] if *first >= SINGLE => read_single(alloc, bytes),
        _ => read_several(alloc, bytes),
    }
}

fn read_single(alloc: Global, bytes: &[u8]) -> Result<(Group, &[u8]), Stop>
    requires { SINGLE ≤ slice_index bytes.now 0 }
    ensures { Reads (λ x. (x.0, x.1.now)) IsGroupText bytes.now result }
{
    let (rec, rest) = read_record(alloc, SINGLE, bytes)?;
    let mut recs = Vec::with_capacity(alloc, 1)?;
    recs.push(rec)?;
    Ok((Group(recs), rest))
}

fn read_several(alloc: Global, bytes: &[u8]) -> Result<(Group, &[u8]), Stop>
    requires { slice_index bytes.now 0 < SINGLE }
    ensures { Reads (λ x. (x.0, x.1.now)) IsGroupText bytes.now result }
{
    let mut recs = Vec::with_capacity(alloc, 2)?;
    let mut rest = bytes;
    while !is_ended(rest) {
        let (rec, after) = read_record(alloc, 0, rest)?;
        recs.push(rec)?;
        rest = after;
    }
    if recs.len() < 2 {
        return Err(Stop::Bad);
    }
    Ok((Group(recs), &rest[1..]))
}

pub(crate) fn is_ended(bytes: &[u8]) -> bool
    ensures { IsTrue result ↔ (slice_index bytes.now 0 ≡ END_MARK) }
{
    bytes.first() == Some(&END_MARK)
}
