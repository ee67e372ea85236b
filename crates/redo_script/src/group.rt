// The group that a line logs.
ghost use Rattle.std.specs.Prelude.{◌≡◌, map, IfOk};
ghost use Rattle.model_script.specs.{group_of, record_of};

use model_base::Bytes;
use model_log::{Group, Rec};
use model_script::{Item, ScriptLine};
use redo_lsn::NoMemory;
use std::alloc::{AllocError, Global};

// The record of an operation on a store with this space id.
fn record_of(alloc: Global, space: u32, item: &Item) -> Result<Rec, AllocError>
    ensures { IfOk result (λ rec. rec ≡ record_of space item.now) }
{
    match item {
        Item::Num {
            width,
            page,
            offset,
            value,
        } => Ok(Rec::Num {
            width: *width,
            space,
            page: *page,
            offset: *offset,
            value: *value,
        }),
        Item::Text {
            page,
            offset,
            bytes,
        } => Ok(Rec::Text {
            space,
            page: *page,
            offset: *offset,
            bytes: Bytes::new(Vec::from_slice(alloc, bytes.as_slice())?),
        }),
        Item::Init { page } => Ok(Rec::Init { space, page: *page }),
    }
}

// One record for each operation, in order.
fn records_of(alloc: Global, space: u32, items: &[Item]) -> Result<Vec<Rec>, AllocError>
    ensures { IfOk result (λ recs. recs.items ≡ map (record_of space) items.now) }
{
    let mut recs = Vec::new(alloc);
    for item in items {
        recs.push(record_of(alloc, space, item)?)?;
    }
    Ok(recs)
}

/// The group that the line logs on a store with this space id: one record for each operation, in order.
pub fn group_of(alloc: Global, line: &ScriptLine, space: u32) -> Result<Group, NoMemory>
    ensures { IfOk result (λ group. group ≡ group_of space line.now) }
{
    Ok(Group(records_of(alloc, space, line.items.0.as_slice())?))
}
