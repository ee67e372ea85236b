// Writing the pages that have changed since they were found.
ghost use Rattle.std.specs.Prelude.{◌≡◌, ◌≤◌, ◌<◌, ◌^◌, ◌+◌, ℕ, List, [], length, None, Some, OnOk, slice_get};
ghost use Rattle.model_base.specs.{IsWithinLimits};
ghost use Rattle.model_parts.specs.{IsWritable};
ghost use Rattle.model_device.specs.{IsWithin};
ghost use Rattle.model_page.specs.{data_device_length};
ghost use Rattle.model_page.specs.declared.content.Content.{Content};
ghost use Rattle.redo_apply.specs.{ArePagesOf};
ghost use Rattle.redo_disk.specs.{error_of, MakesCalls};
ghost use Rattle.redo_open.specs.Rewrite.{AreGathered, GatherStep, RewriteStep};
ghost use Rattle.redo_open.specs.Puts.{PutsWhere};
ghost use Rattle.redo_recover.specs.declared.places.Found.{Found};

use crate::batch::Batch;
use model_base::Shape;
use redo_apply::Pages;
use redo_disk::{DevError, Sectors};
use redo_recover::Places;
use redo_store::DataPart;

/// Writes the pages of the batch, which has none then.
fn write_gathered<D: Sectors>(part: &mut DataPart<D>, batch: &mut Batch) -> Result<(), DevError>
    requires live { part.old.failed ≡ None }
    requires limits { IsWithinLimits part.old.shape }
    requires writable { IsWritable part.old.shape batch.old.pairs batch.old.users }
    ensures step { (pages : List Content) (found : List Found) (count : ℕ) → AreGathered part.old.shape pages count batch.old
        → GatherStep D.seen part.old.shape pages found count count part.old batch.old result part.new batch.new }
    ensures emptied { OnOk result (length batch.new.pairs ≡ 0) }
    ensures calls { MakesCalls D.gives part.old.dev part.new.dev (PutsWhere (IsWithin (data_device_length part.old.shape)) (error_of result)) }
{
    if batch.pairs().is_empty() {
        return Ok(());
    }
    part.write_batch(batch.pairs(), batch.users())?;
    batch.clear();
    Ok(())
}

/// Writes the pages of the batch if there are as many as slots.
fn make_room<D: Sectors>(part: &mut DataPart<D>, batch: &mut Batch) -> Result<(), DevError>
    requires live { part.old.failed ≡ None }
    requires limits { IsWithinLimits part.old.shape }
    requires shape { batch.old.shape ≡ part.old.shape }
    requires writable { IsWritable part.old.shape batch.old.pairs batch.old.users }
    ensures step { (pages : List Content) (found : List Found) (count : ℕ) → AreGathered part.old.shape pages count batch.old
        → GatherStep D.seen part.old.shape pages found count count part.old batch.old result part.new batch.new }
    ensures room { OnOk result (length batch.new.pairs < part.old.shape.slots) }
    ensures calls { MakesCalls D.gives part.old.dev part.new.dev (PutsWhere (IsWithin (data_device_length part.old.shape)) (error_of result)) }
{
    if batch.is_full() {
        write_gathered(part, batch)
    } else {
        Ok(())
    }
}

/// Adds a page to the batch as it was read, where it has changed since it was found. A full batch is written before.
fn gather_page<D: Sectors>(
    part: &mut DataPart<D>,
    pages: &Pages,
    page: u32,
    places: &Places,
    batch: &mut Batch,
) -> Result<(), DevError>
    requires live { part.old.failed ≡ None }
    requires limits { IsWithinLimits part.old.shape }
    requires page { page < part.old.shape.pages }
    requires pages { ArePagesOf part.old.shape pages.now }
    requires small { (p : ℕ) (content : Content) → slice_get pages.now p ≡ Some content → content.lsn < 2 ^ 61 }
    requires found { length places.now.found.items ≡ part.old.shape.pages }
    requires gathered { AreGathered part.old.shape pages.now page batch.old }
    ensures step { GatherStep D.seen part.old.shape pages.now places.now.found.items page (page + 1)
        part.old batch.old result part.new batch.new }
    ensures calls { MakesCalls D.gives part.old.dev part.new.dev (PutsWhere (IsWithin (data_device_length part.old.shape)) (error_of result)) }
{
    let lsn = pages.lsn(page);
    if places.found[page as usize].lsn == lsn {
        return Ok(());
    }
    make_room(part, batch)?;
    batch.add(page, lsn, pages.user_bytes(page));
    Ok(())
}

/// Writes each page that has changed since it was found, as it was read, in ascending order and as many at a time as there
/// are slots. It reads nothing.
pub(crate) fn rewrite<D: Sectors>(
    part: &mut DataPart<D>,
    shape: &Shape,
    pages: &Pages,
    places: &Places,
    batch: &mut Batch,
) -> Result<(), DevError>
    requires live { part.old.failed ≡ None }
    requires shape { shape.now ≡ part.old.shape }
    requires limits { IsWithinLimits shape.now }
    requires pages { ArePagesOf shape.now pages.now }
    requires small { (p : ℕ) (content : Content) → slice_get pages.now p ≡ Some content → content.lsn < 2 ^ 61 }
    requires found { length places.now.found.items ≡ shape.now.pages }
    requires none { batch.old ≡ record { shape = shape.now; pairs = []; users = [] } }
    ensures step { RewriteStep D.seen shape.now pages.now places.now.found.items 0 shape.now.pages part.old result part.new }
    ensures calls { MakesCalls D.gives part.old.dev part.new.dev (PutsWhere (IsWithin (data_device_length shape.now)) (error_of result)) }
{
    for page in 0..shape.pages {
        gather_page(part, pages, page, places, batch)?;
    }
    write_gathered(part, batch)
}
