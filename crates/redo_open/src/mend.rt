// Repairing the places of pages that didn't pass.
ghost use Rattle.std.specs.Prelude.{◌≡◌, ◌<◌, None, IfSome};
ghost use Rattle.model_base.specs.{IsWithinLimits};
ghost use Rattle.model_device.specs.{IsWithin};
ghost use Rattle.model_page.specs.{data_device_length};
ghost use Rattle.redo_disk.specs.{error_of, MakesCalls};
ghost use Rattle.redo_open.specs.Mend.{IsSettledData, StandFrom, IsMended, AreMended};
ghost use Rattle.redo_open.specs.Puts.{PutsWhere};
ghost use Rattle.redo_open.specs.Store.{MendStep};
ghost use Rattle.redo_recover.specs.{HaveSlots};

use model_base::Shape;
use redo_disk::{DevError, Sectors};
use redo_recover::Places;
use redo_store::DataPart;

/// Puts the copy of a page that counts into its place, where the place didn't pass.
fn mend_page<D: Sectors>(
    part: &mut DataPart<D>,
    shape: &Shape,
    page: u32,
    places: &Places,
) -> Result<(), DevError>
    requires live { part.old.failed ≡ None }
    requires shape { shape.now ≡ part.old.shape }
    requires page { page < part.old.shape.pages }
    requires slots { HaveSlots part.old.shape places.now }
    requires settled { IfSome (D.seen part.old.dev).tells (IsSettledData part.old.shape) }
    requires stand { IfSome (D.seen part.old.dev).tells (StandFrom part.old.shape places.now page) }
    ensures step { MendStep D.seen part.old.shape (IsMended part.old.shape page) part.old result part.new }
    ensures calls { MakesCalls D.gives part.old.dev part.new.dev (PutsWhere (IsWithin (data_device_length part.old.shape)) (error_of result)) }
{
    match places.found[page as usize].slot {
        None => Ok(()),
        Some(slot) => {
            let size = shape.page_size as usize;
            let from = slot as usize * size;
            part.put_copy(page, &places.slots[from..from + size])
        }
    }
}

/// Repairs the place of each page that didn't pass when it was read, in ascending order. It reads nothing, and writes no
/// slot.
pub(crate) fn mend<D: Sectors>(
    part: &mut DataPart<D>,
    shape: &Shape,
    places: &Places,
) -> Result<(), DevError>
    requires live { part.old.failed ≡ None }
    requires shape { shape.now ≡ part.old.shape }
    requires slots { HaveSlots shape.now places.now }
    requires settled { IfSome (D.seen part.old.dev).tells (IsSettledData shape.now) }
    requires stand { IfSome (D.seen part.old.dev).tells (StandFrom shape.now places.now 0) }
    ensures step { MendStep D.seen shape.now (AreMended shape.now shape.now.pages) part.old result part.new }
    ensures calls { MakesCalls D.gives part.old.dev part.new.dev (PutsWhere (IsWithin (data_device_length shape.now)) (error_of result)) }
{
    for page in 0..shape.pages {
        mend_page(part, shape, page, places)?;
    }
    Ok(())
}
