// Opening the data device.
ghost use Rattle.std.specs.Prelude.{◌≡◌, ◌<◌, ◌^◌, ℕ, None, Some, IfSome, slice_get};
ghost use Rattle.model_base.specs.{IsWithinLimits};
ghost use Rattle.model_device.specs.{IsWithin};
ghost use Rattle.model_page.specs.{data_device_length};
ghost use Rattle.model_page.specs.declared.content.Content.{Content};
ghost use Rattle.redo_disk.specs.{MakesCalls, MayEndWith};
ghost use Rattle.redo_open.specs.Mend.{IsSettledData};
ghost use Rattle.redo_open.specs.Places.{PlacesStep};
ghost use Rattle.redo_open.specs.Puts.{ArePuts};
ghost use Rattle.redo_recover.specs.{AreFoundOn, ArePlacesOf, data_error_of};

use crate::batch::Batch;
use crate::mend::mend;
use crate::rewrite::rewrite;
use model_base::Shape;
use redo_apply::Pages;
use redo_disk::Sectors;
use redo_recover::{Places, RecFault, data_fault};
use redo_store::DataPart;
use std::alloc::Global;

/// Repairs each place that didn't pass when it was read, and then writes each page, as it was read, that has changed since
/// it was found. It reads nothing.
pub(crate) fn open_places<D: Sectors>(
    alloc: Global,
    part: &mut DataPart<D>,
    shape: &Shape,
    pages: &Pages,
    places: &Places,
) -> Result<(), RecFault>
    requires live { part.old.failed ≡ None }
    requires shape { shape.now ≡ part.old.shape }
    requires limits { IsWithinLimits shape.now }
    requires settled { IfSome (D.seen part.old.dev).tells (IsSettledData shape.now) }
    requires places { ArePlacesOf shape.now places.now pages.now }
    requires found { IfSome (D.seen part.old.dev).tells (λ disk. AreFoundOn shape.now places.now pages.now disk.base) }
    requires small { (p : ℕ) (content : Content) → slice_get pages.now p ≡ Some content → content.lsn < 2 ^ 61 }
    ensures step { PlacesStep D.seen shape.now pages.now part.old result part.new }
    ensures calls { MakesCalls D.gives part.old.dev part.new.dev (MayEndWith (data_error_of result)) }
    ensures inside { MakesCalls D.gives part.old.dev part.new.dev (ArePuts (IsWithin (data_device_length shape.now))) }
{
    let mut batch = match Batch::new(alloc, shape) {
        Ok(batch) => batch,
        Err(_) => return Err(RecFault::NoMemory),
    };
    match mend(part, shape, places) {
        Ok(()) => {}
        Err(error) => return Err(data_fault(error)),
    }
    match rewrite(part, shape, pages, places, &mut batch) {
        Ok(()) => Ok(()),
        Err(error) => Err(data_fault(error)),
    }
}
