// Opening both devices.
ghost use Rattle.std.specs.Prelude.{◌≡◌, ◌≤◌, ◌<◌, ◌^◌, ℕ, None, Some, IfSome, OnOk, slice_get};
ghost use Rattle.model_base.specs.{IsWithinLimits};
ghost use Rattle.model_log.specs.{layout_of, log_device_length, start_after};
ghost use Rattle.model_page.specs.declared.content.Content.{Content};
ghost use Rattle.redo_disk.specs.{MayEndWith};
ghost use Rattle.redo_open.specs.Clear.{MayStart};
ghost use Rattle.redo_open.specs.Devices.{AreCalled, DevicesStep};
ghost use Rattle.redo_open.specs.Opening.{WritesInside};
ghost use Rattle.redo_open.specs.Mend.{IsSettledData};
ghost use Rattle.redo_recover.specs.{AreFoundOn, ArePlacesOf, data_error_of, IsTailFound, log_error_of, reading_of};

use crate::clear::clear;
use crate::mark::mark;
use crate::places::open_places;
use model_log::BLOCK_HEADER;
use redo_disk::Sectors;
use redo_lsn::layout_of;
use redo_recover::{RecFault, Recovered, log_fault};
use redo_store::DataPart;
use std::alloc::Global;

/// Clears the log outside the kept range, repairs and writes the pages, and then puts the next checkpoint where the run
/// starts, by the format that was found: the store is ready by that format then.
pub(crate) fn open_devices<L: Sectors, D: Sectors>(
    alloc: Global,
    log: &mut L,
    part: &mut DataPart<D>,
    recovered: &Recovered,
    start: u64,
) -> Result<(), RecFault>
    requires start { MayStart (layout_of recovered.now.format recovered.now.shape) recovered.now.ckpt start }
    requires limits { IsWithinLimits recovered.now.shape }
    requires tail { IfSome recovered.now.tail (IsTailFound (layout_of recovered.now.format recovered.now.shape) recovered.now.ckpt) }
    requires behind { start ≡ start_after recovered.now.end }
    requires long { log_device_length recovered.now.shape ≤ (L.seen log.old).size }
    requires live { part.old.failed ≡ None }
    requires shape { recovered.now.shape ≡ part.old.shape }
    requires settled { IfSome (D.seen part.old.dev).tells (IsSettledData recovered.now.shape) }
    requires places { ArePlacesOf recovered.now.shape recovered.now.places recovered.now.pages }
    requires found { IfSome (D.seen part.old.dev).tells
        (λ disk. AreFoundOn recovered.now.shape recovered.now.places recovered.now.pages disk.base) }
    requires small { (p : ℕ) (content : Content) → slice_get recovered.now.pages p ≡ Some content → content.lsn < 2 ^ 61 }
    ensures step { DevicesStep (reading_of recovered.now) recovered.now.tail (L.seen log.old) (D.seen part.old.dev)
        result (L.seen log.new) (D.seen part.new.dev) }
    ensures shape { part.new.shape ≡ part.old.shape }
    ensures live { OnOk result (part.new.failed ≡ None) }
    ensures called { AreCalled L.seen D.seen L.gives D.gives (MayEndWith (log_error_of result)) (MayEndWith (data_error_of result))
        log.old log.new part.old.dev part.new.dev }
    ensures inside { WritesInside L.gives D.gives recovered.now.shape log.old log.new part.old.dev part.new.dev }
{
    let layout = layout_of(recovered.format, &recovered.shape);
    match clear(log, &layout, recovered.ckpt, start, recovered.tail) {
        Ok(()) => {}
        Err(error) => return Err(log_fault(error)),
    }
    match open_places(
        alloc,
        part,
        &recovered.shape,
        &recovered.pages,
        &recovered.places,
    ) {
        Ok(()) => {}
        Err(fault) => return Err(fault),
    }
    match mark(
        log,
        recovered.format,
        &recovered.shape,
        recovered.number,
        start - BLOCK_HEADER,
    ) {
        Ok(()) => Ok(()),
        Err(error) => Err(log_fault(error)),
    }
}
