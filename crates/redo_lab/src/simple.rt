// The commands that take no script.
ghost use Rattle.std.specs.Prelude.{◌≤◌};
ghost use Rattle.model_base.specs.{IsWithinLimits};
ghost use Rattle.model_script.specs.declared.asked.Command.TheVariants.{Format, Recover, Dump};
ghost use Rattle.model_script.specs.declared.words.TheConstants.{MAX_WORKERS};
ghost use Rattle.redo_lab.specs.Call.{asked_shape};
ghost use Rattle.redo_lab.specs.Done.{IsUnreadEnd};

use crate::faults::fault_of;
use crate::laws::laws;
use crate::outcome::{Done, Outcome};
use crate::reading::{listing_of, reading_text};
use crate::shapes::shape_of;
use redo_disk::Sectors;
use redo_memdisk::Fused;
use redo_open::format;
use redo_recover::{recover, recover_with};
use redo_report::formatted;
use std::alloc::Global;
use std::thread::Threads;

/// Formats both devices.
pub(crate) fn format_devices<L: Sectors, D: Sectors>(
    alloc: Global,
    page_size: u32,
    pages: u32,
    space: u32,
    log_blocks: u32,
    log: L,
    store: D,
) -> Done<L, D>
    requires { IsWithinLimits (asked_shape page_size pages space log_blocks) }
    ensures { IsUnreadEnd L.seen L.gives D.seen D.gives log store (Format page_size pages space log_blocks) result }
{
    laws();
    let mut log = Fused::plain(log);
    let mut store = Fused::plain(store);
    let shape = shape_of(page_size, pages, space, log_blocks);
    let outcome = match format(&mut log, &mut store, &shape) {
        Ok(()) => Outcome::of_text(formatted(alloc)),
        Err(fault) => Outcome::Fault(fault_of(fault)),
    };
    Done {
        outcome,
        log,
        store,
    }
}

/// Reads the store by so many workers, and prints its pages.
pub(crate) fn print_pages<R: Threads + Sync, L: Sectors, D: Sectors>(
    rt: &R,
    alloc: Global,
    workers: u32,
    log: L,
    store: D,
) -> Done<L, D>
    requires { (1 ≤ workers) × (workers ≤ MAX_WORKERS) }
    ensures { IsUnreadEnd L.seen L.gives D.seen D.gives log store (Recover workers) result }
{
    laws();
    let mut log = Fused::plain(log);
    let mut store = Fused::plain(store);
    let outcome = match recover_with(rt, alloc, &mut log, &mut store, workers) {
        Ok(recovered) => Outcome::of_text(reading_text(alloc, &recovered)),
        Err(fault) => Outcome::Fault(fault_of(fault)),
    };
    Done {
        outcome,
        log,
        store,
    }
}

/// Reads the store, and lists what stands on its devices, and where that is asked why no further block is read.
pub(crate) fn print_store<L: Sectors, D: Sectors>(
    alloc: Global,
    why: bool,
    log: L,
    store: D,
) -> Done<L, D>
    ensures { IsUnreadEnd L.seen L.gives D.seen D.gives log store (Dump why) result }
{
    laws();
    let mut log = Fused::plain(log);
    let mut store = Fused::plain(store);
    let outcome = match recover(alloc, &mut log, &mut store) {
        Ok(recovered) => Outcome::of_text(listing_of(alloc, &recovered, why)),
        Err(fault) => Outcome::Fault(fault_of(fault)),
    };
    Done {
        outcome,
        log,
        store,
    }
}
