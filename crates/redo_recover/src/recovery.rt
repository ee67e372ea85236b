// Recovery.
ghost use Rattle.std.specs.Prelude.{◌≤◌};
ghost use Rattle.redo_papply.specs.declared.apply.TheConstants.{MAX_WORKERS};
ghost use Rattle.redo_recover.specs.Recovery.{Recovers};

use crate::pages::{Placed, read_pages};
use crate::replay::{OneWorker, Replay, Workers};
use crate::scan::{Scanned, scan_log};
use crate::start::{Start, read_start};
use crate::{RecFault, Recovered};
use redo_disk::Sectors;
use redo_lsn::layout_of;
use std::alloc::Global;
use std::thread::Threads;

/// Reads a store off its two devices, with blocks taken, and groups read and applied, by the workers that are handed in.
fn recover_by<L: Sectors, D: Sectors, P: Replay>(
    alloc: Global,
    log: &mut L,
    data_device: &mut D,
    replay: &P,
) -> Result<Recovered, RecFault>
    requires { P.is_ready replay.now }
    ensures { Recovers L.seen L.gives D.seen D.gives log.old log.new data_device.old data_device.new result }
{
    let Start {
        format,
        shape,
        number,
        ckpt,
    } = read_start(log, data_device)?;
    let layout = layout_of(format, &shape);
    let Scanned {
        views,
        groups,
        end,
        stop,
        tail,
    } = scan_log(alloc, log, &shape, &layout, ckpt, replay)?;
    let Placed { pages, places } = read_pages(
        alloc,
        data_device,
        &shape,
        groups.as_slice(),
        end,
        replay,
    )?;
    Ok(Recovered {
        format,
        shape,
        number,
        ckpt,
        views,
        groups,
        end,
        stop,
        tail,
        pages,
        places,
    })
}

/// Reads a store off its two devices: the file header, the newest checkpoint, the log's blocks and groups from there on,
/// and the pages as they are kept, to which each group is applied that starts at or above a page's lsn.
///
/// It writes nothing. It reads the log's header, in format 2 its tail blocks, its other blocks in pieces of at most 65,536
/// bytes, and then the slots and places of the data device. A device's failure ends it at once.
pub fn recover<L: Sectors, D: Sectors>(
    alloc: Global,
    log: &mut L,
    data_device: &mut D,
) -> Result<Recovered, RecFault>
    ensures { Recovers L.seen L.gives D.seen D.gives log.old log.new data_device.old data_device.new result }
{
    recover_by(alloc, log, data_device, &OneWorker)
}

/// The same, with blocks taken, and groups read and applied, by so many workers. Several of them have blocks read by up to 4 MiB
/// at once: a piece first, and then never more than was taken so far. What it gives and what it refuses doesn't depend on their
/// number.
pub fn recover_with<R: Threads + Sync, L: Sectors, D: Sectors>(
    rt: &R,
    alloc: Global,
    log: &mut L,
    data_device: &mut D,
    workers: u32,
) -> Result<Recovered, RecFault>
    requires { (1 ≤ workers) × (workers ≤ MAX_WORKERS) }
    ensures { Recovers L.seen L.gives D.seen D.gives log.old log.new data_device.old data_device.new result }
{
    recover_by(alloc, log, data_device, &Workers { rt, count: workers })
}
