// Devices in memory, and parts on them.
ghost use Rattle.std.specs.Prelude.{◌≡◌, ◌≤◌, ◌+◌, ◌%◌, IfOk, None};
ghost use Rattle.model_base.specs.{default_shape, IsWithinLimits};
ghost use Rattle.model_base.specs.declared.limits.TheConstants.{EARLY_SLOTS};

use model_base::{DEFAULT_LOG_BLOCKS, DEFAULT_PAGES, DEFAULT_SPACE, EARLY_SLOTS, PAGE_SIZE, Shape};
use redo_disk::Sectors;
use redo_logdev::LogPart;
use redo_memdisk::MemDisk;
use redo_store::DataPart;
use std::alloc::{AllocError, Global};
use std::process::Abort;

/// The smallest log, and eight pages.
pub const SHAPE: Shape = Shape {
    page_size: 4096,
    pages: 8,
    space: 1,
    log_blocks: 1024,
    slots: 8,
};

/// Bytes of the log device.
pub const LOG: u64 = 526_336;

/// Bytes of the data device: eight slots and eight places.
pub const DATA: u64 = 65_536;

/// Bytes of a page.
pub const PAGE: usize = 4096;

/// User bytes of a page.
pub const USER: usize = 4050;

/// Where a run starts.
pub const START: u64 = 8_204;

/// A device in memory that is so long.
pub fn blank(alloc: Global, len: u64) -> Result<MemDisk, AllocError>
    requires { len % 512 ≡ 0 }
    ensures { IfOk result (λ memory. (⟦<MemDisk as Sectors>⟧.seen memory).size ≡ len) }
{
    MemDisk::new(alloc, len)
}

/// A log part on a device on which a run starts.
pub fn log_part_on<L: Sectors + Drop>(rt: &impl Abort, alloc: Global, device: L) -> LogPart<L>
    requires size { LOG ≤ (L.seen device).size }
    ensures live { result.failed ≡ None }
    ensures blocks { result.shape.log_blocks ≡ 1024 }
    ensures written { result.marks.written ≡ START }
    ensures stable { result.marks.stable ≡ START }
    ensures ckpt { result.marks.ckpt + 12 ≡ START }
    ensures asked { result.marks.asked + 12 ≡ START }
{
    let Ok(part) = LogPart::new(alloc, device, &SHAPE, START, 1) else {
        panic!(rt; "no memory");
    };
    part
}

/// The default sizes of a store of format 2.
#[tactic(auto, using(crate::proofs::Early::early_within))]
pub fn early_shape() -> Shape
    ensures shape { result ≡ record default_shape { slots = EARLY_SLOTS } }
    ensures limits { IsWithinLimits result }
{
    Shape {
        page_size: PAGE_SIZE,
        pages: DEFAULT_PAGES,
        space: DEFAULT_SPACE,
        log_blocks: DEFAULT_LOG_BLOCKS,
        slots: EARLY_SLOTS,
    }
}

/// A part of such a store on a device.
pub fn data_part_on<D: Sectors + Drop>(rt: &impl Abort, alloc: Global, device: D) -> DataPart<D>
    requires { DATA ≤ (D.seen device).size }
    ensures live { result.failed ≡ None }
    ensures shape { result.shape ≡ record default_shape { slots = EARLY_SLOTS } }
    ensures dev { result.dev ≡ device }
{
    let Ok(part) = DataPart::new(alloc, device, &early_shape()) else {
        panic!(rt; "no memory");
    };
    part
}
