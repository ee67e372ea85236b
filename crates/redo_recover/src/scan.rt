// The scan of a log from a checkpoint on.
ghost use Rattle.std.specs.Prelude.{◌≡◌, ◌≤◌, ◌<◌, ◌+◌, ◌%◌, IfOk, IfErr};
ghost use Rattle.model_base.specs.{IsWithinLimits};
ghost use Rattle.model_base.specs.declared.limits.TheConstants.{BLOCK_SIZE, LSN_LIMIT, START_LSN};
ghost use Rattle.model_log.specs.{IsLayout, IsStop, ring_start, round_of};
ghost use Rattle.model_store.specs.{AreFoundIn, IsScan};
ghost use Rattle.redo_recover.specs.Devices.{OnContent, OnSource, IsOnlyRead, log_error_of};
ghost use Rattle.redo_recover.specs.Groups.{IsScanFault};
ghost use Rattle.redo_recover.specs.Reading.{IsScanOf};

use crate::RecFault;
use crate::blocks::{Blocks, read_blocks};
use crate::errors::log_fault;
use crate::groups::parse;
use crate::replay::Replay;
use model_base::Shape;
use model_log::{BlockView, Cause, Layout, Whole};
use model_store::Tail;
use redo_disk::Sectors;
use std::alloc::Global;

/// What is scanned of a log: the blocks, the groups in them, the lsn at which the log ends, where and why no further block is
/// read, and the tail block in which the last one stands, if it stands in one.
#[derive(Debug, Drop)]
pub(crate) struct Scanned {
    pub(crate) views: Vec<BlockView>,
    pub(crate) groups: Vec<Whole>,
    pub(crate) end: u64,
    pub(crate) stop: (u64, Cause),
    pub(crate) tail: Option<Tail>,
}

/// Scans a log from the checkpoint at this lsn on, up to its end.
pub(crate) fn scan_log<L: Sectors, P: Replay>(
    alloc: Global,
    log: &mut L,
    shape: &Shape,
    layout: &Layout,
    ckpt: u64,
    replay: &P,
) -> Result<Scanned, RecFault>
    requires ready { P.is_ready replay.now }
    requires limits { IsWithinLimits shape.now }
    requires is_layout { IsLayout layout.now }
    requires long { ring_start layout.now + round_of layout.now ≤ (L.seen log.old).size }
    requires aligned { ckpt % BLOCK_SIZE ≡ 0 }
    requires started { START_LSN ≤ ckpt }
    requires small { ckpt < LSN_LIMIT }
    ensures scan { IfOk result (λ scanned. OnSource layout.now (L.seen log.new).tells
        (λ source. IsScan shape.now layout.now.blocks source ckpt scanned.views.items scanned.groups.items scanned.end)) }
    ensures stop { IfOk result (λ scanned. OnContent (L.seen log.new).tells (IsStop layout.now ckpt scanned.views.items scanned.stop)) }
    ensures tail { IfOk result (λ scanned. OnContent (L.seen log.new).tells (λ content. AreFoundIn layout.now content ckpt scanned.views.items scanned.tail)) }
    ensures scanned { IfOk result (IsScanOf shape.now layout.now ckpt) }
    ensures fault { IfErr result (IsScanFault shape.now layout.now ckpt (L.seen log.new).tells) }
    ensures reads { IsOnlyRead L.seen L.gives log.old (log_error_of result) log.new }
{
    let blocks = match read_blocks(alloc, log, layout, ckpt, replay) {
        Ok(blocks) => blocks,
        Err(error) => return Err(log_fault(error)),
    };
    let (groups, end) = parse(alloc, &blocks, shape, ckpt, replay)?;
    let Blocks {
        views,
        stop,
        tail,
        ..
    } = blocks;
    Ok(Scanned {
        views,
        groups,
        end,
        stop,
        tail,
    })
}
