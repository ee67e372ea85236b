// How blocks are taken, and groups read and applied to the pages: by one worker, or by several.
ghost use Rattle.std.specs.Prelude.{◌≤◌, ◌<◌, ◌+◌, ◌*◌, length, All, OnOk, IfOk, ⊤};
ghost use Rattle.std.specs.Thread.{IsSync};
ghost use Rattle.model_base.specs.{IsWithinLimits};
ghost use Rattle.model_base.specs.declared.limits.TheConstants.{LSN_LIMIT, MAX_LOG_BLOCKS, START_LSN};
ghost use Rattle.model_log.specs.{GroupFits, IsLayout, sn_of};
ghost use Rattle.redo_apply.specs.{ArePagesOf, AreReplayed, HaveLsns};
ghost use Rattle.redo_papply.specs.declared.apply.TheConstants.{MAX_WORKERS};
ghost use Rattle.redo_recover.specs.Full.{AreFullOf};
ghost use Rattle.redo_recover.specs.Runs.{IsFrontRun};

use crate::ahead::take_by_all;
use crate::blocks::Blocks;
use crate::full::FullBlocks;
use crate::piece::Piece;
use crate::run::Run;
use crate::stretch::read_by_all;
use crate::taking::TAILS;
use model_base::Shape;
use model_log::{Layout, Whole};
use redo_apply::Pages;
use redo_lsn::NoMemory;
use redo_papply::apply_all;
use std::alloc::{AllocError, Global};
use std::thread::Threads;

/// What takes blocks, reads groups and applies them to pages.
pub(crate) trait Replay {
    // that it may be called
    ghost is_ready: { Self → Type 0 };

    /// Whether full blocks are taken ahead of the scan.
    fn takes_ahead(&self) -> bool;

    /// The blocks that stand in a piece of the log device from this lsn on, as far as they are full, in stretches.
    fn take_stretches(
        &self,
        alloc: Global,
        layout: &Layout,
        piece: &Piece,
        tails: &[u8; TAILS],
        lsn: u64,
    ) -> Result<Vec<FullBlocks>, AllocError>
        requires ready { is_ready self.now }
        requires is_layout { IsLayout layout.now }
        requires started { START_LSN ≤ lsn }
        ensures { IfOk result (λ stretches. All (AreFullOf layout.now piece.now tails.now) stretches.items) };

    /// Groups that stand in front of the data, which starts at this lsn. There may be more, which are then read one after
    /// another.
    fn read_front(
        &self,
        alloc: Global,
        blocks: &Blocks,
        bytes: &[u8],
        start: u64,
        shape: &Shape,
    ) -> Result<Run, NoMemory>
        requires ready { is_ready self.now }
        requires few { length blocks.now.views.items ≤ MAX_LOG_BLOCKS }
        requires room { sn_of start + length bytes.now < 2 * LSN_LIMIT }
        ensures { IfOk result (IsFrontRun shape.now bytes.now start) };

    /// Applies to each page each of these groups that starts at or above its lsn. Where it fails, nothing is known of the
    /// pages.
    fn replay(
        &self,
        alloc: Global,
        pages: &mut Pages,
        groups: &[Whole],
        shape: &Shape,
    ) -> Result<(), NoMemory>
        requires ready { is_ready self.now }
        requires limits { IsWithinLimits shape.now }
        requires its_pages { ArePagesOf shape.now pages.old }
        requires fit { All (λ whole. GroupFits shape.now whole.group) groups.now }
        ensures replayed { OnOk result (AreReplayed groups.now pages.old pages.new) }
        ensures its_pages { OnOk result (ArePagesOf shape.now pages.new) };
}

/// One worker, the caller itself.
#[derive(Drop)]
pub(crate) struct OneWorker;

impl Replay for OneWorker {
    ghost is_ready = { λ _. ⊤ };

    fn takes_ahead(&self) -> bool {
        false
    }

    fn take_stretches(
        &self,
        alloc: Global,
        layout: &Layout,
        piece: &Piece,
        tails: &[u8; TAILS],
        lsn: u64,
    ) -> Result<Vec<FullBlocks>, AllocError> {
        Ok(Vec::new(alloc))
    }

    fn read_front(
        &self,
        alloc: Global,
        blocks: &Blocks,
        bytes: &[u8],
        start: u64,
        shape: &Shape,
    ) -> Result<Run, NoMemory> {
        Ok(Run::none(alloc, start))
    }

    fn replay(
        &self,
        alloc: Global,
        pages: &mut Pages,
        groups: &[Whole],
        shape: &Shape,
    ) -> Result<(), NoMemory> {
        let lsns = Vec::from_slice(alloc, pages.lsns())?;
        replay_groups(pages, lsns.as_slice(), groups, shape);
        Ok(())
    }
}

/// So many workers.
#[derive(Drop)]
pub(crate) struct Workers<'a, R> {
    pub(crate) rt: &'a R,
    pub(crate) count: u32,
}

impl<'a, R: Threads + Sync> Replay for Workers<'a, R> {
    ghost is_ready = { λ workers. (1 ≤ workers.count) × (workers.count ≤ MAX_WORKERS) × IsSync R.row };

    fn takes_ahead(&self) -> bool {
        1 < self.count
    }

    fn take_stretches(
        &self,
        alloc: Global,
        layout: &Layout,
        piece: &Piece,
        tails: &[u8; TAILS],
        lsn: u64,
    ) -> Result<Vec<FullBlocks>, AllocError> {
        take_by_all(self.rt, alloc, layout, piece, tails, lsn, self.count)
    }

    fn read_front(
        &self,
        alloc: Global,
        blocks: &Blocks,
        bytes: &[u8],
        start: u64,
        shape: &Shape,
    ) -> Result<Run, NoMemory> {
        if self.count == 1 {
            return Ok(Run::none(alloc, start));
        }
        read_by_all(self.rt, alloc, blocks, bytes, start, shape, self.count)
    }

    fn replay(
        &self,
        alloc: Global,
        pages: &mut Pages,
        groups: &[Whole],
        shape: &Shape,
    ) -> Result<(), NoMemory> {
        *pages = apply_all(self.rt, alloc, pages, groups, self.count)?;
        Ok(())
    }
}

/// Applies to each page, for which its lsn is named, each of these groups that starts at or above the lsn. It goes over the
/// groups once.
fn replay_groups(pages: &mut Pages, lsns: &[u64], groups: &[Whole], shape: &Shape)
    requires its_pages { ArePagesOf shape.now pages.old }
    requires lsns { HaveLsns pages.old lsns.now }
    requires fit { All (λ whole. GroupFits shape.now whole.group) groups.now }
    ensures replayed { AreReplayed groups.now pages.old pages.new }
    ensures its_pages { ArePagesOf shape.now pages.new }
{
    for whole in groups {
        pages.apply_where(lsns, &whole.group, whole.start, whole.end);
    }
}
