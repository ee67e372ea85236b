// Full blocks of a log that stand one after another in the ring: how one worker takes them, and how stretches of them are
// joined.
ghost use Rattle.std.specs.Prelude.{ℕ, List, ◌≡◌, ◌≤◌, ◌<◌, length, All, OnOk, IfOk};
ghost use Rattle.model_base.specs.declared.limits.TheConstants.{LSN_LIMIT, MAX_LOG_BLOCKS, START_LSN};
ghost use Rattle.model_log.specs.{IsLayout};
ghost use Rattle.model_log.specs.declared.layout.Layout.{Layout};
ghost use Rattle.redo_recover.specs.Full.{AreFullIn, AreFullOf, HasBounds};

use crate::piece::Piece;
use crate::taking::{TAILS, bytes_at, is_full, take};
use model_base::{BLOCK_SIZE, LSN_LIMIT};
use model_log::{BLOCK_DATA, BlockView, Layout};
use redo_block::block_data;
use redo_lsn::offset_of;
use std::alloc::{AllocError, Global};

/// Full blocks of a log, one after another.
#[derive(Debug, Drop)]
pub(crate) struct FullBlocks {
    /// The lsn of the first one.
    pub(crate) lsn: u64,
    /// What each says of itself.
    pub(crate) views: Vec<BlockView>,
    /// Their data, joined.
    pub(crate) joined: Vec<u8>,
}

impl FullBlocks {
    /// None yet, of those from this lsn on.
    pub(crate) fn none(alloc: Global, lsn: u64) -> FullBlocks
        ensures full { (layout : Layout) (image : List ℕ) → AreFullIn layout result image }
        ensures bounds { HasBounds result }
        ensures few { length result.views.items ≡ 0 }
        ensures lsn { result.lsn ≡ lsn }
    {
        let views = Vec::new(alloc);
        let joined = Vec::new(alloc);
        FullBlocks { lsn, views, joined }
    }

    /// Takes over those of another stretch, if they begin where these end; a log has so many at the most.
    fn join(&mut self, next: FullBlocks, most: u64) -> Result<(), AllocError>
        requires small { self.old.lsn < LSN_LIMIT }
        requires most { most ≤ MAX_LOG_BLOCKS }
        requires few { length self.old.views.items ≤ most }
        ensures full { OnOk result ((layout : Layout) (image : List ℕ) → AreFullIn layout self.old image → AreFullIn layout next image → AreFullIn layout self.new image) }
        ensures bounds { OnOk result (HasBounds self.old → HasBounds next → HasBounds self.new) }
        ensures few { OnOk result (length self.new.views.items ≤ most) }
        ensures lsn { self.new.lsn ≡ self.old.lsn }
    {
        let count = self.views.len() as u64;
        let mut next = next;
        if next.lsn == self.lsn + BLOCK_SIZE * count && next.views.len() as u64 <= most - count {
            self.views.append(&mut next.views)?;
            self.joined.append(&mut next.joined)?;
        }
        Ok(())
    }

    /// Takes over those of all these stretches, as far as each begins where the one before it ends.
    pub(crate) fn join_all(
        &mut self,
        stretches: Vec<FullBlocks>,
        most: u64,
    ) -> Result<(), AllocError>
        requires small { self.old.lsn < LSN_LIMIT }
        requires most { most ≤ MAX_LOG_BLOCKS }
        requires few { length self.old.views.items ≤ most }
        ensures full { OnOk result ((layout : Layout) (image : List ℕ) → AreFullIn layout self.old image → All (λ full. AreFullIn layout full image) stretches.items → AreFullIn layout self.new image) }
        ensures bounds { OnOk result (HasBounds self.old → All HasBounds stretches.items → HasBounds self.new) }
        ensures kept { OnOk result ((length self.new.views.items ≤ most) × (self.new.lsn ≡ self.old.lsn)) }
    {
        for stretch in stretches {
            self.join(stretch, most)?;
        }
        Ok(())
    }
}

/// The blocks that the scan takes from this lsn on, out of a piece of the log device and the tail blocks, up to the first
/// that isn't full or isn't in the piece, and so many at the most.
pub(crate) fn take_full(
    alloc: Global,
    layout: &Layout,
    piece: &Piece,
    tails: &[u8; TAILS],
    lsn: u64,
    most: usize,
) -> Result<FullBlocks, AllocError>
    requires is_layout { IsLayout layout.now }
    requires started { START_LSN ≤ lsn }
    ensures { IfOk result (AreFullOf layout.now piece.now tails.now) }
{
    let mut views = Vec::with_capacity(alloc, most)?;
    let mut joined = Vec::with_capacity(alloc, most.saturating_mul(BLOCK_DATA as usize))?;
    let mut next = lsn;
    for _ in 0..most {
        if LSN_LIMIT <= next {
            break;
        }
        let at = offset_of(next, layout);
        if !piece.has_sector(at) {
            break;
        }
        let place = piece.sector(at);
        let Some((stand, view)) = take(layout.format, next, place, tails) else {
            break;
        };
        if !is_full(view) {
            break;
        }
        views.push(view)?;
        joined.extend_from_slice(block_data(view, bytes_at(stand, place, tails)))?;
        next += BLOCK_SIZE;
    }
    Ok(FullBlocks { lsn, views, joined })
}
