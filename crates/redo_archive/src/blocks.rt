// The log blocks of an archive, read in pieces.
ghost use Rattle.std.specs.Prelude.{◌≡◌, ◌≤◌, ◌<◌, ◌^◌, IfOk, IfErr, IfSome, MatchOption};
ghost use Rattle.model_archive.specs.{archive_length};
ghost use Rattle.model_base.specs.declared.limits.TheConstants.{BLOCK_SIZE};
ghost use Rattle.model_log.specs.{length_at, read_block};
ghost use Rattle.model_log.specs.declared.layout.TheConstants.{BLOCK_HEADER};
ghost use Rattle.redo_apply.specs.{ArePagesOf};
ghost use Rattle.redo_archive.specs.Restoring.{device_error_of, IsBlocksFault, IsNoBlock, IsRestoredBy, IsSoundExtent};
ghost use Rattle.redo_recover.specs.Devices.{OnContent, IsOnlyRead};

use crate::groups::Groups;
use crate::places::{archive_length, blocks_between, pages_end};
use crate::{RestoreFault, Restored};
use model_archive::Extent;
use model_base::BLOCK_SIZE;
use model_log::{BLOCK_HEADER, BlockView};
use redo_apply::Pages;
use redo_block::{block_data, read};
use redo_disk::Sectors;
use redo_lsn::{block_of, sn_of};
use redo_recover::Piece;
use std::alloc::Global;

/// The data length that the block at this lsn has to have for the mark.
fn length_at(mark: u64, block: u64) -> u64
    requires low { block ≤ mark }
    requires small { mark < 2 ^ 61 }
    ensures { result ≡ length_at mark block }
{
    if block + BLOCK_SIZE + BLOCK_HEADER <= mark {
        BLOCK_SIZE
    } else {
        mark - block
    }
}

/// What the block of this lsn says of itself, if it fits and is long enough for the mark.
fn held(bytes: &[u8; 512], mark: u64, block: u64) -> Option<BlockView>
    requires low { block ≤ mark }
    requires small { mark < 2 ^ 61 }
    ensures view { MatchOption result (IsNoBlock mark block bytes.now)
        (λ view. (read_block block bytes.now ≡ Some view) × (length_at mark block ≤ view.length)) }
    ensures length { IfSome result (λ view. (BLOCK_HEADER ≤ view.length) × (view.length ≤ BLOCK_SIZE)) }
{
    let view = read(bytes, block)?;
    if length_at(mark, block) <= u64::from(view.length) {
        Some(view)
    } else {
        None
    }
}

/// Reads the blocks with a byte below the mark, and applies to the archived pages the groups in them that end at or
/// below the lsn. A block is judged before a group, also before one that stands in front of it.
pub(crate) fn restore_blocks<A: Sectors>(
    alloc: Global,
    device: &mut A,
    extent: &Extent,
    lsn: u64,
    pages: Pages,
) -> Result<Restored, RestoreFault>
    requires sound { IsSoundExtent extent.now }
    requires long { archive_length extent.now.shape extent.now.start extent.now.mark ≤ (A.seen device.old).size }
    requires its_pages { ArePagesOf extent.now.shape pages }
    ensures restored { IfOk result (λ restored. OnContent (A.seen device.new).tells
        (IsRestoredBy extent.now lsn pages restored)) }
    ensures its_pages { IfOk result (λ restored. ArePagesOf extent.now.shape restored.pages) }
    ensures fault { IfErr result (IsBlocksFault extent.now (A.seen device.new).tells) }
    ensures reads { IsOnlyRead A.seen A.gives device.old (device_error_of result) device.new }
{
    let first = block_of(extent.start);
    let from = pages_end(&extent.shape);
    let end = archive_length(&extent.shape, extent.start, extent.mark);
    let mut left = (sn_of(extent.mark) - sn_of(extent.start)) as usize;
    let mut groups = Groups::none(alloc, pages, extent.start);
    let mut piece = Piece {
        from: 0,
        bytes: Vec::new(alloc),
    };
    for i in 0..blocks_between(extent.start, extent.mark) {
        let at = from + BLOCK_SIZE * i;
        piece = piece.with_sector(alloc, device, at, end)?;
        let block = piece.sector(at);
        let block_lsn = first + BLOCK_SIZE * i;
        let Some(view) = held(block, extent.mark, block_lsn) else {
            return Err(RestoreFault::Block(block_lsn));
        };
        let data = block_data(view, block);
        let count = data.len().min(left);
        groups = groups.take(alloc, &data[..count], &extent.shape, lsn)?;
        left -= count;
    }
    let Groups {
        restored,
        at,
        broken,
        ..
    } = groups;
    if broken {
        return Err(RestoreFault::Record(at));
    }
    Ok(restored)
}
