// The blocks of a log from a checkpoint on, read off the log device.
ghost use Rattle.std.specs.Prelude.{◌≡◌, ◌≤◌, ◌<◌, ◌+◌, ◌%◌, ◌^◌, length, IfOk, IfSome};
ghost use Rattle.model_base.specs.declared.limits.TheConstants.{LSN_LIMIT, MAX_LOG_BLOCKS, START_LSN};
ghost use Rattle.model_log.specs.{IsLayout, IsStop, ring_start, round_of};
ghost use Rattle.model_store.specs.{AreFoundIn, groups_start};
ghost use Rattle.redo_disk.specs.{error_of};
ghost use Rattle.redo_recover.specs.Blocks.{AreBlocksOf, AreBounded};
ghost use Rattle.redo_recover.specs.Devices.{OnContent, OnSource, IsOnlyRead};
ghost use Rattle.redo_recover.specs.Reading.{IsTailFound};
ghost use Rattle.redo_recover.specs.Taking.{AreTailsOf};

use crate::ahead::{Ahead, read_ahead};
use crate::full::FullBlocks;
use crate::replay::Replay;
use crate::taking::{TAILS, bytes_at, is_full, tail_at, take, untaken};
use model_base::BLOCK_SIZE;
use model_log::{BlockView, Cause, Format, HEADER_BYTES, Layout};
use model_store::Tail;
use redo_block::block_data;
use redo_disk::{DevError, Sectors};
use redo_lsn::{offset_of, round_of};
use std::alloc::Global;

/// The blocks of a log from a checkpoint on.
#[derive(Debug, Drop)]
pub(crate) struct Blocks {
    /// What each says of itself.
    pub(crate) views: Vec<BlockView>,
    /// Their data, joined.
    pub(crate) joined: Vec<u8>,
    /// Where no further one is read, and why.
    pub(crate) stop: (u64, Cause),
    /// The tail block in which the last of them stands, if it stands in one.
    pub(crate) tail: Option<Tail>,
}

/// Up to which offset the log device may be read for the blocks from this one on, of which so many are left: they stand
/// side by side up to the ring's end.
pub(crate) fn readable_end(layout: &Layout, at: u64, left: u64) -> u64
    requires is_layout { IsLayout layout.now }
    requires at { at % BLOCK_SIZE ≡ 0 }
    requires within { at + BLOCK_SIZE ≤ ring_start layout.now + round_of layout.now }
    requires some { 1 ≤ left }
    requires few { left ≤ layout.now.blocks }
    ensures sectors { result % BLOCK_SIZE ≡ 0 }
    ensures some { at < result }
    ensures within { result ≤ ring_start layout.now + round_of layout.now }
{
    (at + BLOCK_SIZE * left).min(BLOCK_SIZE * (layout.first + layout.blocks))
}

/// Reads the two tail blocks, which a log of format 1 doesn't have.
fn read_tails<L: Sectors>(log: &mut L, format: Format) -> Result<[u8; TAILS], DevError>
    requires { HEADER_BYTES + TAILS ≤ (L.seen log.old).size }
    ensures tails { IfOk result (λ tails. OnContent (L.seen log.new).tells (AreTailsOf format tails)) }
    ensures reads { IsOnlyRead L.seen L.gives log.old (error_of result) log.new }
{
    let mut tails = [0; TAILS];
    match format {
        Format::One => {}
        Format::Two | Format::Three => log.read(HEADER_BYTES, &mut tails)?,
    }
    Ok(tails)
}

/// Reads the blocks from the checkpoint's on, while they are taken, up to and including the first that isn't full; at most
/// as many as the log has. The tail blocks are read first, and no sector twice. Full blocks in front may be taken by several
/// workers.
pub(crate) fn read_blocks<L: Sectors, P: Replay>(
    alloc: Global,
    log: &mut L,
    layout: &Layout,
    ckpt: u64,
    replay: &P,
) -> Result<Blocks, DevError>
    requires ready { P.is_ready replay.now }
    requires is_layout { IsLayout layout.now }
    requires long { ring_start layout.now + round_of layout.now ≤ (L.seen log.old).size }
    requires aligned { ckpt % BLOCK_SIZE ≡ 0 }
    requires started { START_LSN ≤ ckpt }
    requires small { ckpt < LSN_LIMIT }
    ensures blocks { IfOk result (λ blocks. OnSource layout.now (L.seen log.new).tells (AreBlocksOf layout.now.blocks ckpt blocks.views.items blocks.joined.items)) }
    ensures bounded { IfOk result (λ blocks. AreBounded layout.now.blocks blocks.views.items blocks.joined.items) }
    ensures stop { IfOk result (λ blocks. OnContent (L.seen log.new).tells (IsStop layout.now ckpt blocks.views.items blocks.stop)) }
    ensures tail { IfOk result (λ blocks. OnContent (L.seen log.new).tells (λ content. AreFoundIn layout.now content ckpt blocks.views.items blocks.tail)) }
    ensures found { IfOk result (λ blocks. IfSome blocks.tail (IsTailFound layout.now ckpt)) }
    ensures reads { IsOnlyRead L.seen L.gives log.old (error_of result) log.new }
{
    let tails = read_tails(log, layout.format)?;
    let ahead = read_ahead(alloc, log, layout, ckpt, &tails, replay)?;
    let Ahead { full, piece } = ahead;
    let FullBlocks { views, joined, .. } = full;
    let mut views = views;
    let mut joined = joined;
    let mut piece = piece;
    for i in views.len() as u64..layout.blocks {
        let lsn = ckpt + BLOCK_SIZE * i;
        let at = offset_of(lsn, layout);
        let end = readable_end(layout, at, layout.blocks - i);
        piece = piece.with_sector(alloc, log, at, end)?;
        let place = piece.sector(at);
        let Some((stand, view)) = take(layout.format, lsn, place, &tails) else {
            let stop = (lsn, untaken(place, lsn));
            return Ok(Blocks {
                views,
                joined,
                stop,
                tail: None,
            });
        };
        views.push(view)?;
        joined.extend_from_slice(block_data(view, bytes_at(stand, place, &tails)))?;
        if !is_full(view) {
            let stop = (lsn, Cause::Partial);
            let tail = tail_at(stand, lsn);
            return Ok(Blocks {
                views,
                joined,
                stop,
                tail,
            });
        }
    }
    let next = ckpt + round_of(layout);
    Ok(Blocks {
        views,
        joined,
        stop: (next, Cause::Round),
        tail: None,
    })
}

/// Where the groups start that are read: at the first offset that isn't 0, in the first block that has one. The first
/// of the blocks is the checkpoint's.
pub(crate) fn groups_start(ckpt: u64, views: &[BlockView]) -> Option<u64>
    requires small { ckpt < LSN_LIMIT }
    requires few { length views.now ≤ MAX_LOG_BLOCKS }
    ensures start { result ≡ groups_start ckpt views.now }
    ensures small { IfSome result (λ start. start < LSN_LIMIT + 2 ^ 33) }
{
    let mut lsn = ckpt;
    for view in views {
        if view.first != 0 {
            return Some(lsn + u64::from(view.first));
        }
        lsn += BLOCK_SIZE;
    }
    None
}
