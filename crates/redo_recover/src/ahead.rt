// Full blocks that several workers take off the log device at once, ahead of the scan.
ghost use Rattle.std.specs.Prelude.{◌≡◌, ◌≤◌, ◌<◌, ◌+◌, ◌%◌, All, IfOk};
ghost use Rattle.model_base.specs.declared.limits.TheConstants.{BLOCK_SIZE, LSN_LIMIT, START_LSN};
ghost use Rattle.model_log.specs.{IsLayout, ring_start, round_of};
ghost use Rattle.redo_disk.specs.{error_of};
ghost use Rattle.redo_recover.specs.Blocks.{AreBounded};
ghost use Rattle.redo_recover.specs.Devices.{OnContent, IsOnlyRead};
ghost use Rattle.redo_recover.specs.Full.{AreFullIn, AreFullOf};
ghost use Rattle.redo_recover.specs.Piece.{IsPieceOf};
ghost use Rattle.redo_recover.specs.Taking.{AreTailsOf};

use crate::blocks::readable_end;
use crate::full::{FullBlocks, take_full};
use crate::piece::{PIECE, Piece};
use crate::replay::Replay;
use crate::taking::TAILS;
use model_base::BLOCK_SIZE;
use model_log::Layout;
use rayon::prelude::*;
use redo_disk::{DevError, Sectors};
use redo_lsn::offset_of;
use std::alloc::{AllocError, Global};
use std::thread::Threads;

/// How many bytes are read at once for several workers at the most.
const MOST_AHEAD: u64 = 4_194_304;

/// The lsns at which so many stretches begin, each of so many blocks, the first of them at this lsn.
fn starts_of(alloc: Global, lsn: u64, step: usize, count: u32) -> Result<Vec<u64>, AllocError>
    requires { START_LSN ≤ lsn }
    ensures { IfOk result (λ starts. All (λ start. START_LSN ≤ start) starts.items) }
{
    let mut starts = Vec::with_capacity(alloc, count as usize)?;
    let bytes = BLOCK_SIZE.saturating_mul(step as u64);
    for number in 0..count {
        starts.push(lsn.saturating_add(bytes.saturating_mul(u64::from(number))))?;
    }
    Ok(starts)
}

/// The blocks that stand in the piece from this lsn on, as far as they are full: so many stretches of them, each of which is
/// taken by a worker of its own.
pub(crate) fn take_by_all(
    rt: &(impl Threads + Sync),
    alloc: Global,
    layout: &Layout,
    piece: &Piece,
    tails: &[u8; TAILS],
    lsn: u64,
    count: u32,
) -> Result<Vec<FullBlocks>, AllocError>
    requires is_layout { IsLayout layout.now }
    requires started { START_LSN ≤ lsn }
    requires some { 1 ≤ count }
    ensures { IfOk result (λ stretches. All (AreFullOf layout.now piece.now tails.now) stretches.items) }
{
    let step = (piece.bytes.len() / BLOCK_SIZE as usize).div_ceil(count as usize);
    let starts = starts_of(alloc, lsn, step, count)?;
    take_stretches(rt, alloc, layout, piece, tails, starts.as_slice(), step)
}

/// The same for stretches of so many blocks that begin at these lsns.
fn take_stretches(
    rt: &(impl Threads + Sync),
    alloc: Global,
    layout: &Layout,
    piece: &Piece,
    tails: &[u8; TAILS],
    starts: &[u64],
    step: usize,
) -> Result<Vec<FullBlocks>, AllocError>
    requires is_layout { IsLayout layout.now }
    requires started { All (λ start. START_LSN ≤ start) starts.now }
    ensures { IfOk result (λ stretches. All (AreFullOf layout.now piece.now tails.now) stretches.items) }
{
    let stretches = starts
        .par_iter()
        .with_min_len(1)
        .map(
            |start: &u64| -> Result<FullBlocks, AllocError>
                requires { (START_LSN ≤ start.now) × IsLayout layout.now }
                ensures { IfOk result (AreFullOf layout.entry.now piece.entry.now tails.entry.now) }
            { take_full(alloc, layout, piece, tails, *start, step) },
        )
        .collect::<Result<Vec<FullBlocks>, AllocError>>(rt, alloc)?;
    stretches
}

/// Full blocks from the checkpoint's on, and what was read of the log device last.
#[derive(Debug, Drop)]
pub(crate) struct Ahead {
    pub(crate) full: FullBlocks,
    pub(crate) piece: Piece,
}

/// How far the log device is read ahead where so many blocks are taken and the next one stands at this offset: as many
/// blocks again, but at least a piece.
fn ahead_end(layout: &Layout, at: u64, taken: u64) -> u64
    requires is_layout { IsLayout layout.now }
    requires at { at % BLOCK_SIZE ≡ 0 }
    requires within { at + BLOCK_SIZE ≤ ring_start layout.now + round_of layout.now }
    requires few { taken < layout.now.blocks }
    ensures sectors { result % BLOCK_SIZE ≡ 0 }
    ensures some { at < result }
    ensures within { result ≤ ring_start layout.now + round_of layout.now }
{
    let most = (BLOCK_SIZE * taken).max(PIECE as u64).min(MOST_AHEAD);
    readable_end(layout, at, layout.blocks - taken).min(at + most)
}

/// Reads the log device from the checkpoint's block on as far as all blocks are full, where the workers take blocks ahead, and
/// joins what they take. There may be more full blocks.
pub(crate) fn read_ahead<L: Sectors, P: Replay>(
    alloc: Global,
    log: &mut L,
    layout: &Layout,
    ckpt: u64,
    tails: &[u8; TAILS],
    replay: &P,
) -> Result<Ahead, DevError>
    requires ready { P.is_ready replay.now }
    requires is_layout { IsLayout layout.now }
    requires long { ring_start layout.now + round_of layout.now ≤ (L.seen log.old).size }
    requires place { (ckpt % BLOCK_SIZE ≡ 0) × (START_LSN ≤ ckpt) × (ckpt < LSN_LIMIT) }
    requires tails { OnContent (L.seen log.old).tells (AreTailsOf layout.now.format tails.now) }
    ensures full { IfOk result (λ ahead. OnContent (L.seen log.new).tells (AreFullIn layout.now ahead.full)) }
    ensures piece { IfOk result (λ ahead. OnContent (L.seen log.new).tells (IsPieceOf ahead.piece)) }
    ensures bounded { IfOk result (λ ahead. AreBounded layout.now.blocks ahead.full.views.items ahead.full.joined.items) }
    ensures from { IfOk result (λ ahead. ahead.full.lsn ≡ ckpt) }
    ensures reads { IsOnlyRead L.seen L.gives log.old (error_of result) log.new }
{
    let mut full = FullBlocks::none(alloc, ckpt);
    let mut piece = Piece::none(alloc);
    if !replay.takes_ahead() {
        return Ok(Ahead { full, piece });
    }
    for _ in 0..layout.blocks {
        let taken = full.views.len() as u64;
        if layout.blocks <= taken {
            break;
        }
        let lsn = ckpt + BLOCK_SIZE * taken;
        let at = offset_of(lsn, layout);
        let end = ahead_end(layout, at, taken);
        piece = piece.read_over(log, at, (end - at) as usize)?;
        let stretches = replay.take_stretches(alloc, layout, &piece, tails, lsn)?;
        full.join_all(stretches, layout.blocks)?;
        if (full.views.len() as u64) < taken + (end - at) / BLOCK_SIZE {
            break;
        }
    }
    Ok(Ahead { full, piece })
}
