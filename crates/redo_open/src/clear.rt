// Clearing away what stands on the log outside the kept range, in two stages.
ghost use Rattle.std.specs.Prelude.{◌≡◌, ◌≤◌, ◌+◌, ◌<◌, ◌%◌, ◌^◌, ◌↔◌, IfSome, IsTrue, Some};
ghost use Rattle.model_base.specs.declared.limits.TheConstants.{BLOCK_SIZE, START_LSN};
ghost use Rattle.model_device.specs.{IsWithin};
ghost use Rattle.model_log.specs.{IsLayout, IsTailPlace, place_in, round_of};
ghost use Rattle.model_parts.specs.{IsOfTail, IsPastKept, IsStaleTail};
ghost use Rattle.model_store.specs.{IsTakenTail};
ghost use Rattle.redo_disk.specs.{error_of, MakesCalls};
ghost use Rattle.redo_open.specs.Clear.{ClearStep, IsRingTo, IsStale, IsStaleAt, MayStart, TAILS_END, ring_end};
ghost use Rattle.redo_open.specs.Puts.{PutsWhere};
ghost use Rattle.redo_open.specs.Zeroing.{EraseStep, ZeroStep};
ghost use Rattle.redo_recover.specs.{IsTailFound};

use crate::PIECE;
use crate::zeros::write_zeros;
use model_base::BLOCK_SIZE;
use model_log::{Format, HEADER_BLOCKS, Layout};
use model_store::Tail;
use redo_disk::{DevError, Sectors};
use redo_lsn::{block_of, offset_of, round_of};

/// Whether the tail block of this number is the one that was taken.
fn is_taken(tail: Option<Tail>, k: u64) -> bool
    ensures { IsTrue result ↔ IsTakenTail tail k }
{
    match tail {
        None => false,
        Some(tail) => k == tail.which,
    }
}

/// Fills a tail block with zeros, unless it is the one that was taken.
fn clear_tail<L: Sectors>(log: &mut L, k: u64, tail: Option<Tail>) -> Result<(), DevError>
    requires place { IsTailPlace k }
    requires long { TAILS_END ≤ (L.seen log.old).size }
    ensures step { ZeroStep (IsStaleAt tail k) TAILS_END (L.seen log.old) result (L.seen log.new) }
    ensures calls { MakesCalls L.gives log.old log.new (PutsWhere (IsWithin TAILS_END) (error_of result)) }
{
    if is_taken(tail, k) {
        Ok(())
    } else {
        write_zeros(log, BLOCK_SIZE * k, BLOCK_SIZE)
    }
}

/// Fills each tail block with zeros but the one that was taken, and makes that stay.
fn clear_both_tails<L: Sectors>(log: &mut L, tail: Option<Tail>) -> Result<(), DevError>
    requires { TAILS_END ≤ (L.seen log.old).size }
    ensures step { EraseStep (IsStale tail) TAILS_END (L.seen log.old) result (L.seen log.new) }
    ensures calls { MakesCalls L.gives log.old log.new (PutsWhere (IsWithin TAILS_END) (error_of result)) }
{
    clear_tail(log, HEADER_BLOCKS, tail)?;
    clear_tail(log, HEADER_BLOCKS + 1, tail)?;
    log.sync()
}

/// The first stage: each tail block goes but the one that was taken. In format 1 there are none.
fn clear_tails<L: Sectors>(log: &mut L, layout: &Layout, tail: Option<Tail>) -> Result<(), DevError>
    requires is_layout { IsLayout layout.now }
    requires long { ring_end layout.now ≤ (L.seen log.old).size }
    ensures step { EraseStep (IsStaleTail layout.now tail) (ring_end layout.now) (L.seen log.old) result (L.seen log.new) }
    ensures calls { MakesCalls L.gives log.old log.new (PutsWhere (IsWithin (ring_end layout.now)) (error_of result)) }
{
    match layout.format {
        Format::One => Ok(()),
        Format::Two | Format::Three => clear_both_tails(log, tail),
    }
}

/// How many bytes of blocks one write clears from the block at `at` on: up to `end`, and no farther than the blocks stand
/// side by side on the device.
fn piece_length(layout: &Layout, at: u64, end: u64) -> u64
    requires is_layout { IsLayout layout.now }
    requires aligned { at % BLOCK_SIZE ≡ 0 }
    requires started { START_LSN ≤ at }
    requires end_aligned { end % BLOCK_SIZE ≡ 0 }
    requires below { at < end }
    requires small { end < 2 ^ 61 }
    ensures whole { result % BLOCK_SIZE ≡ 0 }
    ensures some { 0 < result }
    ensures few { result ≤ PIECE }
    ensures within { at + result ≤ end }
    ensures side_by_side { place_in layout.now at + result ≤ ring_end layout.now }
{
    let rest = BLOCK_SIZE * (layout.first + layout.blocks) - offset_of(at, layout);
    rest.min(end - at).min(PIECE as u64)
}

/// Fills the places of the blocks outside the kept range with zeros.
fn clear_ring<L: Sectors>(
    log: &mut L,
    layout: &Layout,
    ckpt: u64,
    start: u64,
) -> Result<(), DevError>
    requires start { MayStart layout.now ckpt start }
    requires long { ring_end layout.now ≤ (L.seen log.old).size }
    ensures step { ZeroStep (IsRingTo layout.now ckpt start (ckpt + round_of layout.now)) (ring_end layout.now)
        (L.seen log.old) result (L.seen log.new) }
    ensures calls { MakesCalls L.gives log.old log.new (PutsWhere (IsWithin (ring_end layout.now)) (error_of result)) }
{
    let end = ckpt + round_of(layout);
    let mut at = block_of(start);
    while at < end {
        let count = piece_length(layout, at, end);
        write_zeros(log, offset_of(at, layout), count)?;
        at += count;
    }
    Ok(())
}

/// Fills the place in the ring of the block that was taken from a tail block with zeros, and that tail block where its
/// block isn't kept.
fn clear_found<L: Sectors>(
    log: &mut L,
    layout: &Layout,
    start: u64,
    tail: Tail,
) -> Result<(), DevError>
    requires is_layout { IsLayout layout.now }
    requires place { IsTailPlace tail.which }
    requires started { START_LSN ≤ tail.lsn }
    requires small { tail.lsn < 2 ^ 61 }
    requires long { ring_end layout.now ≤ (L.seen log.old).size }
    ensures step { ZeroStep (IsOfTail layout.now start (Some tail)) (ring_end layout.now) (L.seen log.old) result (L.seen log.new) }
    ensures calls { MakesCalls L.gives log.old log.new (PutsWhere (IsWithin (ring_end layout.now)) (error_of result)) }
{
    write_zeros(log, offset_of(tail.lsn, layout), BLOCK_SIZE)?;
    if tail.lsn < block_of(start) {
        Ok(())
    } else {
        write_zeros(log, BLOCK_SIZE * tail.which, BLOCK_SIZE)
    }
}

/// The same, where one was.
fn clear_taken<L: Sectors>(
    log: &mut L,
    layout: &Layout,
    start: u64,
    tail: Option<Tail>,
) -> Result<(), DevError>
    requires is_layout { IsLayout layout.now }
    requires found { IfSome tail (λ found. IsTailPlace found.which × (START_LSN ≤ found.lsn) × (found.lsn < 2 ^ 61)) }
    requires long { ring_end layout.now ≤ (L.seen log.old).size }
    ensures step { ZeroStep (IsOfTail layout.now start tail) (ring_end layout.now) (L.seen log.old) result (L.seen log.new) }
    ensures calls { MakesCalls L.gives log.old log.new (PutsWhere (IsWithin (ring_end layout.now)) (error_of result)) }
{
    match tail {
        None => Ok(()),
        Some(tail) => clear_found(log, layout, start, tail),
    }
}

/// The second stage: the places of the blocks outside the kept range go, and what is left of the block that was taken from
/// a tail block.
fn clear_past<L: Sectors>(
    log: &mut L,
    layout: &Layout,
    ckpt: u64,
    start: u64,
    tail: Option<Tail>,
) -> Result<(), DevError>
    requires start { MayStart layout.now ckpt start }
    requires found { IfSome tail (IsTailFound layout.now ckpt) }
    requires long { ring_end layout.now ≤ (L.seen log.old).size }
    ensures step { EraseStep (IsPastKept layout.now ckpt start tail) (ring_end layout.now) (L.seen log.old) result (L.seen log.new) }
    ensures calls { MakesCalls L.gives log.old log.new (PutsWhere (IsWithin (ring_end layout.now)) (error_of result)) }
{
    clear_ring(log, layout, ckpt, start)?;
    clear_taken(log, layout, start, tail)?;
    log.sync()
}

/// Takes every log block away outside the range from the checkpoint's to the one before that of the start, for good. So no
/// block past the end can fit later by its number, and those go that hold only an unfinished group.
///
/// The tail blocks that the scan didn't take go first: as long as the one stands that it took, none of them counts.
pub(crate) fn clear<L: Sectors>(
    log: &mut L,
    layout: &Layout,
    ckpt: u64,
    start: u64,
    tail: Option<Tail>,
) -> Result<(), DevError>
    requires start { MayStart layout.now ckpt start }
    requires found { IfSome tail (IsTailFound layout.now ckpt) }
    requires long { ring_end layout.now ≤ (L.seen log.old).size }
    ensures step { ClearStep layout.now ckpt start tail (L.seen log.old) result (L.seen log.new) }
    ensures calls { MakesCalls L.gives log.old log.new (PutsWhere (IsWithin (ring_end layout.now)) (error_of result)) }
{
    clear_tails(log, layout, tail)?;
    clear_past(log, layout, ckpt, start, tail)
}
