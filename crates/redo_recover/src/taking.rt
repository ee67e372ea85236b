// Which block the scan takes at an lsn. In format 1 it is the one in its place, if it fits. In formats 2 and 3 it is
// the one in its place, if it fits and is full; else of the tail blocks that fit the one with the greater length.
ghost use Rattle.std.specs.Prelude.{◌≡◌, ◌≤◌, ◌<◌, ◌^◌, IfSome};
ghost use Rattle.model_log.specs.{cause_at, is_full, misfit_of};
ghost use Rattle.model_log.specs.declared.layout.TheConstants.{BLOCK_HEADER};
ghost use Rattle.model_store.specs.{if_full, if_tail};
ghost use Rattle.redo_recover.specs.Blocks.{HasFirst};
ghost use Rattle.redo_recover.specs.Taking.{bytes_at, chosen, five_of, found_among, found_at, four_of, tail_block_at};

use crate::piece::sector_at;
use model_base::{BLOCK_SIZE, LSN_LIMIT};
use model_log::{BlockView, Cause, Fit, Format, HEADER_BLOCKS, TAIL_BLOCKS};
use model_store::Tail;
use redo_block::{read, why};

/// Bytes of the two tail blocks.
pub(crate) const TAILS: usize = (BLOCK_SIZE * TAIL_BLOCKS) as usize;

/// Where a block stands that is taken.
#[derive(Clone, Copy, Debug, PartialEq, Eq)]
pub(crate) enum Stand {
    /// In its place in the ring.
    Place,
    /// In the first tail block.
    Four,
    /// In the second one.
    Five,
}

/// Whether the block's data is all in use.
pub(crate) fn is_full(view: BlockView) -> bool
    ensures { result ≡ is_full view }
{
    u64::from(view.length) == BLOCK_SIZE
}

/// The view, if the block is full.
fn if_full(view: Option<BlockView>) -> Option<BlockView>
    ensures { result ≡ if_full view }
{
    match view {
        None => None,
        Some(view) => { if is_full(view) { Some(view) } else { None } }
    }
}

/// The view, if the block isn't full and names the turn of the lsn.
fn if_tail(lsn: u64, view: Option<BlockView>) -> Option<BlockView>
    ensures { result ≡ if_tail lsn view }
{
    match view {
        None => None,
        Some(view) => {
            if is_full(view) {
                None
            } else if u64::from(view.ckpt) == lsn / (1 << 39) {
                Some(view)
            } else {
                None
            }
        }
    }
}

/// Of two tail blocks the one with the greater length, the first on a tie.
fn longer(first: Option<BlockView>, second: Option<BlockView>) -> Option<(Stand, BlockView)>
    ensures { result ≡ chosen first second }
{
    match (first, second) {
        (None, None) => None,
        (None, Some(second)) => Some((Stand::Five, second)),
        (Some(first), None) => Some((Stand::Four, first)),
        (Some(first), Some(second)) => {
            if first.length < second.length {
                Some((Stand::Five, second))
            } else {
                Some((Stand::Four, first))
            }
        }
    }
}

/// The block that is taken at an lsn below the limit, of what stands in its place and in the two tail blocks.
fn take_among(
    format: Format,
    lsn: u64,
    place: &[u8; 512],
    four: &[u8; 512],
    five: &[u8; 512],
) -> Option<(Stand, BlockView)>
    requires { lsn < 2 ^ 61 }
    ensures { result ≡ found_among format lsn place.now four.now five.now }
{
    let found = read(place, lsn);
    let in_place = match format {
        Format::One => found,
        Format::Two | Format::Three => if_full(found),
    };
    match (in_place, format) {
        (Some(view), _) => Some((Stand::Place, view)),
        (None, Format::One) => None,
        (None, Format::Two | Format::Three) => {
            longer(if_tail(lsn, read(four, lsn)), if_tail(lsn, read(five, lsn)))
        }
    }
}

/// The block that the scan takes at the lsn, of what stands in its place and in the two tail blocks; none at the lsn limit
/// or above.
pub(crate) fn take(
    format: Format,
    lsn: u64,
    place: &[u8; 512],
    tails: &[u8; TAILS],
) -> Option<(Stand, BlockView)>
    ensures found { result ≡ found_at format lsn place.now (four_of tails.now) (five_of tails.now) }
    ensures length { IfSome result (λ found. (BLOCK_HEADER ≤ found.1.length) × (found.1.length ≤ BLOCK_SIZE)) }
    ensures first { IfSome result (λ found. HasFirst found.1) }
{
    if lsn < LSN_LIMIT {
        let four = sector_at(tails.as_slice(), 0);
        let five = sector_at(tails.as_slice(), BLOCK_SIZE as usize);
        take_among(format, lsn, place, four, five)
    } else {
        None
    }
}

/// The bytes that stand there.
pub(crate) fn bytes_at<'a>(
    stand: Stand,
    place: &'a [u8; 512],
    tails: &'a [u8; TAILS],
) -> &'a [u8; 512]
    ensures { result.now ≡ bytes_at place.now tails.now stand }
{
    match stand {
        Stand::Place => place,
        Stand::Four => sector_at(tails.as_slice(), 0),
        Stand::Five => sector_at(tails.as_slice(), BLOCK_SIZE as usize),
    }
}

/// The tail block in which the block at the lsn stands, if it stands in one.
pub(crate) fn tail_at(stand: Stand, lsn: u64) -> Option<Tail>
    ensures { result ≡ tail_block_at lsn stand }
{
    match stand {
        Stand::Place => None,
        Stand::Four => Some(Tail {
            which: HEADER_BLOCKS,
            lsn,
        }),
        Stand::Five => Some(Tail {
            which: HEADER_BLOCKS + 1,
            lsn,
        }),
    }
}

/// What of a block in its place doesn't fit; where all of it does and it isn't taken, it isn't full.
fn misfit_of(fit: Fit) -> Fit
    ensures { result ≡ misfit_of fit }
{
    match fit {
        Fit::Whole => Fit::Length,
        other => other,
    }
}

/// Why the scan takes no block at the lsn, of which this stands in its place, where it takes none.
pub(crate) fn untaken(place: &[u8; 512], lsn: u64) -> Cause
    ensures { result ≡ cause_at lsn place.now }
{
    if lsn < LSN_LIMIT {
        Cause::Misfit(misfit_of(why(place, lsn)))
    } else {
        Cause::End
    }
}
