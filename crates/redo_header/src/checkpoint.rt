// The checkpoint blocks.
ghost use Rattle.std.specs.Prelude.{◌≡◌, ◌≤◌, ◌<◌, ◌^◌, IsTrue};
ghost use Rattle.model_log.specs.{checkpoint_text, fits_checksum, is_checkpoint, IsLayout, newer, place_of, read_checkpoint};

use model_base::{BLOCK_SIZE, LSN_LIMIT, START_LSN};
use model_log::{Layout, RING_SIZE};
use redo_crc::sector::{field_u64, is_sealed, put, seal};
use redo_lsn::offset_of;

/// Makes the 512 bytes the checkpoint of this number at this lsn, on a device of this layout.
pub fn fill_ckpt(out: &mut [u8; 512], number: u64, lsn: u64, layout: &Layout)
    requires started { START_LSN ≤ lsn }
    requires small { lsn < 2 ^ 61 }
    requires is_layout { IsLayout layout.now }
    ensures { out.new ≡ checkpoint_text number lsn layout.now }
{
    let at = put(out, 0, &number.to_be_bytes());
    let at = put(out, at, &lsn.to_be_bytes());
    let at = put(out, at, &offset_of(lsn, layout).to_be_bytes());
    let at = put(out, at, &RING_SIZE.to_be_bytes());
    seal(out, at);
}

/// The number and the lsn of the checkpoint in header block `which`, which is 1 or 3, on a device of this layout; nothing
/// where none passes.
#[tactic(auto, unfolding(model_log::specs::Device::read_checkpoint))]
pub fn read_ckpt(bytes: &[u8; 512], which: u32, layout: &Layout) -> Option<(u64, u64)>
    requires is_layout { IsLayout layout.now }
    ensures { result ≡ read_checkpoint which layout.now bytes.now }
{
    if is_sealed(bytes) && is_checkpoint(bytes, which, layout) {
        Some((field_u64(bytes, 0), field_u64(bytes, 8)))
    } else {
        None
    }
}

// Whether the fields of 512 bytes, whose checksum fits, fit those of a checkpoint in this header block.
fn is_checkpoint(bytes: &[u8; 512], which: u32, layout: &Layout) -> bool
    requires sealed { IsTrue (fits_checksum bytes.now) }
    requires is_layout { IsLayout layout.now }
    ensures { result ≡ is_checkpoint which layout.now bytes.now }
{
    let lsn = field_u64(bytes, 8);
    place_of(field_u64(bytes, 0)) == which
        && lsn % BLOCK_SIZE == 0
        && START_LSN <= lsn
        && lsn < LSN_LIMIT
        && field_u64(bytes, 16) == offset_of(lsn, layout)
}

/// Which header block a checkpoint stands in, 1 or 3, by the parity of its number.
pub fn place_of(number: u64) -> u32
    ensures { result ≡ place_of number }
{
    if number % 2 == 0 { 1 } else { 3 }
}

/// Of two checkpoints, each its number and its lsn, the one with the greater number.
pub fn newer(first: Option<(u64, u64)>, second: Option<(u64, u64)>) -> Option<(u64, u64)>
    ensures { result ≡ newer first second }
{
    match (first, second) {
        (None, second) => second,
        (Some(first), None) => Some(first),
        (Some(first), Some(second)) => {
            if first.0 < second.0 {
                Some(second)
            } else {
                Some(first)
            }
        }
    }
}
