// One block of the log, filled and read in place.
ghost use Rattle.std.specs.Prelude.{◌≡◌, ◌≢◌, ◌≤◌, ◌<◌, ◌^◌, ◌↔◌, length, None, IfSome, IsTrue};
ghost use Rattle.model_log.specs.{block_text, block_view, data_of, fit_of, fits_number, is_first, is_length, length_of, read_block};
ghost use Rattle.model_log.specs.declared.fit.Fit.TheVariants.{Whole};

use model_base::BLOCK_SIZE;
use model_log::{BLOCK_DATA, BLOCK_DATA_END, BLOCK_HEADER, BlockView, Fit};
use redo_crc::sector::{field_u16, field_u32, is_sealed, put, seal};
use redo_lsn::number_of;

/// The data length of a block that holds so many data bytes: a block with all its data counts as 512 bytes.
pub fn length_of(count: usize) -> u16
    requires { count ≤ BLOCK_DATA }
    ensures { result ≡ length_of count }
{
    if count == BLOCK_DATA as usize {
        BLOCK_SIZE as u16
    } else {
        BLOCK_HEADER as u16 + count as u16
    }
}

/// Makes the 512 bytes the block at the lsn that holds these data bytes, has its first group at this offset, and was
/// written under this checkpoint.
pub fn fill(out: &mut [u8; 512], lsn: u64, bytes: &[u8], first: u32, ckpt: u32)
    requires small { lsn < 2 ^ 61 }
    requires room { length bytes.now ≤ BLOCK_DATA }
    requires offset { IsTrue (is_first (length_of (length bytes.now)) first) }
    ensures { out.new ≡ block_text lsn bytes.now first ckpt }
{
    let at = put(out, 0, &number_of(lsn).to_be_bytes());
    let at = put(out, at, &length_of(bytes.len()).to_be_bytes());
    let at = put(out, at, &(first as u16).to_be_bytes());
    let at = put(out, at, &ckpt.to_be_bytes());
    let at = put(out, at, bytes);
    seal(out, at);
}

// What the fields of a block say.
fn view_of(bytes: &[u8; 512]) -> BlockView
    ensures { result ≡ block_view bytes.now }
{
    BlockView {
        length: u32::from(field_u16(bytes, 4)),
        first: u32::from(field_u16(bytes, 6)),
        ckpt: field_u32(bytes, 8),
    }
}

// Whether the number, without the flush bit, is that of the lsn.
fn fits_number(bytes: &[u8; 512], lsn: u64) -> bool
    ensures { result ≡ fits_number lsn bytes.now }
{
    field_u32(bytes, 0) % (1 << 31) == number_of(lsn)
}

// Whether a block's data ends within its data bytes, or the block is full.
fn is_length(length: u32) -> bool
    ensures { result ≡ is_length length }
{
    BLOCK_HEADER as u32 <= length && length < BLOCK_DATA_END as u32 || length == BLOCK_SIZE as u32
}

/// Whether there is no first group, or it begins among the data that is in use.
pub fn is_first(length: u32, first: u32) -> bool
    ensures { result ≡ is_first length first }
{
    first == 0 || BLOCK_HEADER as u32 <= first && first <= length.min(BLOCK_DATA_END as u32 - 1)
}

/// What is read off 512 bytes at an lsn; nothing where they are no block of it.
#[tactic(auto, unfolding(model_log::specs::Block::read_block, model_log::specs::Block::is_block_at))]
pub fn read(bytes: &[u8; 512], lsn: u64) -> Option<BlockView>
    requires { lsn < 2 ^ 61 }
    ensures value { result ≡ read_block lsn bytes.now }
    ensures length { IfSome result (λ view. (BLOCK_HEADER ≤ view.length) × (view.length ≤ BLOCK_SIZE)) }
{
    let view = view_of(bytes);
    if fits_number(bytes, lsn)
        && is_length(view.length)
        && is_first(view.length, view.first)
        && is_sealed(bytes)
    {
        Some(view)
    } else {
        None
    }
}

/// Why 512 bytes are read as a block of an lsn, or aren't. It takes no memory.
#[tactic(auto, unfolding(model_log::specs::Block::read_block, model_log::specs::Block::is_block_at))]
pub fn why(bytes: &[u8; 512], lsn: u64) -> Fit
    requires { lsn < 2 ^ 61 }
    ensures value { result ≡ fit_of lsn bytes.now }
    ensures unread { (read_block lsn bytes.now ≡ None) ↔ (result ≢ Whole) }
{
    let view = view_of(bytes);
    if !fits_number(bytes, lsn) {
        Fit::Number
    } else if !is_length(view.length) {
        Fit::Length
    } else if !is_first(view.length, view.first) {
        Fit::First
    } else if !is_sealed(bytes) {
        Fit::Checksum
    } else {
        Fit::Whole
    }
}

/// The data bytes in use of a block that was read.
pub fn block_data(view: BlockView, bytes: &[u8; 512]) -> &[u8]
    requires low { BLOCK_HEADER ≤ view.length }
    requires high { view.length ≤ BLOCK_SIZE }
    ensures { result.now ≡ data_of view bytes.now }
{
    &bytes[BLOCK_HEADER as usize..view.length.min(BLOCK_DATA_END as u32) as usize]
}
