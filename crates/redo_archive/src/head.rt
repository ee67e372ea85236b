// The head of an archive.
ghost use Rattle.std.specs.Prelude.{◌≡◌};
ghost use Rattle.model_archive.specs.{archive_head_text, is_run_start, read_archive_head};
ghost use Rattle.model_log.specs.{shape_of};

use model_archive::ARCHIVE_FORMAT;
use model_base::{BLOCK_SIZE, FIRST_DATA_LSN, LSN_LIMIT};
use model_log::BLOCK_HEADER;
use redo_crc::sector::{field_u32, field_u64, is_sealed, put, seal};
use redo_lsn::{Limits, Shape};

/// Who made the archive.
const CREATOR: &[u8; 32] = b"redolab A\0\0\0\0\0\0\0\0\0\0\0\0\0\0\0\0\0\0\0\0\0\0\0";

/// Makes the 512 bytes the head of an archive of a run of a store of this shape that starts there.
pub(crate) fn fill_archive_head(out: &mut [u8; 512], start: u64, shape: &Shape)
    ensures { out.new ≡ archive_head_text start shape.now }
{
    let at = put(out, 0, &ARCHIVE_FORMAT.to_be_bytes());
    let at = put(out, at, &0u32.to_be_bytes());
    let at = put(out, at, &start.to_be_bytes());
    let at = put(out, at, CREATOR);
    let at = put(out, at, &shape.page_size.to_be_bytes());
    let at = put(out, at, &shape.pages.to_be_bytes());
    let at = put(out, at, &shape.space.to_be_bytes());
    let at = put(out, at, &shape.log_blocks.to_be_bytes());
    let at = put(out, at, &shape.slots.to_be_bytes());
    seal(out, at);
}

/// The sizes that the fields of a head name.
fn shape_of(bytes: &[u8; 512]) -> Shape
    ensures { result ≡ shape_of bytes.now }
{
    Shape {
        page_size: field_u32(bytes, 48),
        pages: field_u32(bytes, 52),
        space: field_u32(bytes, 56),
        log_blocks: field_u32(bytes, 60),
        slots: field_u32(bytes, 64),
    }
}

/// Whether a run may start there: at the first data byte of a block.
fn is_run_start(start: u64) -> bool
    ensures { result ≡ is_run_start start }
{
    start % BLOCK_SIZE == BLOCK_HEADER && FIRST_DATA_LSN <= start && start < LSN_LIMIT
}

/// Where the run starts and the shape of its store, by the 512 bytes of a head; nothing where it doesn't pass.
#[tactic(auto, unfolding(model_archive::specs::Restore::read_archive_head))]
pub(crate) fn read_archive_head(bytes: &[u8; 512]) -> Option<(u64, Shape)>
    ensures { result ≡ read_archive_head bytes.now }
{
    let shape = shape_of(bytes);
    let start = field_u64(bytes, 8);
    if is_sealed(bytes)
        && field_u32(bytes, 0) == ARCHIVE_FORMAT
        && shape.is_within_limits()
        && is_run_start(start)
    {
        Some((start, shape))
    } else {
        None
    }
}
