// The sizes of a store that is formatted.
ghost use Rattle.std.specs.Prelude.{◌≡◌};
ghost use Rattle.redo_lab.specs.Call.{asked_shape};

use model_base::Shape;

/// Bytes of a log device on which a store of the default sizes has room.
pub const LOG_LENGTH: u64 = 1_050_624;
/// Bytes of its data device.
pub const STORE_LENGTH: u64 = 557_056;
/// Bytes of an archive's device in memory.
pub const ARCHIVE_LENGTH: u64 = 16_777_216;

/// The sizes that the words of `format` ask for.
pub(crate) fn shape_of(page_size: u32, pages: u32, space: u32, log_blocks: u32) -> Shape
    ensures { result ≡ asked_shape page_size pages space log_blocks }
{
    Shape {
        page_size,
        pages,
        space,
        log_blocks,
        ..Shape::default_shape()
    }
}
