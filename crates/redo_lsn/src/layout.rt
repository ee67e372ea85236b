// Where the ring of a log stands on its device, and how much of the device it takes.
ghost use Rattle.std.specs.Prelude.{◌≡◌, ◌≤◌};
ghost use Rattle.model_base.specs.declared.limits.TheConstants.{MAX_LOG_BLOCKS};
ghost use Rattle.model_log.specs.{IsLayout, layout_of, log_device_length, round_of, run_format, run_layout};

use model_base::{BLOCK_SIZE, MIN_LOG_BLOCKS, SLOTS, Shape};
use model_log::{Format, HEADER_BLOCKS, HEADER_BYTES, Layout, TAIL_BLOCKS};

/// The layout of a store of this format and shape.
#[tactic(auto, using(model_log::proofs::Layouts::is_layout_of))]
pub fn layout_of(format: Format, shape: &Shape) -> Layout
    requires many_blocks { MIN_LOG_BLOCKS ≤ shape.now.log_blocks }
    ensures is { result ≡ layout_of format shape.now }
    ensures is_layout { shape.now.log_blocks ≤ MAX_LOG_BLOCKS → IsLayout result }
{
    let blocks = u64::from(shape.log_blocks);
    match format {
        Format::One => Layout {
            format,
            first: HEADER_BLOCKS,
            blocks,
        },
        Format::Two | Format::Three => Layout {
            format: Format::Two,
            first: HEADER_BLOCKS + TAIL_BLOCKS,
            blocks: blocks - TAIL_BLOCKS,
        },
    }
}

/// The format of a store of this shape as a run has it.
pub fn run_format(shape: &Shape) -> Format
    ensures { result ≡ run_format shape.now }
{
    if shape.slots == SLOTS {
        Format::Three
    } else {
        Format::Two
    }
}

/// The layout of each run on a store of this shape.
pub fn run_layout(shape: &Shape) -> Layout
    requires many_blocks { MIN_LOG_BLOCKS ≤ shape.now.log_blocks }
    ensures is { result ≡ run_layout shape.now }
    ensures is_layout { shape.now.log_blocks ≤ MAX_LOG_BLOCKS → IsLayout result }
{
    layout_of(Format::Two, shape)
}

/// How many bytes of lsns the ring goes round.
pub fn round_of(layout: &Layout) -> u64
    requires is_layout { IsLayout layout.now }
    ensures { result ≡ round_of layout.now }
{
    BLOCK_SIZE * layout.blocks
}

/// How long a log device of this shape has to be, in bytes, in each format.
pub fn log_device_length(shape: &Shape) -> u64
    ensures { result ≡ log_device_length shape.now }
{
    HEADER_BYTES + BLOCK_SIZE * u64::from(shape.log_blocks)
}
