// The file header.
ghost use Rattle.std.specs.Prelude.{◌≡◌, IsTrue};
ghost use Rattle.model_log.specs.HeadText.{format_number};
ghost use Rattle.model_log.specs.{fits_checksum, format_of, good_head, head_among, head_text, read_head, shape_of};

use model_base::START_LSN;
use model_log::{Format, Head};
use redo_crc::sector::{field_u32, field_u64, is_sealed, put, seal};
use redo_lsn::{Limits, Shape, has_sizes_of};

/// Who made the store.
const CREATOR: &[u8; 32] = b"redolab 1\0\0\0\0\0\0\0\0\0\0\0\0\0\0\0\0\0\0\0\0\0\0\0";

/// Makes the 512 bytes the header of a store of this format and shape.
pub fn fill_head(out: &mut [u8; 512], format: Format, shape: &Shape)
    ensures { out.new ≡ head_text format shape.now }
{
    let at = put(out, 0, &number_of(format).to_be_bytes());
    let at = put(out, at, &0u32.to_be_bytes());
    let at = put(out, at, &START_LSN.to_be_bytes());
    let at = put(out, at, CREATOR);
    let at = put(out, at, &shape.page_size.to_be_bytes());
    let at = put(out, at, &shape.pages.to_be_bytes());
    let at = put(out, at, &shape.space.to_be_bytes());
    let at = put(out, at, &shape.log_blocks.to_be_bytes());
    let at = put(out, at, &shape.slots.to_be_bytes());
    seal(out, at);
}

/// What the two header blocks say together: the first of them, or the second where the first one's checksum fails.
pub fn read_head(first: &[u8; 512], second: &[u8; 512]) -> Head
    ensures { result ≡ head_among first.now second.now }
{
    if is_sealed(first) {
        read_one_head(first)
    } else {
        read_one_head(second)
    }
}

/// What 512 bytes say as a file header.
#[tactic(auto, unfolding(model_log::specs::Device::read_head))]
pub fn read_one_head(bytes: &[u8; 512]) -> Head
    ensures { result ≡ read_head bytes.now }
{
    if is_sealed(bytes) {
        read_sealed_head(bytes)
    } else {
        Head::Unformatted
    }
}

// The same, once the checksum was found to fit.
#[tactic(auto, unfolding(model_log::specs::Device::read_head))]
fn read_sealed_head(bytes: &[u8; 512]) -> Head
    requires { IsTrue (fits_checksum bytes.now) }
    ensures { result ≡ read_head bytes.now }
{
    let number = field_u32(bytes, 0);
    match format_of(number) {
        Some(format) => good_head(format, bytes),
        None => Head::OtherFormat(number),
    }
}

// What a header says whose checksum and format are good.
fn good_head(format: Format, bytes: &[u8; 512]) -> Head
    ensures { result ≡ good_head format bytes.now }
{
    let shape = shape_of(bytes);
    if field_u64(bytes, 8) == START_LSN
        && shape.is_within_limits()
        && has_sizes_of(format, &shape)
    {
        Head::Good(format, shape)
    } else {
        Head::Unformatted
    }
}

// The number by which a header names its format.
fn number_of(format: Format) -> u32
    ensures { result ≡ format_number format }
{
    match format {
        Format::One => 1,
        Format::Two => 2,
        Format::Three => 3,
    }
}

// The format of this number.
fn format_of(number: u32) -> Option<Format>
    ensures { result ≡ format_of number }
{
    match number {
        1 => Some(Format::One),
        2 => Some(Format::Two),
        3 => Some(Format::Three),
        _ => None,
    }
}

// The sizes that the fields of a header name.
fn shape_of(bytes: &[u8; 512]) -> Shape
    ensures { result ≡ shape_of bytes.now }
{
    Shape {
        page_size: field_u32(bytes, 48),
        pages: field_u32(bytes, 52),
        space: field_u32(bytes, 56),
        log_blocks: field_u32(bytes, 60),
        slots: field_u32(bytes, 64),
    }
}
