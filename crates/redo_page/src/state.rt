// What the check of a page's bytes finds, and whether they count as a page's place or as a copy of it.
ghost use Rattle.std.specs.Prelude.{◌≡◌, ◌+◌, ◌≤◌, length};
ghost use Rattle.model_base.specs.{field, frame_length};
ghost use Rattle.model_page.specs.{copy_lsn_by, is_blank, is_sound, page_check, place_lsn_by};

use byteorder::{BigEndian, ByteOrder};
use model_base::{PAGE_TRAILER, Shape};
use model_page::{LSN_START, NUMBER_START, PageState, SPACE_START};
use redo_crc::crc32c;

/// Bytes of a checksum, of a number, and of half an lsn.
const HALF: usize = 4;
/// Bytes of an lsn.
const LSN_BYTES: usize = 2 * HALF;

/// The number of four bytes at this offset.
fn number_at(bytes: &[u8], at: usize) -> u32
    requires { at + HALF ≤ length bytes.now }
    ensures { result ≡ field HALF at bytes.now }
{
    BigEndian::read_u32(&bytes[at..])
}

/// The lsn in the head of a page.
fn lsn_of(bytes: &[u8]) -> u64
    requires { frame_length ≤ length bytes.now }
    ensures { result ≡ field LSN_BYTES LSN_START bytes.now }
{
    BigEndian::read_u64(&bytes[LSN_START as usize..])
}

/// Whether all bytes are 0.
fn is_blank(bytes: &[u8]) -> bool
    ensures { result ≡ is_blank bytes.now }
{
    bytes.iter().all(|byte| *byte == 0)
}

/// Whether both checksums fit, and the trailer has the low half of the lsn.
fn is_sound(bytes: &[u8]) -> bool
    requires { frame_length ≤ length bytes.now }
    ensures { result ≡ is_sound bytes.now }
{
    let trailer = bytes.len() - PAGE_TRAILER as usize;
    let checksum = crc32c(&bytes[NUMBER_START as usize..trailer]);
    number_at(bytes, 0) == checksum
        && number_at(bytes, trailer) == checksum
        && u64::from(number_at(bytes, trailer + HALF)) == lsn_of(bytes) % (1 << 32)
}

/// What the check of a page's bytes finds.
#[tactic(auto, unfolding(model_page::specs::Page::page_check))]
pub fn check(bytes: &[u8]) -> PageState
    requires { frame_length ≤ length bytes.now }
    ensures { result ≡ page_check bytes.now }
{
    if is_blank(bytes) {
        PageState::Blank
    } else if is_sound(bytes) {
        PageState::Sound(
            number_at(bytes, NUMBER_START as usize),
            number_at(bytes, SPACE_START as usize),
            lsn_of(bytes),
        )
    } else {
        PageState::Broken
    }
}

/// The lsn of a page in this state, where it is sound with this number and the store's space id.
fn own_lsn(state: PageState, shape: &Shape, page: u32) -> Option<u64>
    ensures { result ≡ copy_lsn_by shape.now page state }
{
    match state {
        PageState::Sound(number, space, lsn) if number == page && space == shape.space => Some(lsn),
        _ => None,
    }
}

/// The lsn of these bytes as the place of a page, where they pass: they are blank, which counts as 0, or sound with the
/// page's number and the store's space id.
pub fn place_lsn(bytes: &[u8], shape: &Shape, page: u32) -> Option<u64>
    requires { frame_length ≤ length bytes.now }
    ensures { result ≡ place_lsn_by shape.now page (page_check bytes.now) }
{
    match check(bytes) {
        PageState::Blank => Some(0),
        state => own_lsn(state, shape, page),
    }
}

/// The lsn of these bytes as a copy of a page, where they pass: they are sound with the page's number and the store's
/// space id.
pub fn copy_lsn(bytes: &[u8], shape: &Shape, page: u32) -> Option<u64>
    requires { frame_length ≤ length bytes.now }
    ensures { result ≡ copy_lsn_by shape.now page (page_check bytes.now) }
{
    own_lsn(check(bytes), shape, page)
}
