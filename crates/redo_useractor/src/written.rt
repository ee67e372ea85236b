// What the records of a group write on a page.
ghost use Rattle.std.specs.Prelude.{◌≡◌, ◌≤◌, ◌==◌, if◌then◌else◌};
ghost use Rattle.std.specs.Int.{byte_at};
ghost use Rattle.model_log.specs.{page_of};
ghost use Rattle.redo_useractor.specs.Written.{cell_byte, cells_end, first_cell, first_page, first_word, later, next_page, next_word, own_byte, recorded_byte, words_end};

use model_base::{MAX_PAGE_SIZE, USER_START};
use model_core::WORD_LANES;
use model_log::Rec;
use redo_apply::page_of;

/// No page has a word of this number.
pub(crate) const WORDS_END: usize = MAX_PAGE_SIZE as usize / WORD_LANES as usize;

/// A byte of a number; its lowest is byte 0.
fn number_byte(value: u64, place: usize) -> u8
    ensures { result ≡ byte_at place value }
{
    let mut left = value;
    for _ in 0..place {
        left /= 256;
    }
    (left % 256) as u8
}

/// The byte that a record writes at this user byte of its page, which has so many, if it writes there.
fn own_byte(user_bytes: usize, rec: &Rec, j: usize) -> Option<u8>
    ensures { result ≡ own_byte user_bytes rec.now j }
{
    match rec {
        Rec::Num {
            width,
            offset,
            value,
            ..
        } => {
            let width = *width as usize;
            let start = offset.saturating_sub(USER_START) as usize;
            if start <= j && j - start < width {
                Some(number_byte(*value, width - 1 - (j - start)))
            } else {
                None
            }
        }
        Rec::Text { offset, bytes, .. } => {
            let start = offset.saturating_sub(USER_START) as usize;
            if start <= j && j - start < bytes.len() {
                Some(bytes.as_slice()[j - start])
            } else {
                None
            }
        }
        Rec::Init { .. } => { if j < user_bytes { Some(0) } else { None } }
    }
}

/// The byte that a record leaves at this user byte of this page, where one of the records before it left the old one.
fn left_byte(user_bytes: usize, rec: &Rec, page: u32, j: usize, old: Option<u8>) -> Option<u8>
    ensures { result ≡ (if page_of rec.now == page then later (own_byte user_bytes rec.now j) old else old) }
{
    if page_of(rec) == page {
        match own_byte(user_bytes, rec, j) {
            Some(byte) => Some(byte),
            None => old,
        }
    } else {
        old
    }
}

/// The byte that the records leave at this user byte of this page, if one of them writes there, else the old one.
fn written(user_bytes: usize, recs: &[Rec], page: u32, j: usize, old: Option<u8>) -> Option<u8>
    ensures { result ≡ recorded_byte user_bytes page recs.now j old }
{
    match recs {
        [rec, rest @ ..] => written(
            user_bytes,
            rest,
            page,
            j,
            left_byte(user_bytes, rec, page, j, old),
        ),
        [] => old,
    }
}

/// The byte that the records leave in this cell of the page, if one of them writes there.
pub(crate) fn cell_byte(user_bytes: usize, recs: &[Rec], page: u32, cell: usize) -> Option<u8>
    ensures { result ≡ cell_byte user_bytes page recs.now cell }
{
    if cell < USER_START as usize {
        return None;
    }
    written(user_bytes, recs, page, cell - USER_START as usize, None)
}

/// The first cell that a record writes.
pub(crate) fn first_cell(rec: &Rec) -> usize
    ensures { result ≡ first_cell rec.now }
{
    match rec {
        Rec::Num { offset, .. } | Rec::Text { offset, .. } => *offset as usize,
        Rec::Init { .. } => USER_START as usize,
    }
}

/// The cell after the last that a record writes.
pub(crate) fn cells_end(user_bytes: usize, rec: &Rec) -> usize
    requires { user_bytes ≤ MAX_PAGE_SIZE }
    ensures { result ≡ cells_end user_bytes rec.now }
{
    match rec {
        Rec::Num { width, offset, .. } => *offset as usize + *width as usize,
        Rec::Text { offset, bytes, .. } => *offset as usize + bytes.as_slice().len(),
        Rec::Init { .. } => USER_START as usize + user_bytes,
    }
}

/// The first word of this page's frame, from this one on, that a record changes.
pub(crate) fn first_word(user_bytes: usize, rec: &Rec, page: u32, word: usize) -> usize
    requires user_bytes { user_bytes ≤ MAX_PAGE_SIZE }
    requires word { word ≤ words_end }
    ensures { result ≡ first_word user_bytes page word rec.now }
{
    let first = first_cell(rec);
    let end = cells_end(user_bytes, rec);
    if page_of(rec) == page && first < end && WORD_LANES as usize * word < end {
        word.max(first / WORD_LANES as usize)
    } else {
        WORDS_END
    }
}

/// The first word of this page's frame, from this one on, that one of the records changes, or the best so far.
pub(crate) fn next_word(
    user_bytes: usize,
    recs: &[Rec],
    page: u32,
    word: usize,
    best: usize,
) -> usize
    requires user_bytes { user_bytes ≤ MAX_PAGE_SIZE }
    requires word { word ≤ words_end }
    ensures { result ≡ next_word user_bytes page word recs.now best }
{
    match recs {
        [rec, rest @ ..] => next_word(
            user_bytes,
            rest,
            page,
            word,
            best.min(first_word(user_bytes, rec, page, word)),
        ),
        [] => best,
    }
}

/// The page of a record, if that is below the best so far and none of those before this one.
fn first_page(rec: &Rec, from: u32, best: u32) -> u32
    ensures { result ≡ first_page from rec.now best }
{
    let page = page_of(rec);
    if from <= page && page < best {
        page
    } else {
        best
    }
}

/// The first page, from this one on, that one of the records is on, or the best so far.
pub(crate) fn next_page(recs: &[Rec], from: u32, best: u32) -> u32
    ensures { result ≡ next_page from recs.now best }
{
    match recs {
        [rec, rest @ ..] => next_page(rest, from, first_page(rec, from, best)),
        [] => best,
    }
}
