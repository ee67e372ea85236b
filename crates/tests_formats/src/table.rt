// The words of a table's row, with blanks between them. A row that lacks one, or has another word, ends its test.
use redo_crc::sector::put;
use redo_lsn::{Format, Shape};
use std::process::Abort;
use std::str::SplitWhitespace;

/// Sees that this holds of a row.
pub fn see(rt: &impl Abort, holds: bool, row: &str) {
    assert!(rt; holds, "{row}");
}

/// Sees that this holds at an offset.
pub fn see_at(rt: &impl Abort, holds: bool, at: usize) {
    assert!(rt; holds, "at {at}");
}

/// What stands left and right of a mark of a row.
pub fn split<'a>(rt: &impl Abort, row: &'a str, mark: char) -> (&'a str, &'a str) {
    row.split_once(mark).expect(rt, "no mark")
}

/// A number of 32 bits.
pub fn narrow(rt: &impl Abort, number: u64) -> u32 {
    u32::try_from(number).expect(rt, "more than 32 bits")
}

/// The next word.
fn word<'a>(rt: &impl Abort, words: &mut SplitWhitespace<'a>) -> &'a str {
    words.next().expect(rt, "no word")
}

/// A number, in hex after `0x`.
fn number_of(rt: &impl Abort, word: &str) -> u64 {
    let found = match word.strip_prefix("0x") {
        Some(digits) => u64::from_str_radix(digits, 16),
        None => word.parse::<u64>(),
    };
    found.expect(rt, "no number")
}

/// The next word as a number.
pub fn number(rt: &impl Abort, words: &mut SplitWhitespace<'_>) -> u64 {
    number_of(rt, word(rt, words))
}

/// The next word as a number of 32 bits.
pub fn number32(rt: &impl Abort, words: &mut SplitWhitespace<'_>) -> u32 {
    narrow(rt, number(rt, words))
}

/// The next word as a number; `-` is none.
pub fn optional(rt: &impl Abort, words: &mut SplitWhitespace<'_>) -> Option<u64> {
    match word(rt, words) {
        "-" => None,
        word => Some(number_of(rt, word)),
    }
}

/// Whether the next word is `yes`.
pub fn yes(rt: &impl Abort, words: &mut SplitWhitespace<'_>) -> bool {
    word(rt, words) == "yes"
}

/// The next word as a format's number.
pub fn format(rt: &impl Abort, words: &mut SplitWhitespace<'_>) -> Format {
    match word(rt, words) {
        "1" => Format::One,
        "2" => Format::Two,
        "3" => Format::Three,
        word => panic!(rt; "no format: {word}"),
    }
}

/// The next five words as the sizes of a store: its page size, pages, space, log blocks and slots.
pub fn shape(rt: &impl Abort, words: &mut SplitWhitespace<'_>) -> Shape {
    Shape {
        page_size: number32(rt, words),
        pages: number32(rt, words),
        space: number32(rt, words),
        log_blocks: number32(rt, words),
        slots: number32(rt, words),
    }
}

/// Bytes in hex.
fn decoded(rt: &(impl Abort + AllocGlobal), digits: &str) -> Vec<u8> {
    hex::decode(rt.alloc(), digits).expect(rt, "no bytes in hex")
}

/// Bytes in hex so many times, as the number after them says.
fn repeated(rt: &(impl Abort + AllocGlobal), digits: &str, count: &str) -> Vec<u8> {
    let times = count.parse::<usize>().expect(rt, "no number");
    decoded(rt, digits)
        .repeat(rt.alloc(), times)
        .expect(rt, "no memory")
}

/// Bytes in hex, and after a star how many times they stand there; `-` is none.
fn bytes_of(rt: &(impl Abort + AllocGlobal), word: &str) -> Vec<u8> {
    if word == "-" {
        return Vec::new(rt.alloc());
    }
    match word.split_once("*") {
        Some((digits, count)) => repeated(rt, digits, count),
        None => decoded(rt, word),
    }
}

/// The next word as bytes.
pub fn bytes(rt: &(impl Abort + AllocGlobal), words: &mut SplitWhitespace<'_>) -> Vec<u8> {
    bytes_of(rt, word(rt, words))
}

/// Adds bytes to others.
pub fn add(rt: &impl Abort, all: &mut Vec<u8>, bytes: &[u8]) {
    all.extend_from_slice(bytes).expect(rt, "no memory");
}

/// The bytes of all words, joined.
pub fn joined(rt: &(impl Abort + AllocGlobal), text: &str) -> Vec<u8> {
    let mut all = Vec::new(rt.alloc());
    for word in text.split_whitespace() {
        add(rt, &mut all, &bytes_of(rt, word));
    }
    all
}

/// The block with the bytes of the next two words written in it: their offset, and they.
pub fn damaged(
    rt: &(impl Abort + AllocGlobal),
    block: &[u8; 512],
    words: &mut SplitWhitespace<'_>,
) -> [u8; 512] {
    let at = number(rt, words) as usize;
    let bytes = bytes(rt, words);
    assert!(rt; at <= 508 && bytes.len() <= 508 - at);
    let mut damaged = *block;
    put(&mut damaged, at, &bytes);
    damaged
}
