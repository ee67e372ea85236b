// Pages and images of the data device made by hand. A stretch of page size is named by `blank`, which is nothing, by
// `page` with a number and an lsn, which is a page of space 1, or by `torn` with the same, which is the first half of
// one.
use crate::table::{narrow, number, number32, optional, see, see_at};
use model_base::{DEFAULT_LOG_BLOCKS, DEFAULT_PAGES, DEFAULT_SPACE, EARLY_SLOTS, PAGE_SIZE, Shape};
use redo_page::{PageState, best_copy, check, copy_lsn, kept_page, place_lsn, seal};
use std::process::Abort;
use std::str::SplitWhitespace;

/// The user bytes of the pages here.
fn user_byte(lsn: u64) -> u8 {
    (lsn % 251) as u8
}

fn page_bytes(number: u32, lsn: u64) -> [u8; 4096] {
    let mut page = [user_byte(lsn); 4096];
    seal(&mut page, number, 1, lsn);
    page
}

/// The stretch that the next words name.
fn stretch(rt: &impl Abort, words: &mut SplitWhitespace<'_>) -> [u8; 4096] {
    let kind = words.next().expect(rt, "no stretch");
    if kind == "blank" {
        return [0; 4096];
    }
    let mut page = page_bytes(number32(rt, words), number(rt, words));
    if kind == "torn" {
        page[2048..].fill(0);
    }
    page
}

/// The default sizes of a store of format 2.
const EARLY: Shape = Shape {
    page_size: PAGE_SIZE,
    pages: DEFAULT_PAGES,
    space: DEFAULT_SPACE,
    log_blocks: DEFAULT_LOG_BLOCKS,
    slots: EARLY_SLOTS,
};

/// A data device of 8 slots and 8 places, with nothing on it.
const BLANK: [[u8; 4096]; 16] = [[0; 4096]; 16];

/// Puts the stretch that the next words name, after its place, on a data device.
fn put_stretch(rt: &impl Abort, image: &mut [[u8; 4096]; 16], words: &mut SplitWhitespace<'_>) {
    let place = number(rt, words) as usize;
    assert!(rt; place < 16);
    image[place] = stretch(rt, words);
}

#[test]
fn a_page_is_sound(rt: HostRuntime) {
    assert!(rt; check(&[0; 4096]) == PageState::Blank);
    let page = page_bytes(5, 0x1_0000_2710);
    assert!(rt; check(&page) == PageState::Sound(5, 1, 0x1_0000_2710));
    // The neighbours, the type and the flush lsn are 0 whatever stood there; the user bytes stay.
    assert!(rt; page[8..].starts_with(&[0; 8]) && page[24..].starts_with(&[0; 10]));
    assert!(rt; page[38] == user_byte(0x1_0000_2710) && page[4087] == user_byte(0x1_0000_2710));
}

#[test]
fn a_damaged_page_is_broken(rt: HostRuntime) {
    let page = page_bytes(5, 0x1_0000_2710);
    // The first checksum, the number, a user byte, the second checksum, the low half of the lsn.
    for at in [0, 7, 100, 4088, 4095] {
        let mut damaged = page;
        damaged[at] ^= 1;
        see_at(&rt, check(&damaged) == PageState::Broken, at);
    }
}

// What stands there, and the lsn that it counts for as the place of page 5 and as a copy of it.
const SOUND: &str = "\
blank        0     -
page 5 8300  8300  8300
page 6 9600  -     -
torn 5 9600  -     -
";

fn counts(rt: &impl Abort, row: &str) -> bool {
    let shape = Shape::default_shape();
    let mut words = row.split_whitespace();
    let bytes = stretch(rt, &mut words);
    place_lsn(&bytes, &shape, 5) == optional(rt, &mut words)
        && copy_lsn(&bytes, &shape, 5) == optional(rt, &mut words)
}

#[test]
fn a_copy_is_sound(rt: HostRuntime) {
    for row in SOUND.lines() {
        see(&rt, counts(&rt, row), row);
    }
}

// What two slots hold, beside a torn page 5 in its place, and the copy of page 5 that counts: its slot and its lsn.
const COPIES: &str = "\
1 page 5 9000  6 page 5 8500  1 9000
2 page 5 8500  6 page 5 9000  6 9000
2 page 5 9000  6 page 5 9000  2 9000
0 page 4 9900  6 page 5 8500  6 8500
0 page 4 9900  7 torn 5 9700  -
";

// The copy that the next words name.
fn copy(rt: &impl Abort, words: &mut SplitWhitespace<'_>) -> Option<(u32, u64)> {
    match optional(rt, words) {
        Some(slot) => Some((narrow(rt, slot), number(rt, words))),
        None => None,
    }
}

// The image of a data device has this copy of page 5, which is kept.
fn has_copy(
    rt: &(impl Abort + AllocGlobal),
    image: &[[u8; 4096]; 16],
    want: Option<(u32, u64)>,
) -> bool {
    let image = image.as_flattened();
    let kept = kept_page(rt.alloc(), image, &EARLY, 5).expect(rt, "no memory");
    let is_kept = match (kept, want) {
        (Some(kept), Some((_, lsn))) => kept.lsn == lsn,
        (None, None) => true,
        _ => false,
    };
    is_kept && best_copy(image, &EARLY, 5) == want
}

fn copy_counts(rt: &(impl Abort + AllocGlobal), row: &str) -> bool {
    let mut image = BLANK;
    put_stretch(rt, &mut image, &mut "13 torn 5 9500".split_whitespace());
    let mut words = row.split_whitespace();
    put_stretch(rt, &mut image, &mut words);
    put_stretch(rt, &mut image, &mut words);
    has_copy(rt, &image, copy(rt, &mut words))
}

#[test]
fn the_best_copy_counts(rt: HostRuntime) {
    for row in COPIES.lines() {
        see(&rt, copy_counts(&rt, row), row);
    }
}

// What the place of page 5 holds, beside a copy in slot 1, and the lsn that is kept.
const PLACES: &str = "\
13 blank        0
13 page 5 8300  8300
13 page 6 9600  9000
13 torn 5 9600  9000
";

fn is_kept(rt: &(impl Abort + AllocGlobal), row: &str) -> bool {
    let mut image = BLANK;
    put_stretch(rt, &mut image, &mut "1 page 5 9000".split_whitespace());
    let mut words = row.split_whitespace();
    put_stretch(rt, &mut image, &mut words);
    has_page(rt, &image, number(rt, &mut words))
}

// What is kept of page 5 of the image of a data device is the page with this lsn.
fn has_page(rt: &(impl Abort + AllocGlobal), image: &[[u8; 4096]; 16], lsn: u64) -> bool {
    let kept = kept_page(rt.alloc(), image.as_flattened(), &EARLY, 5);
    match kept.expect(rt, "no memory") {
        Some(kept) => kept.lsn == lsn && kept.user.as_slice() == [user_byte(lsn); 4050].as_slice(),
        None => false,
    }
}

#[test]
fn a_place_that_passes_is_kept(rt: HostRuntime) {
    for row in PLACES.lines() {
        see(&rt, is_kept(&rt, row), row);
    }
}

// Fields of 0 and no user byte set: the checksum of 4,084 zero bytes isn't 0.
#[test]
fn a_sealed_page_is_not_blank(rt: HostRuntime) {
    let mut page = [0; 4096];
    assert!(rt; check(&page) == PageState::Blank);
    seal(&mut page, 0, 0, 0);
    assert!(rt; check(&page) == PageState::Sound(0, 0, 0));
    assert!(rt; page.starts_with(b"\xD2\x43\xA2\x6F"));
}
