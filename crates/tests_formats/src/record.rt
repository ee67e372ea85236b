// The texts of groups worked out by hand, and which groups have one and fit a store.
use crate::groups::group;
use crate::table::{add, joined, see, split, yes};
use model_base::MAX_GROUP;
use model_log::Group;
use redo_lsn::Shape;
use redo_num::Got;
use redo_record::{Fits, Length, decode, encode, has_text, span};
use std::alloc::Global;
use std::process::Abort;

// A group, and its text.
const TEXTS: &str = "\
num 1 1 3 100 7                     =  810103006407
num 1 1 3 100 7 + num 1 1 4 100 8   =  010103006407 010104006408 1F
num 8 1 3 40 1                      =  8801030028 0000000001
init 1 3                            =  BB0103
text 1 3 38 07*489                  =  9E0103002601E9 07*489
text 1 3 38 07*8185                 =  9E010300261FF9 07*8185
text 1 3 38 07*8181 + init 1 3      =  1E010300261FF5 07*8181 3B0103 1F
";

// The group has a text, which is this one.
fn is_written(alloc: Global, group: &Group, text: &[u8]) -> Option<bool> {
    let length = group.checked_length()?;
    if !has_text(group) || length > MAX_GROUP {
        return None;
    }
    let written = encode(alloc, group).ok()?;
    Some(group.length() == length && text.len() as u64 == length && written.as_slice() == text)
}

// A group is read off the front of the bytes, which has this text.
fn is_read(alloc: Global, bytes: &[u8], text: &[u8]) -> Option<bool> {
    match decode(alloc, bytes).ok()? {
        Got::Value(group, length) => {
            Some(length == text.len() && is_written(alloc, &group, text)?)
        }
        Got::Short | Got::Bad => None,
    }
}

// What reading gives, without the group.
fn taken(alloc: Global, bytes: &[u8]) -> Option<Got<()>> {
    match decode(alloc, bytes).ok()? {
        Got::Value(_, length) => Some(Got::Value((), length)),
        Got::Short => Some(Got::Short),
        Got::Bad => Some(Got::Bad),
    }
}

fn front(bytes: &[u8], count: usize) -> &[u8] {
    &bytes[..count.min(bytes.len())]
}

// Each front of the text is less than a whole one.
fn has_short_fronts(alloc: Global, text: &[u8]) -> Option<bool> {
    for count in 0..text.len() {
        if taken(alloc, front(text, count))? != Got::Short {
            return Some(false);
        }
    }
    Some(true)
}

// The group is written as the text, and read off it, also with two more bytes after it, with which no group goes on.
fn has_its_text(rt: &(impl Abort + AllocGlobal), row: &str) -> bool {
    let (group_text, digits) = split(rt, row, '=');
    let mut text = joined(rt, digits);
    let length = text.len();
    let is_whole = is_written(rt.alloc(), &group(rt, group_text), &text) == Some(true)
        && is_read(rt.alloc(), &text, &text) == Some(true)
        && has_short_fronts(rt.alloc(), &text) == Some(true);
    add(rt, &mut text, &[31, 0]);
    is_whole && is_read(rt.alloc(), &text, front(&text, length)) == Some(true)
}

#[test]
fn worked_texts(rt: HostRuntime) {
    for row in TEXTS.lines() {
        see(&rt, has_its_text(&rt, row), row);
    }
}

// Bytes that are short, or bad, as a group.
const FRONTS: &str = "\
short  -
short  8101030064
short  010103006407
short  010103006407 010104006408
bad    010103006407 010104006408 20
bad    010103006407 1F
bad    1F
bad    9F
bad    090103006407
bad    890103006407
bad    81F00000000103006407
bad    81807F03006407
bad    81F1
short  8180
short  9E0103002600
bad    9E010300260000
";

fn is_short_or_bad(rt: &(impl Abort + AllocGlobal), row: &str) -> bool {
    let (want, digits) = split(rt, row, ' ');
    let want = if want == "bad" { Got::Bad } else { Got::Short };
    taken(rt.alloc(), &joined(rt, digits)) == Some(want)
}

#[test]
fn short_and_bad_bytes(rt: HostRuntime) {
    for row in FRONTS.lines() {
        see(&rt, is_short_or_bad(&rt, row), row);
    }
}

#[test]
fn spans(rt: HostRuntime) {
    assert!(rt; span(b"\x81\x01\x03\0\x64\x07\x81") == Got::Value(6, 6));
    let two = b"\x01\x01\x03\0\x64\x07\x01\x01\x04\0\x64\x08\x1F";
    assert!(rt; span(two) == Got::Value(13, 13));
    assert!(rt; span(&two[..12]) == Got::Short);
    assert!(rt; span(b"\x1F") == Got::Bad);
}

// A group, and whether it fits a store of the default shape.
const FITTING: &str = "\
num 1 1 3 4087 255                 =  yes
num 1 1 3 4087 256                 =  no
num 1 1 3 4088 7                   =  no
num 1 1 3 37 7                     =  no
num 1 1 8 100 7                    =  no
num 3 1 7 4085 0xFFFFFF            =  yes
num 3 1 7 4085 0x1000000           =  no
num 0 1 0 38 0                     =  yes
num 0 1 0 38 1                     =  no
num 9 1 0 4079 0xFFFFFFFFFFFFFFFF  =  yes
num 0xFFFFFFFF 1 0 0xFFFFFFFF 0    =  no
text 1 3 38 07*4050                =  yes
text 1 3 38 07*4051                =  no
init 1 7                           =  yes
init 2 7                           =  no
";

fn fits_or_not(rt: &(impl Abort + AllocGlobal), row: &str) -> bool {
    let (text, want) = split(rt, row, '=');
    let fits = group(rt, text).fits(&Shape::default_shape());
    fits == yes(rt, &mut want.split_whitespace())
}

#[test]
fn what_fits(rt: HostRuntime) {
    for row in FITTING.lines() {
        see(&rt, fits_or_not(&rt, row), row);
    }
}

// Groups that have no text.
const WITHOUT: &str = "\
num 3 1 3 100 7
num 1 1 3 65536 7
num 4 1 3 100 0x100000000
text 1 3 38 -
text 1 3 38 07*65536
";

#[test]
fn groups_without_text(rt: HostRuntime) {
    assert!(rt; !has_text(&Group(Vec::new(rt.alloc()))));
    for row in WITHOUT.lines() {
        see(&rt, !has_text(&group(&rt, row)), row);
    }
}
