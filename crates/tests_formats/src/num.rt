// The spelling table, row by row and at each of its borders.
use crate::table::{add, bytes, narrow, number, see, split};
use redo_num::{Got, get32, get64, put32, put64};
use std::process::Abort;

// The bits of a number, the number, and its spelling.
const SPELLED: &str = "\
32  0                   00
32  0x7F                7F
32  0x80                8080
32  0x3FFF              BFFF
32  0x4000              C04000
32  0x0FFFFFFF          EFFFFFFF
32  0x10000000          F010000000
32  0xFEFFFFFF          F0FEFFFFFF
32  0xFF000000          FE000000
32  0xFFFDFFFF          FEFDFFFF
32  0xFFFE0000          FC0000
32  0xFFFFFBFF          FDFBFF
32  0xFFFFFC00          F800
32  0xFFFFFFFF          FBFF
64  1                   0000000001
64  0x8000000002        808000000002
64  0xFFFFFFFFFFFFFFFF  FBFFFFFFFFFF
";

// The number is written as the bytes, and read off them.
fn is_spelled_64(n: u64, text: &[u8]) -> bool {
    let mut out = [0; 16];
    let length = put64(&mut out, 2, n);
    length == text.len() && out[2..].starts_with(text) && get64(text) == Got::Value(n, length)
}

// The same of a number of 32 bits.
fn is_spelled_32(n: u32, text: &[u8]) -> bool {
    let mut out = [0; 16];
    let length = put32(&mut out, 2, n);
    length == text.len() && out[2..].starts_with(text) && get32(text) == Got::Value(n, length)
}

// The same of a row.
fn is_spelled(rt: &(impl Abort + AllocGlobal), row: &str) -> bool {
    let mut words = row.split_whitespace();
    let bits = number(rt, &mut words);
    let n = number(rt, &mut words);
    let text = bytes(rt, &mut words);
    if bits == 64 {
        is_spelled_64(n, &text)
    } else {
        is_spelled_32(narrow(rt, n), &text)
    }
}

#[test]
fn spellings(rt: HostRuntime) {
    for row in SPELLED.lines() {
        see(&rt, is_spelled(&rt, row), row);
    }
}

// What no number is spelled as, in 32 bits and as the high half of 64, and the borders of what may still be one.
const FRONTS: &str = "\
short  -
short  80
short  C040
short  F0100000
short  F0FEFFFF
short  FDFB
short  FEFDFF
bad    8000
bad    807F
bad    C03F
bad    C03FFF
bad    E01F
bad    E01FFFFF
bad    F00F
bad    F000000001
bad    F00FFFFFFF
bad    F0FF
bad    F0FF000000
bad    F0FFFFFC00
bad    FDFC
bad    FDFC00
bad    FEFE
bad    FEFE0000
bad    F1
bad    F2
bad    F3
bad    F4
bad    F5
bad    F6
bad    F700000000
bad    FFFFFFFFFF
";

// The bytes are short or bad, and what is bad stays so with more after it.
fn is_no_spelling(rt: &(impl Abort + AllocGlobal), row: &str) -> bool {
    let (want, digits) = split(rt, row, ' ');
    let text = bytes(rt, &mut digits.split_whitespace());
    if want == "short" {
        get32(&text) == Got::Short && get64(&text) == Got::Short
    } else {
        is_bad(rt, text)
    }
}

fn is_bad(rt: &impl Abort, text: Vec<u8>) -> bool {
    let is_bad = get32(&text) == Got::Bad && get64(&text) != Got::Short;
    let mut text = text;
    add(rt, &mut text, b"\0\0\0\0");
    is_bad && get32(&text) == Got::Bad && get64(&text) == Got::Bad
}

#[test]
fn no_spelling(rt: HostRuntime) {
    for row in FRONTS.lines() {
        see(&rt, is_no_spelling(&rt, row), row);
    }
}
