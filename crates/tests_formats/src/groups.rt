// Groups as text: records with a `+` between them, each of them one of
//   num WIDTH SPACE PAGE OFFSET VALUE
//   text SPACE PAGE OFFSET BYTES
//   init SPACE PAGE
use crate::table::{bytes, number, number32};
use model_log::{Group, Rec};
use redo_lsn::Bytes;
use std::process::Abort;
use std::str::SplitWhitespace;

fn num(rt: &impl Abort, words: &mut SplitWhitespace<'_>) -> Rec {
    Rec::Num {
        width: number32(rt, words),
        space: number32(rt, words),
        page: number32(rt, words),
        offset: number32(rt, words),
        value: number(rt, words),
    }
}

fn text(rt: &(impl Abort + AllocGlobal), words: &mut SplitWhitespace<'_>) -> Rec {
    Rec::Text {
        space: number32(rt, words),
        page: number32(rt, words),
        offset: number32(rt, words),
        bytes: Bytes::new(bytes(rt, words)),
    }
}

fn init(rt: &impl Abort, words: &mut SplitWhitespace<'_>) -> Rec {
    Rec::Init {
        space: number32(rt, words),
        page: number32(rt, words),
    }
}

/// The record that a text names.
fn record(rt: &(impl Abort + AllocGlobal), row: &str) -> Rec {
    let mut words = row.split_whitespace();
    match words.next() {
        Some("num") => num(rt, &mut words),
        Some("text") => text(rt, &mut words),
        Some("init") => init(rt, &mut words),
        _ => panic!(rt; "no record"),
    }
}

/// The group of the records that a text names.
pub fn group(rt: &(impl Abort + AllocGlobal), row: &str) -> Group {
    let mut recs = Vec::new(rt.alloc());
    for part in row.split("+") {
        recs.push(record(rt, part)).expect(rt, "no memory");
    }
    Group(recs)
}
