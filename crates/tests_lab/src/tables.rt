// Tables of calls. A row is `DEVICES | WORDS | SCRIPT | STATUS | PRINTED`.
//
// DEVICES: `new`, `large data`, `tearing`, `log fails CALL`, `data fails CALL` and `archive fails CALL` are new ones, `same` are
// those that the row above left.
// `in pieces`, `source fails` and `sink fails` are new ones too, and say how the script comes and the report goes.
// `log of SECTORS`, `data of SECTORS` and `archive of SECTORS` cut one of those that were left, and any other name is a change of
// them (`change`).
// SCRIPT and PRINTED: ` /` ends a line; after the last printed line it is left out. `(07*62)` stands for 62 times `07`, and
// `[LINE*130]` for 130 times LINE. `..` stands for any printed text; where nothing is printed the cell is left out.
use crate::calls::{Call, calls_of_opening};
use crate::devices::{Devices, MemDevices, change, new_devices, shorten};
use redo_disk::Sectors;
use redo_threads::NoGate;
use std::alloc::Global;
use std::process::Abort;
use std::sync::Wait;
use std::test::Fail;
use std::thread::Threads;

/// The text of `TEXT*COUNT`: so many times in a row.
fn repeated(alloc: Global, text: &str) -> Result<String, Fail> {
    let (text, count) = text.rsplit_once('*').unwrap_or((text, "1"));
    Ok(text.repeat(alloc, count.parse::<usize>()?)?)
}

/// A text with what stands between these brackets, so many times as it says there.
fn unfolded(alloc: Global, text: &str, open: char, close: char) -> Result<String, Fail> {
    let mut all = String::new(alloc);
    for piece in text.split(open) {
        let (times, rest) = piece.split_once(close).unwrap_or(("", piece));
        all.push_str(&repeated(alloc, times)?)?;
        all.push_str(rest)?;
    }
    Ok(all)
}

/// The text that stands in a cell.
pub(crate) fn spelled(alloc: Global, cell: &str) -> Result<String, Fail> {
    let text = unfolded(alloc, cell, '[', ']')?;
    let text = unfolded(alloc, &text, '(', ')')?;
    let text = text.replace(alloc, " / ", "\n")?;
    Ok(text.replace(alloc, " /", "\n")?)
}

/// The first cell of a row, and the others.
fn cell(row: &str) -> (&str, &str) {
    let (cell, rest) = row.split_once('|').unwrap_or((row, ""));
    (cell.trim(), rest)
}

/// The text of `STATUS | PRINTED`, or of a status after which nothing is printed: the status in a line of its own, and the lines.
fn wanted(alloc: Global, outcome: &str) -> Result<String, Fail> {
    let mut text = outcome.trim().replace(alloc, " | ", " / ")?;
    text.push_str(" /")?;
    spelled(alloc, &text)
}

/// Whether a text contains each of those between which `..` stands here.
fn contains_all(told: &str, pieces: &str) -> bool {
    for piece in pieces.split("..") {
        if !told.contains(piece) {
            return false;
        }
    }
    true
}

/// Whether a text is this one, in which `..` stands for any text.
pub(crate) fn is_told(told: &str, wanted: &str) -> bool {
    let Some((first, rest)) = wanted.split_once("..") else {
        return told == wanted;
    };
    let (_, last) = rest.rsplit_once("..").unwrap_or(("", rest));
    told.starts_with(first) && told.ends_with(last) && contains_all(told, rest)
}

/// What was told is to be `STATUS | PRINTED`. The row is named where it isn't.
pub(crate) fn expect(
    rt: &(impl Abort + AllocGlobal),
    row: &str,
    told: &str,
    outcome: &str,
) -> Result<(), Fail> {
    let wanted = wanted(rt.alloc(), outcome)?;
    assert!(rt; is_told(told, &wanted), "at {row}: {told}");
    Ok(())
}

/// The call of `WORDS | SCRIPT | STATUS | PRINTED`.
fn call_of(alloc: Global, way: &str, row: &str) -> Result<Call, Fail> {
    let (words, rest) = cell(row);
    let (script, _) = cell(rest);
    let script = spelled(alloc, script)?;
    Ok(Call::by(alloc, way, words, &script)?)
}

/// Sees that this call came to what its row says.
fn see_call(rt: &(impl Abort + AllocGlobal), row: &str, call: &Call) -> Result<(), Fail> {
    let (_, rest) = cell(row);
    let (_, outcome) = cell(rest);
    let told = call.told(rt.alloc())?;
    expect(rt, row, &told, outcome)
}

/// Makes the call of such a row on these devices; the devices after it.
fn play_on<L: Sectors + Send + Drop, D: Sectors + Send + Drop>(
    rt: &(impl Abort + AllocGlobal + Threads + Wait + Sync),
    way: &str,
    row: &str,
    devices: Devices<L, D>,
) -> Result<Devices<L, D>, Fail> {
    let mut call = call_of(rt.alloc(), way, row)?;
    let left = call.make(rt, devices, &NoGate)?;
    see_call(rt, row, &call)?;
    Ok(left)
}

/// Makes such calls on these devices; the devices after them.
pub(crate) fn left_of<L: Sectors + Send + Drop, D: Sectors + Send + Drop>(
    rt: &(impl Abort + AllocGlobal + Threads + Wait + Sync),
    devices: Devices<L, D>,
    table: &str,
) -> Result<Devices<L, D>, Fail> {
    let mut left = devices;
    for row in table.trim().lines() {
        left = play_on(rt, "", row, left)?;
    }
    Ok(left)
}

/// The devices of a row, after a row that left these.
fn devices_of(alloc: Global, name: &str, left: MemDevices) -> Result<MemDevices, Fail> {
    let is_new = name == "new" || name == "large data" || name == "tearing" || name == "in pieces";
    if is_new || name.contains("fails") {
        return new_devices(alloc, name);
    }
    let mut devices = left;
    if !shorten(alloc, &mut devices, name)? {
        change(&mut devices, name)?;
    }
    Ok(devices)
}

/// Makes the call of a row, which is to come to what the row says; the devices after it.
fn play_row(
    rt: &(impl Abort + AllocGlobal + Threads + Wait + Sync),
    row: &str,
    left: MemDevices,
) -> Result<MemDevices, Fail> {
    let (name, rest) = cell(row);
    let devices = devices_of(rt.alloc(), name, left)?;
    play_on(rt, name, rest, devices)
}

/// Plays a table, row by row; the devices after it.
pub(crate) fn left_by(
    rt: &(impl Abort + AllocGlobal + Threads + Wait + Sync),
    table: &str,
) -> Result<MemDevices, Fail> {
    let mut left = new_devices(rt.alloc(), "new")?;
    for row in table.trim_matches('\n').lines() {
        left = play_row(rt, row, left)?;
    }
    Ok(left)
}

/// Plays a table, row by row.
pub(crate) fn play(
    rt: &(impl Abort + AllocGlobal + Threads + Wait + Sync),
    table: &str,
) -> Result<(), Fail> {
    let _devices = left_by(rt, table)?;
    Ok(())
}

/// Plays a table in which `@` stands for this text.
pub(crate) fn play_with(
    rt: &(impl Abort + AllocGlobal + Threads + Wait + Sync),
    text: &str,
    table: &str,
) -> Result<(), Fail> {
    let table = table.replace(rt.alloc(), "@", text)?;
    play(rt, &table)
}

/// Plays a table in which `@` stands for this number.
pub(crate) fn play_at(
    rt: &(impl Abort + AllocGlobal + Threads + Wait + Sync),
    number: u64,
    table: &str,
) -> Result<(), Fail> {
    let number = format!(in rt.alloc(); "{number}")?;
    play_with(rt, &number, table)
}

/// Plays a table in which `@` stands for so many calls of the log device more than the opening of a new store makes.
pub(crate) fn play_after_opening(
    rt: &(impl Abort + AllocGlobal + Threads + Wait + Sync),
    more: u64,
    table: &str,
) -> Result<(), Fail> {
    let opening = calls_of_opening(rt)?;
    play_at(rt, opening.saturating_add(more), table)
}
