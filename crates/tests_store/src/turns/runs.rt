// Runs whose turns are given by hand, and what is told of them after a crash.
ghost use Rattle.redo_machine.specs.Reading.{IsOnRun};

use super::store::{machine_on, no_followers, opened};
use crate::fixtures::read;
use model_base::{PAGE_SIZE, SLOTS};
use model_report::History;
use redo_apply::Pages;
use redo_disk::{DevError, Sectors};
use redo_drive::{Closed, RunEnd};
use redo_follow::Receiver;
use redo_machine::{Machine, Turned};
use redo_memdisk::MemDisk;
use std::alloc::{AllocError, Global};
use std::process::Abort;
use std::test::Fail;

/// A run of a script on a new store, and a crash after it that keeps nothing that wasn't synced.
#[derive(Clone, Copy)]
pub struct Run<'a> {
    /// The script, in which `(5a*70)` stands for 70 times `5a`.
    pub text: &'a str,
    /// The turns that come first, by seats. `0+20` are 20 turns of the actor at seat 0, each of which moves it on; of `0-20` the last
    /// one leaves it idle, and of `0.20` it has ended by that. A `*` stands for as many as it takes.
    pub turns: &'a str,
    /// How many rounds come then. In a round each actor goes on until it doesn't move, the first one last.
    pub rounds: u64,
    /// Of a sector that a crash loses so many of the first bytes stay.
    pub cut: usize,
    /// Pages and offsets whose bytes on the data device are told.
    pub places: &'a [(u32, usize)],
}

/// A run of no turns.
pub const NO_TURNS: Run<'static> = Run {
    text: "",
    turns: "",
    rounds: 0,
    cut: 0,
    places: &[],
};

/// The turns that a word spells: the seat, how many, and how the last of them ends.
pub fn turns_of(word: &str) -> Option<(usize, u64, Turned)> {
    for (mark, last) in [
        ('+', Turned::Moved),
        ('-', Turned::Idle),
        ('.', Turned::Ended),
    ] {
        if let Some((seat, count)) = word.split_once(mark) {
            let seat = seat.parse::<usize>().ok()?;
            return Some((seat, count.parse::<u64>().unwrap_or(u64::MAX), last));
        }
    }
    None
}

/// Gives the actor at a seat turns until one doesn't move it on, at most so many. Answers how many, and how the last ends.
pub fn take_turns<L: Sectors, D: Sectors, R: Receiver>(
    rt: &impl Abort,
    machine: &mut Machine<L, D, L, R>,
    seat: usize,
    most: u64,
) -> (u64, Turned)
    requires { IsOnRun L.seen D.seen L.seen machine.old }
    ensures { IsOnRun L.seen D.seen L.seen machine.new }
{
    for turn in 0..most {
        assert!(rt; seat < machine.seats());
        let turned = machine.turn(seat);
        if turned != Turned::Moved {
            return (turn + 1, turned);
        }
    }
    (most, Turned::Moved)
}

/// Gives each actor turns until it doesn't move, the first one last.
fn play_round<L: Sectors, D: Sectors, R: Receiver>(
    rt: &impl Abort,
    machine: &mut Machine<L, D, L, R>,
)
    requires { IsOnRun L.seen D.seen L.seen machine.old }
    ensures { IsOnRun L.seen D.seen L.seen machine.new }
{
    for seat in 1..machine.seats() {
        take_turns(rt, machine, seat, u64::MAX);
    }
    take_turns(rt, machine, 0, u64::MAX);
}

/// Gives the turns that a word spells, and sees that they go as it says.
fn see_turns<L: Sectors, D: Sectors, R: Receiver>(
    rt: &impl Abort,
    machine: &mut Machine<L, D, L, R>,
    word: &str,
)
    requires { IsOnRun L.seen D.seen L.seen machine.old }
    ensures { IsOnRun L.seen D.seen L.seen machine.new }
{
    let Some((seat, count, last)) = turns_of(word) else {
        panic!(rt; "no turns: {word}");
    };
    let (taken, found) = take_turns(rt, machine, seat, count);
    let as_many = taken == count || count == u64::MAX;
    assert!(rt; found == last && as_many, "{word}: {found:?} after {taken}");
}

/// Gives the turns of a run, and answers whether each user has ended.
pub fn play<L: Sectors, D: Sectors, R: Receiver>(
    rt: &impl Abort,
    machine: &mut Machine<L, D, L, R>,
    run: &Run,
) -> RunEnd
    requires { IsOnRun L.seen D.seen L.seen machine.old }
    ensures { IsOnRun L.seen D.seen L.seen machine.new }
{
    for word in run.turns.split_whitespace() {
        see_turns(rt, machine, word);
    }
    for _ in 0..run.rounds {
        play_round(rt, machine);
    }
    machine.run(0, 0)
}

/// A text with what stands in brackets as often as it says there.
pub fn spelled(alloc: Global, text: &str) -> Result<String, Fail> {
    let mut all = String::new(alloc);
    for piece in text.split('(') {
        let (times, rest) = piece.split_once(')').unwrap_or(("", piece));
        let (digits, count) = times.split_once('*').unwrap_or(("", "0"));
        all.push_str(&digits.repeat(alloc, count.parse::<usize>()?)?)?;
        all.push_str(rest)?;
    }
    Ok(all)
}

/// What the run of a script leaves, and how it ends.
pub fn closed_of(
    rt: &impl Abort,
    alloc: Global,
    run: &Run,
) -> Result<(RunEnd, Closed<MemDisk, MemDisk>), Fail> {
    let text = spelled(alloc, run.text)?;
    let opened = opened(alloc, run.cut.min(511))?;
    let mut machine = machine_on(rt, alloc, opened, text.as_bytes(), no_followers(alloc));
    let ended = play(rt, &mut machine, run);
    let (closed, _, _) = machine.finish();
    Ok((ended, closed))
}

/// The groups of a history: of each its user, its number among the user's, its start, its end, and its state.
fn groups_of(alloc: Global, history: &History) -> Result<String, AllocError> {
    let mut text = String::new(alloc);
    for entry in history.0.iter() {
        let told = (entry.user, entry.k, entry.start, entry.end, entry.state);
        text.push_str(&format!(in alloc; "{told:?};")?)?;
    }
    Ok(text)
}

/// The byte that all of these are, if there is one.
fn same(bytes: &[u8]) -> Option<u8> {
    let first = *bytes.first()?;
    for byte in bytes {
        if *byte != first {
            return None;
        }
    }
    Some(first)
}

/// Each page with an lsn above 0: its number, its lsn, and the byte that it is full of.
fn full_pages(alloc: Global, pages: &Pages) -> Result<String, AllocError> {
    let mut text = String::new(alloc);
    for page in 0..pages.len().min(64) as u32 {
        let lsn = pages.lsn(page);
        if lsn > 0 {
            let told = (page, lsn, same(pages.user_bytes(page)));
            text.push_str(&format!(in alloc; "{told:?};")?)?;
        }
    }
    Ok(text)
}

/// A byte of a page's place on the data device.
fn byte_at(store: &mut MemDisk, page: u32, at: usize) -> Result<u8, DevError> {
    let mut bytes = [0; PAGE_SIZE as usize];
    let start = (u64::from(SLOTS) + u64::from(page)) * u64::from(PAGE_SIZE);
    if start + u64::from(PAGE_SIZE) <= store.len() {
        store.read(start, &mut bytes)?;
    }
    bytes.get(at).copied().ok_or(DevError::Failed)
}

/// The bytes at these places.
fn bytes_of(
    alloc: Global,
    store: &mut MemDisk,
    places: &[(u32, usize)],
) -> Result<String, DevError> {
    let mut text = String::new(alloc);
    for (page, at) in places {
        let byte = byte_at(store, *page, *at)?;
        text.push_str(&format!(in alloc; "{byte} ")?)?;
    }
    Ok(text)
}

/// How many groups are read, up to which lsn, and what pages; and the bytes at these places.
fn read_of(
    alloc: Global,
    log: &mut MemDisk,
    data: &mut MemDisk,
    places: &[(u32, usize)],
) -> Result<String, Fail> {
    let bytes = bytes_of(alloc, data, places)?;
    let read = read(alloc, log, data)?;
    let pages = full_pages(alloc, &read.pages)?;
    let log = (read.groups.len(), read.end);
    Ok(format!(in alloc; "{log:?} [{pages}] places {bytes}")?)
}

/// How a run ends, with which code, how many groups it has and what those are, and the marks.
pub fn left_of(
    alloc: Global,
    ended: RunEnd,
    closed: &Closed<MemDisk, MemDisk>,
) -> Result<String, AllocError> {
    let groups = groups_of(alloc, &closed.history)?;
    let marks = closed.marks;
    let marks = (marks.wtail, marks.write, marks.flushed, marks.ckpt);
    let (code, count) = (closed.code, closed.history.0.len());
    format!(in alloc; "{ended:?} {code} {count}: {groups} {marks:?}")
}

/// The devices that a run leaves.
pub fn devices_of(closed: Closed<MemDisk, MemDisk>) -> (MemDisk, MemDisk) {
    let Closed { log, store, .. } = closed;
    (log.into_dev(), store.into_dev())
}

/// What is told of both devices after a crash.
fn crashed(
    alloc: Global,
    (mut log, mut data): (MemDisk, MemDisk),
    places: &[(u32, usize)],
) -> Result<String, Fail> {
    log.crash(0);
    data.crash(0);
    read_of(alloc, &mut log, &mut data, places)
}

/// What is told of a run and of the crash after it.
fn told(rt: &impl Abort, alloc: Global, run: &Run) -> Result<String, Fail> {
    let (ended, closed) = closed_of(rt, alloc, run)?;
    let left = left_of(alloc, ended, &closed)?;
    let crashed = crashed(alloc, devices_of(closed), run.places)?;
    Ok(format!(in alloc; "{left} {crashed}")?)
}

/// Sees that all of these are told of a run.
pub fn see(rt: &(impl Abort + AllocGlobal), run: &Run, wants: &[&str]) -> Result<(), Fail> {
    let told = told(rt, rt.alloc(), run)?;
    for want in wants {
        assert!(rt; told.contains(want), "{told}");
    }
    Ok(())
}
