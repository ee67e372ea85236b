// Calls whose runs have followers.
use crate::calls::call_on;
use crate::devices::{MemDevices, blank};
use crate::tables::{left_by, play, play_with, spelled};
use std::process::Abort;
use std::sync::Wait;
use std::test::Fail;
use std::thread::Threads;

/// Where no group is reserved each follower stays where the run starts. Where opening is stopped there is none.
#[test]
fn tells_of_followers_of_no_group(rt: HostRuntime) -> Result<(), Fail> {
    play(
        &rt,
        "
new | run --followers 2                |                | 0 | open 8204 / marks 8204 8204 8204 8192 / follow 1 0 8204 00000000 / follow 2 0 8204 00000000
new | run --followers 1 --log-only     |                | 0 | open 8204 / marks 8204 8204 8204 8192 / follow 1 0 8204 00000000
new | run --followers 1 --threads      |                | 0 | open 8204 / marks 8204 8204 8204 8192 / follow 1 0 8204 00000000
new | crash --followers 1              |                | 0 | open 8204 / marks 8204 8204 8204 8192 / follow 1 0 8204 00000000 / recovered 0 8204
new | crash --stop-log 0 --followers 1 | 1 f b1 3 100 7 | 0 | open none / left 1 1 / recovered 0 8204
",
    )
}

/// There are one to four, of `run` and `crash` alone.
#[test]
fn refuses_other_numbers_of_followers(rt: HostRuntime) -> Result<(), Fail> {
    play(
        &rt,
        "
new | run --followers 5         | 1 f b1 3 100 7 | 2 | fault words
new | crash --followers 5       | 1 f b1 3 100 7 | 2 | fault words
new | run --followers 0         | 1 f b1 3 100 7 | 2 | fault words
new | recover --followers 1     | 1 f b1 3 100 7 | 2 | fault words
new | gen 1 1 1 --followers 1   | 1 f b1 3 100 7 | 2 | fault words
new | run --followers 4 --max 0 | 1 f b1 3 100 7 | 9 | fault turns 0 user 1
",
    )
}

/// Each line is reserved once the one before it is flushed. What a follower has by the end was worked out turn by turn, of the actors'
/// programs and the seed's draws. The texts of the groups are 81 01 03 00 64 07, 81 01 03 00 65 08 and 81 01 03 00 66 09: the first
/// two, joined, have the CRC-32C c9a68e5d, and all three 373bed4e.
#[test]
fn tells_of_followers_by_turns(rt: HostRuntime) -> Result<(), Fail> {
    play_with(
        &rt,
        "1 f b1 3 100 7 / 1 f b1 3 101 8 / 1 f b1 3 102 9 /",
        "
new | run --turns 0 --followers 1 --log-only | @ | 0 | open 8204 / ..marks 8222 8222 8222 8192 / follow 1 2 8216 c9a68e5d
new | run --turns 7 --followers 1 --log-only | @ | 0 | open 8204 / ..marks 8222 8222 8222 8192 / follow 1 3 8222 373bed4e
new | run --turns 0 --followers 2            | @ | 0 | open 8204 / ..marks 8222 8222 8222 8192 / follow 1 3 8222 373bed4e / follow 2 2 8216 c9a68e5d
new | crash --turns 2 --followers 2          | @ | 0 | open 8204 / ..marks 8222 8222 8222 8192 / follow 1 2 8216 c9a68e5d / follow 2 3 8222 373bed4e / recovered 3 8222 / p 3 8222 (00*62)070809
",
    )
}

/// Three lines of each of two users, in each mode.
const SIX_LINES: &str =
    "1 f b1 3 100 7\n2 w s 4 38 0102\n1 n i 5\n2 f b8 6 40 1;b1 7 101 9\n1 w b1 3 101 8\n2 n b4 2 40 5\n";

/// The word of a line at this place, as a number; of another word the greatest.
pub(crate) fn number(line: &str, place: usize) -> u64 {
    let word = line.split(' ').nth(place).unwrap_or("");
    word.parse::<u64>().unwrap_or(u64::MAX)
}

/// How many groups a report tells of that end at or below an lsn: lines `g START END USER K STATE`.
pub(crate) fn groups_up_to(report: &str, lsn: u64) -> u64 {
    let mut count = 0u64;
    for line in report.lines() {
        if line.starts_with("g ") && number(line, 2) <= lsn {
            count = count.wrapping_add(1);
        }
    }
    count
}

/// FLUSHED and the checkpoint, as a report tells them: `marks WTAIL WRITE FLUSHED CKPT`.
pub(crate) fn marks_of(report: &str) -> Option<(u64, u64)> {
    for line in report.lines() {
        if line.starts_with("marks ") {
            return Some((number(line, 3), number(line, 4)));
        }
    }
    None
}

/// Sees that the next of the followers has the groups up to its place, which isn't above FLUSHED or below the checkpoint: the line
/// is `follow NUMBER COUNT LSN CRC`.
fn see_follower(rt: &impl Abort, report: &str, line: &str, next: u64) {
    let lsn = number(line, 3);
    let Some((flushed, ckpt)) = marks_of(report) else {
        panic!(rt; "{report}");
    };
    assert!(rt; number(line, 1) == next, "{report}");
    assert!(rt; number(line, 2) == groups_up_to(report, lsn), "{report}");
    assert!(rt; ckpt <= lsn && lsn <= flushed, "{report}");
}

/// Sees that of each follower, and how many there are.
fn see_followers(rt: &impl Abort, report: &str) -> u64 {
    let mut count = 0u64;
    for line in report.lines() {
        if line.starts_with("follow ") {
            count = count.wrapping_add(1);
            see_follower(rt, report, line, count);
        }
    }
    count
}

/// Sees that in a run of so many lines on these devices four followers have the groups up to their places.
fn see_four(
    rt: &(impl Abort + AllocGlobal + Threads + Wait + Sync),
    words: &str,
    script: &str,
    lines: u64,
    devices: MemDevices,
) -> Result<(), Fail> {
    let (told, _devices) = call_on(rt, words, script, devices)?;
    assert!(rt; told.starts_with("0\n"), "{told}");
    assert!(rt; groups_up_to(&told, u64::MAX) == lines, "{told}");
    assert!(rt; see_followers(rt, &told) == 4, "{told}");
    Ok(())
}

#[test]
fn tells_of_four_followers(rt: HostRuntime) -> Result<(), Fail> {
    for words in [
        "run --followers 4",
        "run --followers 4 --own-writes",
        "run --followers 4 --threads",
        "run --followers 4 --threads --own-writes",
        "crash --followers 4 --threads",
        "crash --followers 4 --threads --log-only",
    ] {
        see_four(&rt, words, SIX_LINES, 6, blank(rt.alloc())?)?;
    }
    Ok(())
}

/// So many lines of 8,192 bytes are more than one round of the least log.
#[test]
fn followers_let_checkpoints_free_the_log(rt: HostRuntime) -> Result<(), Fail> {
    let lines = "[1 f s 3 38 (07*4050);s 3 38 (07*4050);s 3 38 (07*70) / *65]";
    let script = spelled(rt.alloc(), lines)?;
    for words in [
        "run --followers 4 --threads",
        "run --followers 4 --threads --own-writes",
    ] {
        let devices = left_by(&rt, "new | format --log-blocks 1024 | | 0 | formatted 8192")?;
        see_four(&rt, words, &script, 65, devices)?;
    }
    Ok(())
}
