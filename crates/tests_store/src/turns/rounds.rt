// Followers of a run that goes round the log three times, so that checkpoints free the log behind them.
ghost use Rattle.std.specs.Prelude.{◌<◌, ◌^◌, IfOk};
ghost use Rattle.redo_drive.specs.{AreNewFollowers};

use super::following::{Listed, empty_list};
use super::store::{driven_on, opened};
use model_report::{History, Marks};
use redo_drive::{Actor, RunEnd};
use redo_follow::{Follower, Receiver};
use std::alloc::{AllocError, Global};
use std::process::Abort;
use std::test::Fail;

/// A line that puts so many times a byte on a page, from offset 38 on.
#[derive(Clone, Copy)]
struct Line {
    page: u8,
    byte: u8,
    count: u16,
}

/// The lines of the first user, which it has again and again.
const FIRST: [Line; 2] = [
    Line {
        page: 3,
        byte: 0x11,
        count: 3_300,
    },
    Line {
        page: 4,
        byte: 0x22,
        count: 3_281,
    },
];

/// The lines of the second one, of which one is on the first one's page.
const SECOND: [Line; 2] = [
    Line {
        page: 5,
        byte: 0x33,
        count: 3_450,
    },
    Line {
        page: 3,
        byte: 0x44,
        count: 3_317,
    },
];

/// How often each line comes: 456 groups of 1,524,864 bytes, which is a little more than three rounds.
const TIMES: usize = 114;

/// A round of the log: 1,022 blocks.
const ROUND: u64 = 523_264;

/// The text of a line of a user.
fn push_line(alloc: Global, text: &mut String, user: u32, line: &Line) -> Result<(), AllocError> {
    let digits = format!(in alloc; "{:02x}", line.byte)?;
    let string = digits.repeat(alloc, usize::from(line.count))?;
    text.push_str(&format!(in alloc; "{user} n s {} 38 {string}\n", line.page)?)
}

/// The script of both users, whose commits are answered at once.
fn script_text(alloc: Global) -> Result<String, AllocError> {
    let mut text = String::new(alloc);
    for line in &FIRST {
        push_line(alloc, &mut text, 1, line)?;
    }
    for line in &SECOND {
        push_line(alloc, &mut text, 2, line)?;
    }
    text.repeat(alloc, TIMES)
}

/// The k-th line of a user.
fn line_of(user: u32, k: u64) -> Option<Line> {
    let lines = if user == 1 { &FIRST } else { &SECOND };
    lines.get((k % 2) as usize).copied()
}

/// The text of the group of a line: one record, of a string of less than 2^14 bytes on a page of space 1.
fn push_group(texts: &mut Vec<u8>, line: &Line) -> Result<(), AllocError> {
    let [high, low] = line.count.to_be_bytes();
    texts.extend_from_slice(&[0x9E, 1, line.page, 0, 38, high, low])?;
    for _ in 0..line.count {
        texts.push(line.byte)?;
    }
    Ok(())
}

/// What a receiver is to have of these groups: those that end at or below this place.
fn groups_up_to(alloc: Global, history: &History, place: u64) -> Result<Listed, Fail> {
    let mut list = empty_list(alloc, 456, 1_524_864)?;
    for entry in history.0.iter() {
        if entry.end <= place {
            let Some(line) = line_of(entry.user, entry.k) else {
                return Err(Fail::from("no line"));
            };
            list.spans.push((entry.start, entry.end))?;
            push_group(&mut list.texts, &line)?;
        }
    }
    Ok(list)
}

/// Two followers of a run that starts at this lsn.
fn two_followers(alloc: Global, start: u64) -> Result<Vec<Follower<Listed>>, Fail>
    requires { start < 2 ^ 61 }
    ensures { IfOk result (λ followers. AreNewFollowers start followers.items) }
{
    let first = Follower::new(alloc, 1, start, empty_list(alloc, 456, 1_524_864)?)?;
    let second = Follower::new(alloc, 2, start, empty_list(alloc, 456, 1_524_864)?)?;
    let mut followers = Vec::new(alloc);
    followers.push(first)?;
    followers.push(second)?;
    Ok(followers)
}

/// Sees that a follower stands between the checkpoint and FLUSHED, and that its receiver got the groups up to there.
fn see_follower(
    rt: &impl Abort,
    alloc: Global,
    history: &History,
    marks: &Marks,
    follower: &Follower<Listed>,
) -> Result<(), Fail> {
    let (number, place, got) = (follower.number(), follower.place(), follower.receiver());
    let is_between = marks.ckpt <= place && place <= marks.flushed;
    assert!(rt; is_between, "{number}: {place} {marks:?}");
    let want = groups_up_to(alloc, history, place)?;
    let spans = got.spans.as_slice();
    assert!(rt;
        spans == want.spans.as_slice(),
        "{number} up to {place}: {spans:?}"
    );
    assert!(rt;
        got.texts.as_slice() == want.texts.as_slice(),
        "the texts of {number}"
    );
    Ok(())
}

/// Sees that of each follower, and how many there are.
fn see_followers(
    rt: &impl Abort,
    alloc: Global,
    history: &History,
    marks: &Marks,
    actors: &[Actor<Listed>],
) -> Result<u64, Fail> {
    let mut count = 0u64;
    for actor in actors {
        if let Some(follower) = actor.follower() {
            see_follower(rt, alloc, history, marks, follower)?;
            count = count.wrapping_add(1);
        }
    }
    Ok(count)
}

/// Where the last group of a history ends.
fn end_of(history: &History) -> Option<u64> {
    Some(history.0.last()?.end)
}

/// Each follower's receiver gets just the groups that end at or below its place, in their order, each once, while checkpoints free
/// what lies behind the followers.
#[test]
fn followers_of_three_rounds(rt: HostRuntime) -> Result<(), Fail> {
    let alloc = rt.alloc();
    let opened = opened(alloc, 0)?;
    let followers = two_followers(alloc, opened.start)?;
    let text = script_text(alloc)?;
    let (driven, actors) = driven_on(&rt, alloc, opened, text.as_bytes(), 7, followers);
    let (history, marks) = (&driven.closed.history, &driven.closed.marks);
    assert!(rt; driven.ended == RunEnd::Done && driven.closed.code == 0);
    let end = end_of(history).unwrap_or(0);
    assert!(rt; end >= 8_204 + 3 * ROUND, "{end}");
    assert!(rt; marks.ckpt >= 8_192 + 2 * ROUND, "{marks:?}");
    let count = see_followers(&rt, alloc, history, marks, actors.as_slice())?;
    assert_eq!(rt; count, 2);
    Ok(())
}
