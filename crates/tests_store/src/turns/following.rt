// A follower that takes its turns among the others.
ghost use Rattle.std.specs.Prelude.{◌<◌, ◌^◌, IfOk};
ghost use Rattle.redo_drive.specs.{AreNewFollowers};

use super::runs::{NO_TURNS, Run, left_of, play, spelled, take_turns};
use super::store::{machine_on, opened};
use redo_drive::{Actor, RunEnd};
use redo_follow::{Follower, Receiver};
use redo_words::{Op, Word};
use std::alloc::{AllocError, Global};
use std::process::Abort;
use std::test::Fail;

/// A receiver that lists the groups: where each starts and ends, and the bytes of them all.
#[derive(Drop)]
pub struct Listed {
    pub spans: Vec<(u64, u64)>,
    pub texts: Vec<u8>,
}

impl Receiver for Listed {
    ghost stands_for = { λ _ _. Unit {0} };

    fn group(&mut self, start: u64, end: u64, text: &[u8]) {
        let _ = self.spans.push((start, end));
        let _ = self.texts.extend_from_slice(text);
    }
}

/// A receiver with room for so many groups, and for so many bytes of them.
pub fn empty_list(alloc: Global, groups: usize, bytes: usize) -> Result<Listed, AllocError> {
    let spans = Vec::with_capacity(alloc, groups)?;
    let texts = Vec::with_capacity(alloc, bytes)?;
    Ok(Listed { spans, texts })
}

/// A follower of a run that starts at this lsn.
fn one_follower(alloc: Global, start: u64) -> Result<Vec<Follower<Listed>>, Fail>
    requires { start < 2 ^ 61 }
    ensures { IfOk result (λ followers. AreNewFollowers start followers.items) }
{
    let follower = Follower::new(alloc, 1, start, empty_list(alloc, 3, 64)?)?;
    let mut followers = Vec::new(alloc);
    followers.push(follower)?;
    Ok(followers)
}

/// The seat of the follower: behind the user, the writer, the flusher, and the actors of the pages.
const FOLLOWER: usize = 6;

/// A group whose user has ended, and of which the flusher waits for more.
const FLUSHED: Run = Run {
    text: "1 f b1 3 100 7\n",
    turns: "0-* 1-* 2-* 0.* 2-*",
    ..NO_TURNS
};

/// The follower at the end.
fn follower_of(actors: &[Actor<Listed>]) -> Option<&Follower<Listed>> {
    actors.last()?.follower()
}

/// How many turns the follower takes then, at most so many, and how the last one ends; what its receiver lists, and FLUSHED at the
/// end; and what it asks for next.
fn followed(rt: &impl Abort, alloc: Global, most: u64) -> Result<(String, Op), Fail> {
    let opened = opened(alloc, 0)?;
    let followers = one_follower(alloc, opened.start)?;
    let mut machine = machine_on(rt, alloc, opened, FLUSHED.text.as_bytes(), followers);
    assert!(rt; play(rt, &mut machine, &FLUSHED) == RunEnd::Done);
    let taken = take_turns(rt, &mut machine, FOLLOWER, most);
    let (closed, actors, _) = machine.finish();
    let Some(follower) = follower_of(actors.as_slice()) else {
        panic!(rt; "no follower");
    };
    let got = follower.receiver();
    let (spans, texts) = (got.spans.as_slice(), got.texts.as_slice());
    let (flushed, place) = (closed.marks.flushed, follower.place());
    let told = format!(in alloc; "{taken:?} {spans:?} {texts:?} of {flushed} up to {place}")?;
    Ok((told, follower.next()))
}

/// It loads FLUSHED, takes the log part, reads the block, and gives the part back. By that its receiver has the group that is flushed,
/// once, and its place is FLUSHED. Then it stores its place, and waits.
#[test]
fn a_follower_gets_what_is_flushed(rt: HostRuntime) -> Result<(), Fail> {
    let group = "[(8204, 8210)] [129, 1, 3, 0, 100, 7] of 8210 up to 8210";
    for (most, taken, got, asks) in [
        (3, "(3, Moved)", "[] [] of 8210 up to 8204", Op::GiveDevice),
        (4, "(4, Moved)", group, Op::Store(Word::Place(1), 8_210)),
        (u64::MAX, "(6, Idle)", group, Op::Load(Word::Failed)),
    ] {
        let (told, next) = followed(&rt, rt.alloc(), most)?;
        assert!(rt; told.starts_with(taken) && told.ends_with(got), "{told}");
        assert_eq!(rt; next, asks);
    }
    Ok(())
}

/// A round of the turns of everyone but the follower, each until it waits.
const OTHERS: &str = "0-* 1-* 2-* 3-* 4-* 5-* ";

/// A line of a group of 8,192 bytes.
const FULL: &str = "1 n s 1 38 (55*4050);s 1 38 (55*4050);s 1 38 (55*70)\n";

/// What a run of thirty such lines comes to in which the follower gets no turn but these, at the end: how many groups there are, and
/// the marks.
fn held_back(rt: &impl Abort, alloc: Global, last: &str) -> Result<String, Fail> {
    let opened = opened(alloc, 0)?;
    let followers = one_follower(alloc, opened.start)?;
    let text = spelled(alloc, FULL)?.repeat(alloc, 30)?;
    let mut turns = OTHERS.repeat(alloc, 8)?;
    turns.push_str(last)?;
    let run = Run {
        turns: turns.as_str(),
        ..NO_TURNS
    };
    let mut machine = machine_on(rt, alloc, opened, text.as_bytes(), followers);
    let ended = play(rt, &mut machine, &run);
    let (closed, _, _) = machine.finish();
    Ok(left_of(alloc, ended, &closed)?)
}

/// The log has 1,022 blocks, of which 544 are kept free, and the checkpoint stands at 8,192 as long as FOLLOW stands at 8,204: a group
/// may begin up to 252,928. The k-th one starts at the sn 7,936 + 8,192 * k, from 0: the last that may begin is the one of k = 28, and
/// it ends at 253,420. Once the follower has had its turns, the checkpoint goes to 252,928, and the last group is reserved.
#[test]
fn a_follower_without_turns_holds_the_users_back(rt: HostRuntime) -> Result<(), Fail> {
    for (last, ended, marks) in [
        (
            "",
            "Spent { turns: 0, user: 1 } 0 29: ",
            " (253420, 253420, 253420, 8192)",
        ),
        (
            "6-* 5-* 0.*",
            "Done 0 30: ",
            " (253420, 253420, 253420, 252928)",
        ),
    ] {
        let told = held_back(&rt, rt.alloc(), last)?;
        assert!(rt; told.starts_with(ended) && told.ends_with(marks), "{told}");
    }
    Ok(())
}
