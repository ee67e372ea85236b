// Followers of runs in threads: each receiver gets just the groups up to its follower's place.
ghost use Rattle.std.specs.Prelude.{◌<◌, ◌^◌, IfOk};
ghost use Rattle.redo_drive.specs.{AreNewFollowers};

use crate::store::{Device, LOG_ALONE, PAGES, Ready, Way, make_ready};
use crate::text::lines_of;
use crate::watch::{NOBODY, Watch};
use redo_drive::{Actor, Closed, Driven};
use redo_follow::{Follower, Receiver};
use redo_threads::drive_in_threads;
use std::alloc::{AllocError, Global};
use std::process::Abort;
use std::sync::Wait;
use std::test::Fail;
use std::thread::Threads;

/// A receiver that lists where the groups start and end.
#[derive(Drop)]
struct Spans {
    list: Vec<(u64, u64)>,
}

impl Receiver for Spans {
    ghost stands_for = { λ _ _. Unit {0} };

    fn group(&mut self, start: u64, end: u64, _text: &[u8]) {
        let _ = self.list.push((start, end));
    }
}

/// A receiver with room for so many groups.
fn room_for(alloc: Global, groups: usize) -> Result<Spans, AllocError> {
    let list = Vec::with_capacity(alloc, groups)?;
    Ok(Spans { list })
}

/// Two followers of a run that starts at this lsn, with room for so many groups.
fn two_followers(alloc: Global, start: u64, groups: usize) -> Result<Vec<Follower<Spans>>, Fail>
    requires { start < 2 ^ 61 }
    ensures { IfOk result (λ followers. AreNewFollowers start followers.items) }
{
    let first = Follower::new(alloc, 1, start, room_for(alloc, groups)?)?;
    let second = Follower::new(alloc, 2, start, room_for(alloc, groups)?)?;
    let mut followers = Vec::new(alloc);
    followers.push(first)?;
    followers.push(second)?;
    Ok(followers)
}

/// What the run in threads of a script on a new store leaves, with two followers that have room for so many groups; and its actors.
fn left_by<R: Threads + Wait + Sync>(
    rt: &R,
    alloc: Global,
    text: &str,
    groups: usize,
    way: Way,
    watch: &Watch,
) -> Result<(Closed<Device, Device>, Vec<Actor<Spans>>), Fail> {
    let Ready { opened, script } = make_ready(alloc, text.as_bytes(), way)?;
    let followers = two_followers(alloc, opened.start, groups)?;
    match drive_in_threads::<R, Device, Device, Device, Spans, Watch>(
        rt,
        alloc,
        opened,
        &script,
        way.log_only,
        way.own_writes,
        None,
        followers,
        watch,
    ) {
        Ok((Driven { closed, .. }, actors, _)) => Ok((closed, actors)),
        Err(_) => Err(Fail::from("no memory")),
    }
}

/// Where the groups start and end that end at or below this place.
fn spans_up_to(
    alloc: Global,
    closed: &Closed<Device, Device>,
    place: u64,
) -> Result<Vec<(u64, u64)>, AllocError> {
    let mut spans = Vec::new(alloc);
    for entry in closed.history.0.iter() {
        if entry.end <= place {
            spans.push((entry.start, entry.end))?;
        }
    }
    Ok(spans)
}

/// Sees that a follower stands between the checkpoint and FLUSHED, and that its receiver got the groups up to there.
fn see_follower(
    rt: &impl Abort,
    alloc: Global,
    closed: &Closed<Device, Device>,
    follower: &Follower<Spans>,
) -> Result<(), AllocError> {
    let place = follower.place();
    let marks = closed.marks;
    let is_between = marks.ckpt <= place && place <= marks.flushed;
    assert!(rt; is_between, "{place} {marks:?}");
    let wanted = spans_up_to(alloc, closed, place)?;
    let got = follower.receiver().list.as_slice();
    assert!(rt; got == wanted.as_slice(), "up to {place}: {got:?}");
    Ok(())
}

/// Sees that of each follower among the actors that a run gives back, and how many there are.
fn see_followers(
    rt: &impl Abort,
    alloc: Global,
    closed: &Closed<Device, Device>,
    actors: &[Actor<Spans>],
) -> Result<u32, AllocError> {
    let mut count = 0u32;
    for actor in actors {
        if let Some(follower) = actor.follower() {
            count = count.wrapping_add(1);
            assert!(rt; follower.number() == count);
            see_follower(rt, alloc, closed, follower)?;
        }
    }
    Ok(count)
}

/// Sees that of the run of four users with six lines each, where these threads are refused.
fn see_users<R: Abort + AllocGlobal + Threads + Wait + Sync>(
    rt: &R,
    way: Way,
    refused: (usize, usize),
) -> Result<(), Fail> {
    let alloc = rt.alloc();
    let text = lines_of(alloc, 4, "f", 6, 600)?;
    let watch = Watch::new(false, refused);
    let (closed, actors) = left_by(rt, alloc, &text, 24, way, &watch)?;
    assert!(rt; closed.code == 0 && closed.history.0.len() == 24);
    assert!(rt; see_followers(rt, alloc, &closed, actors.as_slice())? == 2);
    Ok(())
}

/// The followers' threads are refused too, and the caller plays them: they come after four users and five other actors, or, where the
/// log runs alone, two.
#[test]
fn followers_get_the_groups_up_to_their_places(rt: HostRuntime) -> Result<(), Fail> {
    see_users(&rt, PAGES, NOBODY)?;
    see_users(&rt, PAGES, (9, 11))?;
    see_users(&rt, LOG_ALONE, NOBODY)?;
    see_users(&rt, LOG_ALONE, (6, 7))
}
