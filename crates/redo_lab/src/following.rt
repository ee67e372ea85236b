// The followers of a run, and what is told of them.
ghost use Rattle.std.specs.Prelude.{◌<◌, ◌^◌, ◌≡◌, ◌≤◌, ℕ, IfOk, [], length, vec_capacity};
ghost use Rattle.std.specs.List.{AllZip};
ghost use Rattle.model_script.specs.declared.words.TheConstants.{MAX_FOLLOWERS};
ghost use Rattle.redo_drive.specs.{followers_in, AreNewFollowers};
ghost use Rattle.redo_lab.specs.Call.{IsToldOf};
ghost use Rattle.redo_lab.specs.Begun.{AreUntold};

use model_report::Followed;
use redo_drive::{Actor, FIRST_FOLLOWER};
use redo_follow::{Follower, Tally};
use redo_lsn::NoMemory;
use std::alloc::Global;

/// So many followers for a run that starts at this lsn, newly made, whose receivers have got nothing; and room for what is to
/// be told of them.
pub(crate) fn make_followers(
    alloc: Global,
    count: u32,
    start: u64,
) -> Result<(Vec<Follower<Tally>>, Vec<Followed>), NoMemory>
    requires few { count ≤ MAX_FOLLOWERS }
    requires small { start < 2 ^ 61 }
    ensures new { IfOk result (λ made. AreNewFollowers start made.0.items) }
    ensures untold { IfOk result (λ made. AreUntold count made.0.items) }
    ensures room { IfOk result (λ made. (made.1.items ≡ []) × (count ≤ vec_capacity made.1)) }
{
    let mut followers = Vec::with_capacity(alloc, count as usize)?;
    for number in FIRST_FOLLOWER..FIRST_FOLLOWER + count {
        let follower = Follower::new(alloc, number, start, Tally::new())?;
        followers.push_reserved(follower);
    }
    let follows = Vec::with_capacity(alloc, count as usize)?;
    Ok((followers, follows))
}

/// What is told of a follower.
fn told(follower: &Follower<Tally>) -> Followed
    ensures { IsToldOf follower.now result }
{
    let receiver = follower.receiver();
    Followed {
        number: follower.number(),
        count: receiver.count(),
        lsn: follower.place(),
        crc: receiver.crc(),
    }
}

/// What is told of the followers among these actors, in a vector that has room for it.
pub(crate) fn told_of(mut follows: Vec<Followed>, actors: &[Actor<Tally>]) -> Vec<Followed>
    ensures { follows.items ≡ [] → length (followers_in actors.now) ≤ vec_capacity follows
        → AllZip IsToldOf (followers_in actors.now) result.items }
{
    for actor in actors {
        if let Some(follower) = actor.follower() {
            if follows.len() < follows.capacity() {
                follows.push_reserved(told(follower));
            }
        }
    }
    follows
}
