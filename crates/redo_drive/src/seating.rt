// The actors of a run, in their seats.
ghost use Rattle.std.specs.Prelude.{◌≡◌, ◌≤◌, ◌<◌, ◌^◌, ◌+◌, ◌++◌, IfOk, map};
ghost use Rattle.model_base.specs.{IsWithinLimits};
ghost use Rattle.model_core.specs.declared.limits.TheConstants.{READERS};
ghost use Rattle.model_log.specs.{IsAtDataStart};
ghost use Rattle.model_base.specs.declared.limits.TheConstants.{FIRST_DATA_LSN};
ghost use Rattle.redo_drive.specs.Begins.{EndsWithReaders, new_archiver};
ghost use Rattle.redo_drive.specs.Setups.{first_reader, other_actors, with_others};
ghost use Rattle.redo_drive.specs.Startable.{HasNewFollowers};
ghost use Rattle.redo_drive.specs.History.{views_of};
ghost use Rattle.redo_drive.specs.declared.actor.Actor.TheVariants as own;
ghost use Rattle.redo_drive.specs.declared.seating.TheConstants.{FIRST_FOLLOWER};

use crate::actor::Actor;
use crate::plan::Plan;
use model_base::Shape;
use redo_archiver::Archiver;
use redo_follow::{Follower, Receiver};
use redo_logactors::{Closer, Flusher, Writer};
use redo_lsn::NoMemory;
use redo_pageactors::{Checkpointer, Cleaner};
use std::alloc::Global;

/// The number of the first follower.
pub const FIRST_FOLLOWER: u32 = 1;

/// The number of the first reader of the log: 0, the archiver's, or that of the first follower.
fn first_reader(archive: bool) -> u32
    ensures { result ≡ first_reader archive }
{
    if archive { 0 } else { FIRST_FOLLOWER }
}

/// Behind the users the actors before the readers of the log, of a run that starts at this lsn.
fn seat_others<R: Receiver + Drop>(
    alloc: Global,
    mut actors: Vec<Actor<R>>,
    shape: &Shape,
    start: u64,
    plan: Plan,
) -> Result<Vec<Actor<R>>, NoMemory>
    requires limits { IsWithinLimits shape.now }
    requires place { IsAtDataStart start }
    requires first { FIRST_DATA_LSN ≤ start }
    requires small { start < 2 ^ 61 }
    requires few { FIRST_FOLLOWER + plan.followers ≤ READERS }
    ensures { IfOk result (λ seated. views_of seated.items ≡ views_of actors.items ++ other_actors shape.now start plan) }
{
    actors.push(Actor::Writer(Writer::new(alloc, shape, start)?))?;
    actors.push(Actor::Flusher(Flusher::new(start)))?;
    if !plan.log_only {
        let first = first_reader(plan.archive);
        let last = FIRST_FOLLOWER + plan.followers as u32;
        actors.push(Actor::Closer(Closer::new()))?;
        actors.push(Actor::Cleaner(Cleaner::new(alloc, shape)?))?;
        actors.push(Actor::Checkpointer(Checkpointer::new(start, first, last)))?;
    }
    Ok(actors)
}

/// The archiver after the other actors, if the run is archived.
fn seat_archiver<R: Receiver + Drop>(
    mut actors: Vec<Actor<R>>,
    start: u64,
    archive: bool,
) -> Result<Vec<Actor<R>>, NoMemory>
    requires { IsAtDataStart start }
    ensures { IfOk result (λ seated. seated.items ≡ actors.items ++ new_archiver start archive) }
{
    if archive {
        actors.push(Actor::Archiver(Archiver::new(start)))?;
    }
    Ok(actors)
}

/// These followers after the other actors, in their order.
fn seat_followers<R: Receiver + Drop>(
    mut actors: Vec<Actor<R>>,
    followers: Vec<Follower<R>>,
) -> Result<Vec<Actor<R>>, NoMemory>
    ensures { IfOk result (λ seated. seated.items ≡ actors.items ++ map own.Follower followers.items) }
{
    for follower in followers {
        actors.push(Actor::Follower(follower))?;
    }
    Ok(actors)
}

/// All actors of a run that starts at this lsn, by this plan: behind these users the others, with the readers of its log at the
/// end, which are the archiver, if it is archived, and these followers.
pub fn seat_behind<R: Receiver + Drop>(
    alloc: Global,
    users: Vec<Actor<R>>,
    shape: &Shape,
    start: u64,
    plan: Plan,
    followers: Vec<Follower<R>>,
) -> Result<Vec<Actor<R>>, NoMemory>
    requires limits { IsWithinLimits shape.now }
    requires place { IsAtDataStart start }
    requires first { FIRST_DATA_LSN ≤ start }
    requires small { start < 2 ^ 61 }
    requires new { HasNewFollowers plan start followers.items }
    ensures actors { IfOk result (λ actors. views_of actors.items ≡ with_others (views_of users.items) shape.now start plan) }
    ensures readers { IfOk result (λ actors. EndsWithReaders start plan.archive actors.items followers.items) }
{
    let before = seat_others(alloc, users, shape, start, plan)?;
    let actors = seat_archiver(before, start, plan.archive)?;
    seat_followers(actors, followers)
}
