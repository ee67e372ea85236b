// The users of a run, in their seats.
ghost use Rattle.std.specs.Prelude.{◌≡◌, ◌≤◌, ◌+◌, [], IfOk, map};
ghost use Rattle.std.specs.List.{AllByRecursion};
ghost use Rattle.model_base.specs.{IsWithinLimits};
ghost use Rattle.model_core.specs.States as actor;
ghost use Rattle.model_core.specs.declared.limits.TheConstants.{READERS};
ghost use Rattle.model_log.specs.{run_layout};
ghost use Rattle.model_script.specs.{IsScriptLine, LineFits};
ghost use Rattle.model_script.specs.declared.misfit.TheConstants.{MAX_USERS};
ghost use Rattle.redo_drive.specs.LiveActors.{idle_users};
ghost use Rattle.redo_drive.specs.Setups.{user_lines, users_of};
ghost use Rattle.redo_drive.specs.History.{views_of};
ghost use Rattle.redo_drive.specs.declared.seating.TheConstants.{FIRST_FOLLOWER};

use crate::actor::Actor;
use crate::plan::Plan;
use model_base::Shape;
use model_log::Group;
use model_script::{MAX_USERS, ScriptLine};
use redo_follow::Receiver;
use redo_lsn::NoMemory;
use redo_script::group_of;
use redo_useractor::UserActor;
use std::alloc::Global;

/// How many actors there are at the most beside the followers.
const MOST_ACTORS: usize = MAX_USERS as usize + 6;

/// The lines of a user, each a mode and a group.
fn lines_of(
    alloc: Global,
    script: &[ScriptLine],
    user: u32,
    space: u32,
) -> Result<Vec<(u32, Group)>, NoMemory>
    ensures { IfOk result (λ lines. lines.items ≡ user_lines space script.now user) }
{
    let mut lines = Vec::new(alloc);
    for line in script {
        if line.user == user {
            lines.push((line.mode, group_of(alloc, line, space)?))?;
        }
    }
    Ok(lines)
}

/// The users that have lines, by their numbers, with room for the other actors, the plan's followers among them.
pub fn seat_users<R: Receiver + Drop>(
    alloc: Global,
    script: &[ScriptLine],
    shape: &Shape,
    plan: Plan,
) -> Result<Vec<Actor<R>>, NoMemory>
    requires limits { IsWithinLimits shape.now }
    requires lines { AllByRecursion IsScriptLine script.now }
    requires fits { AllByRecursion (LineFits shape.now) script.now }
    requires few { FIRST_FOLLOWER + plan.followers ≤ READERS }
    ensures { IfOk result (λ actors. views_of actors.items ≡ map actor.User (users_of shape.now plan.log_only script.now)) }
{
    let mut actors = Vec::with_capacity(alloc, MOST_ACTORS + plan.followers as usize)?;
    for user in 1..MAX_USERS + 1 {
        let lines = lines_of(alloc, script, user, shape.space)?;
        if !lines.is_empty() {
            let actor = UserActor::new(alloc, user, lines, shape, plan.log_only)?;
            actors.push(Actor::User(actor))?;
        }
    }
    Ok(actors)
}

/// So many users that have no lines yet, with room for the other actors.
pub fn seat_idle<R: Receiver + Drop>(
    alloc: Global,
    users: u32,
    shape: &Shape,
    log_only: bool,
) -> Result<Vec<Actor<R>>, NoMemory>
    requires limits { IsWithinLimits shape.now }
    requires users { users ≤ MAX_USERS }
    ensures { IfOk result (λ actors. views_of actors.items ≡ map actor.User (idle_users (run_layout shape.now).blocks users)) }
{
    let mut actors = Vec::with_capacity(alloc, MOST_ACTORS)?;
    for before in 0..users {
        let lines = Vec::new(alloc);
        let actor = UserActor::new(alloc, before + 1, lines, shape, log_only)?;
        actors.push(Actor::User(actor))?;
    }
    Ok(actors)
}
