// The players of a run, made of its actors.
ghost use Rattle.std.specs.Prelude.{◌≡◌, ◌≤◌, IfOk, [], false, true, is_some, length, vec_capacity};
ghost use Rattle.redo_ownrule.specs.Staffing.{AreStaffOf, HaveKinds};

use crate::player::Player;
use redo_drive::Actor;
use redo_follow::Receiver;
use redo_lsn::NoMemory;
use redo_ownuser::{LogWork, OwnUser};
use std::alloc::Global;

/// The players, the log's work where users write for themselves, and room for all actors that the run leaves.
#[derive(Drop)]
pub(crate) struct Staff<R: Receiver> {
    pub(crate) players: Vec<Player<R>>,
    pub(crate) work: Option<LogWork>,
    pub(crate) room: Vec<Actor<R>>,
}

/// Each actor plays by its own program.
pub(crate) fn take_plain<R: Receiver + Drop>(
    alloc: Global,
    actors: Vec<Actor<R>>,
) -> Result<Staff<R>, NoMemory>
    ensures { IfOk result (AreStaffOf false actors.items) }
{
    let room = Vec::with_capacity(alloc, actors.len())?;
    let mut players = Vec::new(alloc);
    for actor in actors {
        players.push(Player::Plain(actor))?;
    }
    Ok(Staff {
        players,
        work: None,
        room,
    })
}

/// Users write for themselves, and the writer and the flusher become the log's work.
fn take_own<R: Receiver + Drop>(alloc: Global, actors: Vec<Actor<R>>) -> Result<Staff<R>, NoMemory>
    requires { HaveKinds actors.items }
    ensures { IfOk result (AreStaffOf true actors.items) }
{
    let room = Vec::with_capacity(alloc, actors.len())?;
    let mut players = Vec::new(alloc);
    let mut writer = None;
    let mut flusher = None;
    for actor in actors {
        match actor {
            Actor::User(user) => players.push(Player::Own(OwnUser::new(user)))?,
            Actor::Writer(found) => writer = Some(found),
            Actor::Flusher(found) => flusher = Some(found),
            other => players.push(Player::Plain(other))?,
        }
    }
    let Some(writer) = writer else { unreachable!() };
    let Some(flusher) = flusher else {
        unreachable!()
    };
    Ok(Staff {
        players,
        work: Some(LogWork::new(writer, flusher)),
        room,
    })
}

/// The players of a run, of which these are the actors.
pub(crate) fn take_staff<R: Receiver + Drop>(
    alloc: Global,
    actors: Vec<Actor<R>>,
    own_writes: bool,
) -> Result<Staff<R>, NoMemory>
    requires { HaveKinds actors.items }
    ensures { IfOk result (AreStaffOf own_writes actors.items) }
{
    if own_writes {
        take_own(alloc, actors)
    } else {
        take_plain(alloc, actors)
    }
}
