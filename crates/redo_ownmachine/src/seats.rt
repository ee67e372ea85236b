// Users that write for themselves, made of the actors of a run, and made those again.
ghost use Rattle.std.specs.Prelude.{◌≡◌, ◌≤◌, ◌+◌, ◌++◌, IfOk, [], length, reverse, vec_capacity};
ghost use Rattle.redo_ownmachine.specs.OwnCrew.{HaveWorkers, crew, users_alone};
ghost use Rattle.redo_ownmachine.specs.OwnSeats.{AreAtHome};

use redo_drive::Actor;
use redo_follow::Receiver;
use redo_lsn::NoMemory;
use redo_ownuser::{LogWork, OwnUser};
use std::alloc::Global;

/// Who is in a store whose users write for themselves, and room for them all as actors.
#[derive(Drop)]
pub struct Seats<R: Receiver> {
    pub users: Vec<OwnUser>,
    pub work: LogWork,
    pub others: Vec<Actor<R>>,
    pub room: Vec<Actor<R>>,
}

/// The actors of a run: its users write for themselves, and its writer and flusher become the log's work.
pub fn take_seats<R: Receiver + Drop>(
    alloc: Global,
    actors: Vec<Actor<R>>,
) -> Result<Seats<R>, NoMemory>
    requires { HaveWorkers actors.items }
    ensures crew { IfOk result (λ seats. crew seats.users.items seats.work seats.others.items ≡ actors.items) }
    ensures at_home { IfOk result (λ seats. AreAtHome seats.users.items) }
    ensures room { IfOk result (λ seats. (seats.room.items ≡ []) × (length actors.items ≤ vec_capacity seats.room)) }
{
    let room = Vec::with_capacity(alloc, actors.len())?;
    let mut users = Vec::new(alloc);
    let mut others = Vec::new(alloc);
    let mut writer = None;
    let mut flusher = None;
    for actor in actors {
        match actor {
            Actor::User(user) => users.push(OwnUser::new(user))?,
            Actor::Writer(found) => writer = Some(found),
            Actor::Flusher(found) => flusher = Some(found),
            other => others.push(other)?,
        }
    }
    let Some(writer) = writer else { unreachable!() };
    let Some(flusher) = flusher else {
        unreachable!()
    };
    Ok(Seats {
        users,
        work: LogWork::new(writer, flusher),
        others,
        room,
    })
}

/// Puts these actors behind the others, the last one first.
fn put_others<R: Receiver + Drop>(room: &mut Vec<Actor<R>>, mut others: Vec<Actor<R>>)
    requires { length room.old.items + length others.items ≤ vec_capacity room.old }
    ensures items { room.new.items ≡ room.old.items ++ reverse others.items }
    ensures capacity { vec_capacity room.new ≡ vec_capacity room.old }
{
    while let Some(other) = others.pop() {
        room.push_reserved(other);
    }
}

/// Puts these users behind the other actors, the last one first.
fn put_users<R: Receiver + Drop>(room: &mut Vec<Actor<R>>, mut users: Vec<OwnUser>)
    requires { length room.old.items + length users.items ≤ vec_capacity room.old }
    ensures items { room.new.items ≡ room.old.items ++ reverse (users_alone users.items) }
    ensures capacity { vec_capacity room.new ≡ vec_capacity room.old }
{
    while let Some(user) = users.pop() {
        room.push_reserved(Actor::User(user.into_user()));
    }
}

/// The actors that a run leaves: the users, the writer, the flusher, and the others.
pub fn give_seats<R: Receiver + Drop>(
    mut room: Vec<Actor<R>>,
    users: Vec<OwnUser>,
    work: LogWork,
    others: Vec<Actor<R>>,
) -> Vec<Actor<R>>
    requires empty { room.items ≡ [] }
    requires enough { length users.items + 2 + length others.items ≤ vec_capacity room }
    ensures { result.items ≡ crew users.items work others.items }
{
    let (writer, flusher) = work.into_actors();
    put_others(&mut room, others);
    room.push_reserved(Actor::Flusher(flusher));
    room.push_reserved(Actor::Writer(writer));
    put_users(&mut room, users);
    room.as_mut_slice().reverse();
    room
}
