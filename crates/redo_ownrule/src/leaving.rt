// The actors that a run leaves, made of its players.
ghost use Rattle.std.specs.Prelude.{◌≡◌, ◌≤◌, ◌++◌, [], length, vec_capacity};
ghost use Rattle.redo_ownrule.specs.Players.{crew, workers_of};

use crate::player::Player;
use redo_drive::Actor;
use redo_follow::Receiver;
use redo_ownuser::LogWork;

/// Puts the writer and the flusher behind the users, as far as the log's work has come, if they are to stand there still.
fn put_workers<R: Receiver + Drop>(room: &mut Vec<Actor<R>>, work: Option<LogWork>)
    requires { length (room.old.items ++ workers_of work) ≤ vec_capacity room.old }
    ensures items { room.new.items ≡ room.old.items ++ workers_of work }
    ensures capacity { vec_capacity room.new ≡ vec_capacity room.old }
{
    if let Some(work) = work {
        let (writer, flusher) = work.into_actors();
        room.push_reserved(Actor::Writer(writer));
        room.push_reserved(Actor::Flusher(flusher));
    }
}

/// The actors of these players, with the writer and the flusher behind the users that wrote for themselves.
pub(crate) fn give_actors<R: Receiver + Drop>(
    mut room: Vec<Actor<R>>,
    players: Vec<Player<R>>,
    work: Option<LogWork>,
) -> Vec<Actor<R>>
    requires empty { room.items ≡ [] }
    requires enough { length (crew work players.items) ≤ vec_capacity room }
    ensures { result.items ≡ crew work players.items }
{
    let mut work = work;
    for player in players {
        match player {
            Player::Own(user) => room.push_reserved(Actor::User(user.into_user())),
            Player::Plain(actor) => {
                put_workers(&mut room, work.take());
                room.push_reserved(actor);
            }
        }
    }
    put_workers(&mut room, work);
    room
}
