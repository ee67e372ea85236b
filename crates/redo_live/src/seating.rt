// The users and workers of a store, each in its seat.
ghost use Rattle.std.specs.Prelude.{[], ◌∷◌, ◌+◌, ◌≡◌, ◌≤◌, ◌<◌, ℕ, IfOk, length, vec_capacity};
ghost use Rattle.redo_live.specs.Seating.{AreSeatedFrom, AreSeatedUsers, AreSeatedWorkers, HaveRoom, Plan};

use crate::user::User;
use crate::worker::Worker;
use redo_disk::Sectors;
use redo_follow::Tally;
use redo_lsn::NoMemory;
use redo_ownrule::Player;
use redo_rule::Seat;
use std::alloc::Global;

/// Room for the users and the workers of a store, and for both once they come back.
#[derive(Drop)]
pub(crate) struct Rooms<L: Sectors, D: Sectors> {
    pub(crate) users: Vec<User<L, D>>,
    pub(crate) workers: Vec<Worker<L, D>>,
    pub(crate) seats: Vec<Seat<L, D>>,
    pub(crate) players: Vec<Player<Tally>>,
}

/// Takes room for so many users, of so many actors in all.
pub(crate) fn take_rooms<L: Sectors, D: Sectors>(
    alloc: Global,
    users: usize,
    actors: usize,
) -> Result<Rooms<L, D>, NoMemory>
    ensures { IfOk result (HaveRoom users actors) }
{
    Ok(Rooms {
        users: Vec::with_capacity(alloc, users)?,
        workers: Vec::with_capacity(alloc, actors)?,
        seats: Vec::with_capacity(alloc, actors)?,
        players: Vec::with_capacity(alloc, actors)?,
    })
}

/// The first of these players, in its seat.
fn take_first<L: Sectors, D: Sectors>(
    seats: &mut Vec<Seat<L, D>>,
    players: &mut Vec<Player<Tally>>,
) -> (Seat<L, D>, Player<Tally>)
    requires same { length seats.old.items ≡ length players.old.items }
    requires some { 0 < length players.old.items }
    ensures seat { seats.old.items ≡ result.0 ∷ seats.new.items }
    ensures player { players.old.items ≡ result.1 ∷ players.new.items }
{
    (seats.remove(0), players.remove(0))
}

/// The first so many of these players are users.
fn seat_users<L: Sectors, D: Sectors>(
    seats: &mut Vec<Seat<L, D>>,
    players: &mut Vec<Player<Tally>>,
    count: usize,
    mut users: Vec<User<L, D>>,
) -> Vec<User<L, D>>
    requires same { length seats.old.items ≡ length players.old.items }
    requires enough { count ≤ length players.old.items }
    requires none { users.items ≡ [] }
    requires room { count ≤ vec_capacity users }
    ensures seated { (plan : Plan) → AreSeatedFrom plan 0 seats.old.items players.old.items
        → AreSeatedUsers plan result.items × AreSeatedFrom plan count seats.new.items players.new.items }
    ensures count { (length result.items ≡ count) × (length seats.new.items ≡ length players.new.items) × (count + length players.new.items ≡ length players.old.items) }
{
    while users.len() < count {
        let (seat, player) = take_first(seats, players);
        users.push_reserved(User {
            seat,
            player,
            used: 0,
        });
    }
    users
}

/// These players are workers.
fn seat_workers<L: Sectors, D: Sectors>(
    mut seats: Vec<Seat<L, D>>,
    mut players: Vec<Player<Tally>>,
    mut workers: Vec<Worker<L, D>>,
) -> Vec<Worker<L, D>>
    requires same { length seats.items ≡ length players.items }
    requires none { workers.items ≡ [] }
    requires room { length players.items ≤ vec_capacity workers }
    ensures seated { (plan : Plan) (first : ℕ) → AreSeatedFrom plan first seats.items players.items
        → AreSeatedWorkers plan first result.items }
    ensures count { length result.items ≡ length players.items }
{
    while !players.is_empty() {
        let (seat, player) = take_first(&mut seats, &mut players);
        workers.push_reserved(Worker { seat, player });
    }
    workers
}

/// The first so many of these players as users, and the others as workers.
pub(crate) fn seat_all<L: Sectors, D: Sectors>(
    mut seats: Vec<Seat<L, D>>,
    mut players: Vec<Player<Tally>>,
    count: usize,
    users: Vec<User<L, D>>,
    workers: Vec<Worker<L, D>>,
) -> (Vec<User<L, D>>, Vec<Worker<L, D>>)
    requires same { length seats.items ≡ length players.items }
    requires enough { count ≤ length players.items }
    requires none { (users.items ≡ []) × (workers.items ≡ []) }
    requires room { (count ≤ vec_capacity users) × (length players.items ≤ vec_capacity workers) }
    ensures seated { (plan : Plan) → AreSeatedFrom plan 0 seats.items players.items
        → AreSeatedUsers plan result.0.items × AreSeatedWorkers plan count result.1.items }
    ensures count { (length result.0.items ≡ count) × (count + length result.1.items ≡ length players.items) }
{
    let users = seat_users(&mut seats, &mut players, count, users);
    (users, seat_workers(seats, players, workers))
}
