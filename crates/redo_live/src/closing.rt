// A store is closed.
ghost use Rattle.std.specs.Prelude.{[], ◌≡◌, ◌++◌, ◌+◌, ◌≤◌, ℕ, length, vec_capacity};
ghost use Rattle.redo_live.specs.Closing.{HaveEnded, LeavesStore, MayClose, players_of, seats_of, worker_players, worker_seats};
ghost use Rattle.redo_live.specs.Holding.{AreWorkersOf};

use crate::store::Store;
use crate::user::User;
use crate::worker::Worker;
use redo_disk::Sectors;
use redo_follow::Tally;
use redo_ownrule::Player;
use redo_rule::{Left, Seat};
use std::sync::Wait;

/// Puts users back, for whom there is room.
fn put_users<L: Sectors, D: Sectors>(
    seats: &mut Vec<Seat<L, D>>,
    players: &mut Vec<Player<Tally>>,
    users: Vec<User<L, D>>,
)
    requires seat_room { length seats.old.items + length users.items ≤ vec_capacity seats.old }
    requires player_room { length players.old.items + length users.items ≤ vec_capacity players.old }
    ensures seats { seats.new.items ≡ seats.old.items ++ seats_of users.items }
    ensures players { players.new.items ≡ players.old.items ++ players_of users.items }
    ensures seat_room { vec_capacity seats.new ≡ vec_capacity seats.old }
    ensures player_room { vec_capacity players.new ≡ vec_capacity players.old }
{
    for user in users {
        let User { seat, player, .. } = user;
        seats.push_reserved(seat);
        players.push_reserved(player);
    }
}

/// Puts workers back, for whom there is room.
fn put_workers<L: Sectors, D: Sectors>(
    seats: &mut Vec<Seat<L, D>>,
    players: &mut Vec<Player<Tally>>,
    workers: Vec<Worker<L, D>>,
)
    requires seat_room { length seats.old.items + length workers.items ≤ vec_capacity seats.old }
    requires player_room { length players.old.items + length workers.items ≤ vec_capacity players.old }
    ensures seats { seats.new.items ≡ seats.old.items ++ worker_seats workers.items }
    ensures players { players.new.items ≡ players.old.items ++ worker_players workers.items }
{
    for worker in workers {
        let Worker { seat, player } = worker;
        seats.push_reserved(seat);
        players.push_reserved(player);
    }
}

impl<L: Sectors, D: Sectors> Store<L, D> {
    /// Lets workers come to their ends, one after the other.
    fn run_all<T: Wait>(&self, rt: &T, workers: &mut [Worker<L, D>])
        requires { (first : ℕ) × AreWorkersOf self.now first workers.old }
        ensures still { (first : ℕ) → AreWorkersOf self.now first workers.old → AreWorkersOf self.now first workers.new }
        ensures ended { HaveEnded workers.new }
    {
        for worker in workers.iter_mut() {
            worker.run(self, rt);
        }
    }

    /// What the store leaves, given its workers, in the order in which it gave them, and those of its users that weren't dropped,
    /// in any order. Each worker looks once more whether there is something to do, and comes to its end. What isn't written then is
    /// lost; so may be the last group of a user that was dropped, but what there is of it is there whole.
    pub fn close<T: Wait>(
        self,
        rt: &T,
        users: Vec<User<L, D>>,
        workers: Vec<Worker<L, D>>,
    ) -> Left<L, D>
        requires { MayClose self users.items workers.items }
        ensures { LeavesStore L.seen L.gives D.seen D.gives self users.items result }
    {
        self.calls.end();
        let mut workers = workers;
        self.run_all(rt, workers.as_mut_slice());
        let Store {
            shared,
            calls: _,
            shape: _,
            log_only: _,
            quota: _,
            mut seats,
            mut players,
        } = self;
        put_users(&mut seats, &mut players, users);
        put_workers(&mut seats, &mut players, workers);
        shared.finish_live(rt, seats, players)
    }
}
