// Users and workers beside one another, each in a thread of its own.
ghost use Rattle.std.specs.Prelude.{ℕ};
ghost use denote.Param.Send.{IsSend, IsSync};
ghost use Rattle.redo_live.specs.Closing.{AreAllOf};
ghost use Rattle.redo_live.specs.Holding.{AreUsersOf, AreWorkersOf, IsUserOf};
ghost use Rattle.redo_live.specs.Serving.{HaveServed, HaveWorked, Stays};
ghost use Rattle.redo_live.specs.declared.store.Store.{Store};
ghost use Rattle.redo_live.specs.declared.user.User.{User};

use crate::store::Store;
use crate::user::User;
use crate::worker::Worker;
use redo_disk::Sectors;
use std::sync::Wait;
use std::thread::{Threads, for_each_mut, join_mut};

/// What the users of a store do, each in a thread of its own.
pub trait Work<L: Sectors, D: Sectors> {
    // what may become of the user of this place
    ghost does: { Self → Store L D → ℕ → User L D → User L D → Type 0 };

    /// The user of this place, from 0, does its work, and stays one of the store's.
    fn serve(&self, store: &Store<L, D>, place: usize, user: &mut User<L, D>)
        requires { IsUserOf store.now user.old }
        ensures stays { Stays store.now user.old user.new }
        ensures does { does self.now store.now place user.old user.new };
}

impl<L: Sectors + Send + Sync, D: Sectors + Send + Sync> Store<L, D> {
    /// Each worker runs in a thread of its own, until the store's `end` is called.
    fn run_beside<R: Threads + Wait + Sync>(&self, rt: &R, workers: &mut [Worker<L, D>])
        requires { (first : ℕ) × AreWorkersOf self.now first workers.old }
        ensures { HaveWorked self.now workers.old workers.new }
    {
        let threads = workers.len().max(1);
        for_each_mut(rt, workers, threads, &|_, worker| worker.run(self, rt));
    }

    /// Each user does this work in a thread of its own. Then the store is at its end.
    fn serve_users<R: Threads + Sync, W: Work<L, D> + Sync>(
        &self,
        rt: &R,
        work: &W,
        users: &mut [User<L, D>],
    )
        requires { AreUsersOf self.now users.old }
        ensures { HaveServed self.now (W.does work.now self.now) users.old users.new }
    {
        let threads = users.len().max(1);
        for_each_mut(
            rt,
            users,
            threads,
            &|place, user| work.serve(self, place, user),
        );
        self.end();
    }

    /// Each of all users does this work, in a thread of its own, while the workers run, each in a thread of its own. Once all
    /// users are done the workers come to their ends.
    pub fn serve<R: Threads + Wait + Sync, W: Work<L, D> + Sync>(
        &self,
        rt: &R,
        work: &W,
        users: &mut [User<L, D>],
        workers: &mut [Worker<L, D>],
    )
        requires { AreAllOf self.now users.old workers.old }
        ensures all { AreAllOf self.now users.new workers.new }
        ensures served { HaveServed self.now (W.does work.now self.now) users.old users.new }
    {
        join_mut(
            rt,
            &mut ||
                requires { IsSync R.row × IsSend L.row × IsSync L.row × IsSend D.row × IsSync D.row × ((first : ℕ) × AreWorkersOf self.now first workers.now) }
                ensures { HaveWorked self.entry.now workers.entry.now workers.exit.now }
            { self.run_beside(rt, workers) },
            &mut ||
                requires { IsSync R.row × IsSync W.row × IsSend L.row × IsSync L.row × IsSend D.row × IsSync D.row × AreUsersOf self.now users.now }
                ensures { HaveServed self.entry.now (W.does work.entry.now self.entry.now) users.entry.now users.exit.now }
            { self.serve_users(rt, work, users) },
        );
    }
}
