// An open store.
ghost use Rattle.std.specs.Prelude.{◌≡◌, ◌≤◌, ◌<◌, IfErr, IfOk};
ghost use Rattle.model_base.specs.{IsWithinLimits};
ghost use Rattle.model_base.specs.declared.limits.TheConstants.{LSN_LIMIT};
ghost use Rattle.model_script.specs.declared.misfit.TheConstants.{MAX_USERS};
ghost use Rattle.redo_live.specs.Holding.{IsOpen, shape_of};
ghost use Rattle.redo_live.specs.Opening.{IsNewlyOpened};
ghost use Rattle.redo_store.specs.{IsRunnable};

use crate::quota::{actor_count, quota_of};
use crate::seating::{Rooms, seat_all, take_rooms};
use crate::user::User;
use crate::worker::Worker;
use model_base::Shape;
use redo_disk::Sectors;
use redo_follow::Tally;
use redo_lsn::NoMemory;
use redo_ownrule::{Player, Shared};
use redo_rule::Seat;
use redo_store::Opened;
use redo_threads::Calls;
use std::alloc::Global;
use std::thread::Threads;

/// An open store. Its users and workers are played beside it, in whatever threads have them.
pub struct Store<L: Sectors, D: Sectors> {
    pub(crate) shared: Shared<L, D, Tally>,
    pub(crate) calls: Calls,
    pub(crate) shape: Shape,
    pub(crate) log_only: bool,
    // how many bytes the groups of each user may have together
    pub(crate) quota: u64,
    // room for all users and workers as they come back
    pub(crate) seats: Vec<Seat<L, D>>,
    pub(crate) players: Vec<Player<Tally>>,
}

impl<L: Sectors, D: Sectors> Store<L, D> {
    /// An open store with so many users and its workers, by their numbers: the writer and the flusher, and unless the log runs
    /// alone the closer, the cleaner and the checkpointer. Each user's groups have room for as many bytes as any other's. It
    /// takes all memory but that of the groups; where there is none it gives both devices back as they were.
    pub fn open<T: Threads>(
        rt: &T,
        alloc: Global,
        opened: Opened<L, D>,
        users: u32,
        log_only: bool,
    ) -> Result<(Store<L, D>, Vec<User<L, D>>, Vec<Worker<L, D>>), (NoMemory, L, D)>
        requires runnable { IsRunnable opened }
        requires below { opened.start < LSN_LIMIT }
        requires some { 0 < users }
        requires most { users ≤ MAX_USERS }
        ensures err { IfErr result (λ error. (error.1 ≡ opened.log.dev) × (error.2 ≡ opened.store.dev)) }
        ensures ok { IfOk result (λ made. IsNewlyOpened opened users log_only made.0 made.1.items made.2.items) }
    {
        let shape = opened.shape;
        let count = actor_count(users, log_only);
        let quota = quota_of(&shape, opened.start, log_only, count);
        let Ok(rooms) = take_rooms(alloc, users as usize, count as usize) else {
            let Opened { log, store, .. } = opened;
            return Err((NoMemory, log.into_dev(), store.into_dev()));
        };
        let calls = Calls::open(rt, users);
        let (mut shared, players) = Shared::new_live(alloc, opened, users, quota, log_only)?;
        let seats = shared.seats(players.as_slice());
        let Rooms {
            users: user_room,
            workers: worker_room,
            seats: seat_room,
            players: player_room,
        } = rooms;
        let (all_users, all_workers) = seat_all(
            seats,
            players,
            users as usize,
            user_room,
            worker_room,
        );
        let store = Store {
            shared,
            calls,
            shape,
            log_only,
            quota,
            seats: seat_room,
            players: player_room,
        };
        Ok((store, all_users, all_workers))
    }

    /// The sizes of the store: how many pages it has, and how long these are.
    pub fn shape(&self) -> Shape
        requires { IsOpen self.now }
        ensures shape { result ≡ shape_of self.now }
        ensures limits { IsWithinLimits result }
    {
        self.shape
    }

    /// No user commits any more: each worker comes to its end.
    pub fn end(&self) {
        self.calls.end();
    }
}
