// A worker of a live store.
ghost use Rattle.redo_live.specs.Holding.{IsSameWorker, IsWorkerOf};
ghost use Rattle.redo_threads.specs.Working.{AtEnd};

use crate::store::Store;
use redo_disk::Sectors;
use redo_follow::Tally;
use redo_ownrule::Player;
use redo_rule::Seat;
use redo_threads::play_to_end;
use std::sync::Wait;

/// The writer of a live store, its flusher, its closer, its cleaner or its checkpointer. It may go to another thread. The store
/// takes it back as it is closed: one whose worker was dropped can't be closed.
#[derive(Drop)]
pub struct Worker<L: Sectors, D: Sectors> {
    pub(crate) seat: Seat<L, D>,
    pub(crate) player: Player<Tally>,
}

impl<L: Sectors, D: Sectors> Worker<L, D> {
    /// Works until the store's `end` is called, or the run has failed.
    pub fn run<T: Wait>(&mut self, store: &Store<L, D>, rt: &T)
        requires { IsWorkerOf store.now self.old }
        ensures mine { IsWorkerOf store.now self.new }
        ensures same { IsSameWorker self.old self.new }
        ensures at_end { AtEnd self.new.player }
    {
        let layout = store.shared.layout();
        play_to_end(
            rt,
            store.shared.ring(),
            layout,
            &store.calls,
            &mut self.seat,
            &mut self.player,
        );
    }
}
