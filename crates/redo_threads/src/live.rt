// The players of a live run, each played by the thread that has it.
ghost use Rattle.std.specs.Prelude.{◌≡◌};
ghost use Rattle.redo_ownrule.specs.Playing.{IsPlayerSeat};
ghost use Rattle.redo_threads.specs.Working.{AtEnd, GoesOn};

use crate::bells::Bells;
use crate::gate::NoGate;
use crate::run::processors;
use crate::work::work_alone;
use redo_disk::Sectors;
use redo_follow::Receiver;
use redo_ownrule::Player;
use redo_rule::{Ring, Seat};
use redo_words::Layout;
use std::sync::Wait;
use std::thread::Threads;

/// Who sleeps in a live run, and how it is woken. All its players are played with the same one.
#[derive(Drop)]
pub struct Calls {
    bells: Bells,
}

impl Calls {
    /// Of a run of so many users, which may go on until it is told to end.
    pub fn open<R: Threads>(rt: &R, users: u32) -> Calls {
        Calls {
            bells: Bells::live(u64::from(users), processors(rt)),
        }
    }

    /// No user goes on any more, so every other player comes to its end.
    pub fn end(&self) {
        self.bells.end();
    }
}

/// Plays a player of a live run until it has come to its end: a user, until its last commit is answered or it has failed; any
/// other, until it has failed or the run was told to end. Then it is at rest.
pub fn play_to_end<R: Wait, L: Sectors, D: Sectors, F: Receiver>(
    rt: &R,
    table: &Ring<L, D>,
    layout: Layout,
    calls: &Calls,
    seat: &mut Seat<L, D>,
    player: &mut Player<F>,
)
    requires layout { seat.old.me.0.layout ≡ layout }
    requires seat { IsPlayerSeat table.now.table_id seat.old player.old }
    ensures goes_on { GoesOn F.stands_for table.now.table_id seat.old player.old seat.new player.new }
    ensures at_end { AtEnd player.new }
{
    work_alone(rt, table, layout, &calls.bells, &NoGate, seat, player);
}
