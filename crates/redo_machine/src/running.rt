// A run by turns.
ghost use Rattle.std.specs.Prelude.{◌≡◌, ◌<◌, ◌+◌, Bool, List, Option, ℕ};
ghost use Rattle.model_running.specs.{seat_of_turn};
ghost use Rattle.redo_drive.specs.{CallOnBoth, RunOf, RunsWith, views_of};
ghost use Rattle.redo_archive.specs.Part.{Part};
ghost use Rattle.redo_drive.specs.declared.actor.Actor.{Actor as TheActor};
ghost use Rattle.redo_machine.specs.Reading.{ComesFrom, IsOnRun};
ghost use Rattle.redo_machine.specs.Turns.{RunEndsAs, IsDrawn};

use crate::machine::Machine;
use crate::open_users::{open_seat, open_user};
use redo_disk::Sectors;
use redo_drive::RunEnd;
use redo_follow::Receiver;
use redo_script::Draws;

/// The seat of a turn: as the seed draws in the first half of the turns, then one after another.
pub fn seat_of(draws: &mut Draws, turn: u64, max: u64, seats: u64) -> u64
    requires { 0 < seats }
    ensures below { result < seats }
    ensures seat { (seed : ℕ) → IsDrawn seed turn max draws.old → result ≡ seat_of_turn seed max seats turn }
    ensures drawn { (seed : ℕ) → IsDrawn seed turn max draws.old → IsDrawn seed (turn + 1) max draws.new }
{
    if turn < max / 2 {
        u64::from(draws.take()) % seats
    } else {
        turn % seats
    }
}

impl<L: Sectors, D: Sectors, A: Sectors, R: Receiver> Machine<L, D, A, R> {
    /// Gives turns to the actors, at most so many, until each user has ended.
    pub fn run(&mut self, seed: u64, max: u64) -> RunEnd
        requires { IsOnRun L.seen D.seen A.seen self.old }
        ensures on_run { IsOnRun L.seen D.seen A.seen self.new }
        ensures from { (run : RunOf L D) (archive : Bool) (starts : List (TheActor R)) (before : Option (Part A))
            → ComesFrom L.seen D.seen A.seen A.gives R.stands_for run archive starts before self.old
            → ComesFrom L.seen D.seen A.seen A.gives R.stands_for run archive starts before self.new }
        ensures ends { (run : RunOf L D) (archive : Bool) → RunsWith L.seen D.seen run archive self.old.parts (views_of self.old.actors.items)
            → RunEndsAs L.seen L.gives D.seen D.gives run seed max self.old.parts (views_of self.old.actors.items) result self.new.parts (views_of self.new.actors.items) }
        ensures calls { CallOnBoth L.gives D.gives self.old.parts self.new.parts }
        ensures entries { self.new.entries ≡ self.old.entries }
    {
        let seats = self.seats() as u64;
        let mut draws = Draws::new(seed);
        let mut open = 0;
        for turn in 0..max {
            match open_seat(self.actors.as_slice(), open) {
                None => return RunEnd::Done,
                Some(found) => open = found,
            }
            let seat = seat_of(&mut draws, turn, max, seats);
            let _ = self.turn(seat as usize);
        }
        match open_user(self.actors.as_slice()) {
            None => RunEnd::Done,
            Some((_, user)) => RunEnd::Spent { turns: max, user },
        }
    }
}
