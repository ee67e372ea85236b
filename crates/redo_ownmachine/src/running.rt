// A run by turns, where users write for themselves.
ghost use Rattle.std.specs.Prelude.{Bool, List, Option};
ghost use Rattle.redo_archive.specs.Part.{Part};
ghost use Rattle.redo_drive.specs.{CallOnBoth, RunOf};
ghost use Rattle.redo_drive.specs.declared.actor.Actor.{Actor as TheActor};
ghost use Rattle.redo_ownmachine.specs.OwnCrew.{HasSameSeats, seats_of};
ghost use Rattle.redo_ownmachine.specs.OwnStore.{OwnComesFrom, OwnIsOnRun, OwnRunsWith};
ghost use Rattle.redo_ownmachine.specs.OwnTurns.{OwnRunEndsAs};

use crate::machine::OwnMachine;
use crate::open_users::{open_seat, open_user};
use redo_disk::Sectors;
use redo_drive::RunEnd;
use redo_follow::Receiver;
use redo_machine::seat_of;
use redo_script::Draws;

impl<L: Sectors, D: Sectors, A: Sectors, R: Receiver> OwnMachine<L, D, A, R> {
    /// Gives turns to users and other actors, at most so many, until each user has ended.
    pub fn run(&mut self, seed: u64, max: u64) -> RunEnd
        requires { OwnIsOnRun L.seen D.seen A.seen self.old }
        ensures on_run { OwnIsOnRun L.seen D.seen A.seen self.new }
        ensures from { (run : RunOf L D) (archive : Bool) (starts : List (TheActor R)) (before : Option (Part A))
            → OwnComesFrom L.seen D.seen A.seen A.gives R.stands_for run archive starts before self.old
            → OwnComesFrom L.seen D.seen A.seen A.gives R.stands_for run archive starts before self.new }
        ensures ends { (run : RunOf L D) (archive : Bool) → OwnRunsWith L.seen D.seen run archive self.old.parts (seats_of self.old)
            → OwnRunEndsAs L.seen L.gives D.seen D.gives run seed max self.old.parts (seats_of self.old) result self.new.parts (seats_of self.new) }
        ensures calls { CallOnBoth L.gives D.gives self.old.parts self.new.parts }
        ensures seats { HasSameSeats self.old self.new }
    {
        let seats = self.seats() as u64;
        let mut draws = Draws::new(seed);
        let mut open = 0;
        for turn in 0..max {
            match open_seat(self.users.as_slice(), open) {
                None => return RunEnd::Done,
                Some(found) => open = found,
            }
            let seat = seat_of(&mut draws, turn, max, seats);
            let _ = self.turn(seat as usize);
        }
        match open_user(self.users.as_slice()) {
            None => RunEnd::Done,
            Some((_, user)) => RunEnd::Spent { turns: max, user },
        }
    }
}
