// A store after its run, where users wrote for themselves.
ghost use Rattle.std.specs.Prelude.{◌≡◌, ◌≤◌, [], Bool, false, length, slice_index, vec_capacity};
ghost use Rattle.model_core.specs.{failed_at};
ghost use Rattle.model_running.specs.{history_of, marks_in, word_marks};
ghost use Rattle.redo_drive.specs.{ListsInOrder, views_of, RunOf, RunsWith};
ghost use Rattle.redo_machine.specs.Reading.{lost_by};
ghost use Rattle.redo_ownmachine.specs.OwnCrew.{HasRoom, crew_of};
ghost use Rattle.redo_ownmachine.specs.OwnStore.{OwnIsOnRun};

use crate::machine::OwnMachine;
use crate::seats::give_seats;
use redo_archive::ArchPart;
use redo_disk::Sectors;
use redo_drive::{Actor, Closed};
use redo_follow::Receiver;
use redo_machine::Machine;

impl<L: Sectors, D: Sectors, A: Sectors, R: Receiver + Drop> OwnMachine<L, D, A, R> {
    /// What the run leaves, as `Machine::finish`: its actors are the users, the writer and the flusher as far as the users have
    /// brought them, and the others, the followers among them.
    pub fn finish(self) -> (Closed<L, D>, Vec<Actor<R>>, Option<ArchPart<A>>)
        requires on_run { OwnIsOnRun L.seen D.seen A.seen self }
        requires room { HasRoom self }
        ensures parts { (result.0.log ≡ self.parts.log) × (result.0.store ≡ self.parts.store) }
        ensures kept { (result.1.items ≡ crew_of self) × (result.2 ≡ self.archive) × (result.0.lost ≡ lost_by self.archive) }
        ensures code { result.0.code ≡ slice_index self.parts.words.words failed_at }
        ensures marks { result.0.marks ≡ marks_in self.parts.words.words }
        ensures history { (run : RunOf L D) (archive : Bool) (runs : RunsWith L.seen D.seen run archive self.parts (views_of (crew_of self)))
            → run.live ≡ false → self.entries.items ≡ [] → length runs.running.log_ghost.log ≤ vec_capacity self.entries
            → result.0.history ≡ history_of runs.running.log_ghost.answered (word_marks runs.running.shared) runs.running.log_ghost.log }
        ensures listed { (run : RunOf L D) (archive : Bool) (runs : RunsWith L.seen D.seen run archive self.parts (views_of (crew_of self)))
            → run.live ≡ false → self.entries.items ≡ [] → length runs.running.log_ghost.log ≤ vec_capacity self.entries
            → ListsInOrder result.0.marks (views_of (crew_of self)) result.0.history }
    {
        let OwnMachine {
            parts,
            work,
            users,
            others,
            entries,
            room,
            archive,
        } = self;
        let actors = give_seats(room, users, work, others);
        let machine = Machine {
            parts,
            actors,
            entries,
            archive,
        };
        machine.finish()
    }
}
