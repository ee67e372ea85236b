// A store after its run.
ghost use Rattle.std.specs.Prelude.{◌≡◌, ◌≤◌, [], Bool, false, length, slice_index, vec_capacity};
ghost use Rattle.model_core.specs.{index, IsWord, failed_at};
ghost use Rattle.model_running.specs.{history_of, marks_in, word_marks};
ghost use Rattle.redo_drive.specs.{ListsInOrder, views_of, RunOf, AreOnRun, RunsWith};
ghost use Rattle.redo_machine.specs.Reading.{lost_by};

use crate::machine::Machine;
use model_report::Marks;
use redo_archive::ArchPart;
use redo_disk::{DevError, Sectors};
use redo_drive::{Actor, Closed, Parts, history_of};
use redo_follow::Receiver;
use redo_link::tail_of;
use redo_words::{Op, PlainWords, Word, old_of};

/// What stands in a word.
fn word(words: &mut PlainWords, word: Word) -> u64
    requires { IsWord words.old.layout word }
    ensures words { words.new.words ≡ words.old.words }
    ensures layout { words.new.layout ≡ words.old.layout }
    ensures value { result ≡ slice_index words.old.words (index words.old.layout word) }
{
    old_of(words.play(Op::Load(word)))
}

/// The marks of a run.
fn marks_in(words: &mut PlainWords) -> Marks
    ensures words { words.new.words ≡ words.old.words }
    ensures layout { words.new.layout ≡ words.old.layout }
    ensures marks { result ≡ marks_in words.old.words }
{
    Marks {
        wtail: tail_of(word(words, Word::Wtail)),
        write: word(words, Word::Write),
        flushed: word(words, Word::Flushed),
        ckpt: word(words, Word::Ckpt),
    }
}

/// What a call of the archive answered that failed, if there is one.
fn lost_by<A: Sectors>(archive: &Option<ArchPart<A>>) -> Option<DevError>
    ensures { result ≡ lost_by archive.now }
{
    match archive {
        Some(part) => part.failed(),
        None => None,
    }
}

impl<L: Sectors, D: Sectors, A: Sectors, R: Receiver> Machine<L, D, A, R> {
    /// What the run leaves: its history, its marks, both parts, the code in FAILED, and what an append has met; its actors, the
    /// followers among them; and the archive.
    pub fn finish(self) -> (Closed<L, D>, Vec<Actor<R>>, Option<ArchPart<A>>)
        requires { AreOnRun L.seen D.seen self.parts (views_of self.actors.items) }
        ensures parts { (result.0.log ≡ self.parts.log) × (result.0.store ≡ self.parts.store) }
        ensures kept { (result.1.items ≡ self.actors.items) × (result.2 ≡ self.archive) × (result.0.lost ≡ lost_by self.archive) }
        ensures code { result.0.code ≡ slice_index self.parts.words.words failed_at }
        ensures marks { result.0.marks ≡ marks_in self.parts.words.words }
        ensures history { (run : RunOf L D) (archive : Bool) (runs : RunsWith L.seen D.seen run archive self.parts (views_of self.actors.items))
            → run.live ≡ false → self.entries.items ≡ [] → length runs.running.log_ghost.log ≤ vec_capacity self.entries
            → result.0.history ≡ history_of runs.running.log_ghost.answered (word_marks runs.running.shared) runs.running.log_ghost.log }
        ensures listed { (run : RunOf L D) (archive : Bool) (runs : RunsWith L.seen D.seen run archive self.parts (views_of self.actors.items))
            → run.live ≡ false → self.entries.items ≡ [] → length runs.running.log_ghost.log ≤ vec_capacity self.entries
            → ListsInOrder result.0.marks (views_of self.actors.items) result.0.history }
    {
        let Machine {
            parts,
            actors,
            entries,
            archive,
        } = self;
        let Parts {
            mut words,
            log,
            store,
            ..
        } = parts;
        let marks = marks_in(&mut words);
        let code = word(&mut words, Word::Failed) as u32;
        let history = history_of(entries, actors.as_slice(), &marks);
        let closed = Closed {
            history,
            marks,
            log,
            store,
            code,
            lost: lost_by(&archive),
        };
        (closed, actors, archive)
    }
}
