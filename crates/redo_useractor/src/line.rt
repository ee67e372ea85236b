// The lines of a user, as its actor holds them.
ghost use Rattle.std.specs.Prelude.{ℕ, ◌≡◌, ◌≤◌, ◌<◌, ◌+◌, List, length};
ghost use Rattle.model_core.specs.{CellWrite, change_at, lanes, packed, put_lanes};
ghost use Rattle.redo_useractor.specs.CellsStep.{cells_step};
ghost use Rattle.redo_useractor.specs.Places.{cells_before, cells_in, IsNextCell, word_at};
ghost use Rattle.redo_useractor.specs.Written.{words_end};

use crate::runs::{Run, bytes_in, run_from};
use crate::words::{count_in, with_written};
use crate::written::{WORDS_END, next_word};
use model_base::{Bytes, Shape};
use model_core::{UserStep, WORD_LANES};
use model_log::Group;
use redo_words::{Word, packed};
use std::marker::Model;

/// A word of a frame, and how many of its cells a group changes; after the last word that it changes the end.
#[derive(Clone, Copy, Debug)]
pub struct Place {
    pub(crate) word: usize,
    pub(crate) count: usize,
}

impl Place {
    /// What a user that has come here does: it stores the word at once where all its lanes change, else it loads it first; past
    /// the last word it goes on with NEWEST.
    pub(crate) fn step(self) -> UserStep
        ensures { (cells : List CellWrite) (number : ℕ) → IsNextCell cells self.word self.count number → result ≡ cells_step cells number }
    {
        if self.word == WORDS_END {
            UserStep::StoreNewest
        } else if self.count < WORD_LANES as usize {
            UserStep::LoadFrame
        } else {
            UserStep::StoreFrame
        }
    }
}

/// A line of a user of a store: what it waits for, its group and the text of that, and the pages that the group is on,
/// ascending. What it changes there isn't held cell by cell: the records say it. Where it looked last, it has the words that one
/// record covers, its run.
#[derive(Debug, Drop)]
pub struct UserLine {
    pub(crate) shape: Shape,
    pub(crate) mode: u32,
    pub(crate) text: Bytes,
    pub(crate) group: Group,
    pub(crate) pages: Vec<u32>,
    pub(crate) run: Run,
}

impl Model for UserLine {
    ghost use Rattle.std.specs.List.{AllByRecursion};
    ghost use Rattle.model_base.specs.{IsWholeSectors, user_length};
    ghost use Rattle.model_core.specs.{Line};
    ghost use Rattle.redo_apply.specs.{WritesWithin};
    ghost use Rattle.redo_useractor.specs.Places.{changes_on};
    ghost use Rattle.redo_useractor.specs.Runs.{IsRun};

    ghost Value = { Line };

    ghost view = { λ line. record { mode = line.mode; bytes = line.text; changes = changes_on line.shape line.group line.pages.items } };

    ghost invariant = { λ line. IsWholeSectors line.shape.page_size × AllByRecursion (WritesWithin (user_length line.shape)) line.group
        × IsRun (user_length line.shape) line.run.page line.group line.run.rec line.run.first line.run.end };
}

impl UserLine {
    /// How many pages its group is on.
    pub(crate) fn page_count(&self) -> usize
        ensures { result ≡ length self.now.changes }
    {
        self.pages.len()
    }

    /// The number of one of them.
    pub(crate) fn page_number(&self, page: usize) -> u32
        requires { page < length self.now.changes }
        ensures { result ≡ (change_at self.now.changes page).page }
    {
        self.pages[page]
    }

    /// The first word of that page's frame that its group changes, from this word on, found among all records.
    fn search(&self, page: usize, word: usize) -> Place
        requires page { page < length self.now.changes }
        requires word { word ≤ words_end }
        ensures { IsNextCell (change_at self.now.changes page).cells result.word result.count (cells_before word (change_at self.now.changes page).cells) }
    {
        let recs = self.group.0.as_slice();
        let number = self.pages[page];
        let user_bytes = self.shape.user_bytes() as usize;
        let word = next_word(user_bytes, recs, number, word, WORDS_END);
        let count = if word < WORDS_END {
            count_in(user_bytes, recs, number, word)
        } else {
            0
        };
        Place { word, count }
    }

    /// The same. It searches only where the run in hand ends.
    pub(crate) fn place_from(&mut self, page: usize, word: usize) -> Place
        requires page { page < length self.old.changes }
        requires word { word ≤ words_end }
        ensures same { self.new ≡ self.old }
        ensures place { IsNextCell (change_at self.old.changes page).cells result.word result.count (cells_before word (change_at self.old.changes page).cells) }
    {
        let number = self.pages[page];
        if self.run.has(number, word) {
            return Place {
                word,
                count: WORD_LANES as usize,
            };
        }
        let at = self.search(page, word);
        let user_bytes = self.shape.user_bytes() as usize;
        self.run = run_from(user_bytes, self.group.0.as_slice(), number, at.word);
        at
    }

    /// The name of the word of that page's frame in which the next changed cell lies.
    #[tactic(auto, using(crate::proofs::Places::next_in_word))]
    pub(crate) fn frame(&self, page: usize, at: Place) -> Word
        requires page { page < length self.now.changes }
        requires word { at.word < words_end }
        ensures { (number : ℕ) → IsNextCell (change_at self.now.changes page).cells at.word at.count number
            → result ≡ Word.Frame (change_at self.now.changes page).page (word_at (change_at self.now.changes page).cells number) }
    {
        Word::Frame(self.pages[page], at.word as u32)
    }

    /// That word with the next changed cells in their lanes.
    pub(crate) fn with_cells(&self, page: usize, at: Place, old: u64) -> u64
        requires page { page < length self.now.changes }
        requires word { at.word < words_end }
        ensures { (number : ℕ) → IsNextCell (change_at self.now.changes page).cells at.word at.count number
            → result ≡ packed 0 (put_lanes (cells_in (word_at (change_at self.now.changes page).cells number) number (change_at self.now.changes page).cells) (lanes 0 WORD_LANES old)) }
    {
        let user_bytes = self.shape.user_bytes() as usize;
        let recs = self.group.0.as_slice();
        let number = self.pages[page];
        if self.run.has(number, at.word) {
            if let Some(bytes) = bytes_in(user_bytes, &recs[self.run.rec], at.word) {
                return packed(0, bytes);
            }
        }
        with_written(user_bytes, recs, number, at.word, old)
    }
}
