// The lines of a user, those among them that it has done, and where their groups start.
ghost use Rattle.std.specs.Prelude.{[], ◌≡◌, ◌<◌, ◌≤◌, ◌+◌, ◌-◌, ◌==◌, ◌++◌, ◌∷◌, IfErr, IfOk, length, slice_index, true};
ghost use Rattle.model_base.specs.{IsWithinLimits};
ghost use Rattle.model_core.specs.{change_at, line_at, line_of};
ghost use Rattle.redo_useractor.specs.Books.{new_book};
ghost use Rattle.redo_useractor.specs.Lines.{IsUserLine};
ghost use Rattle.redo_useractor.specs.Places.{cells_before, IsNextCell};
ghost use Rattle.redo_useractor.specs.Written.{words_end};

use crate::line::{Place, UserLine};
use crate::making::line_of;
use crate::past::Past;
use model_base::Shape;
use model_log::Group;
use redo_lsn::NoMemory;
use std::alloc::Global;
use std::marker::Model;

/// Contracts see all lines and starts. A book that doesn't keep all has forgotten the lines that were done when it took the last
/// one, and where their groups start: it holds one line and one start at most.
#[derive(Drop)]
pub(crate) struct Book {
    keeps: bool,
    past_lines: Past<UserLine>,
    past_starts: Past<u64>,
    lines: Vec<UserLine>,
    starts: Vec<u64>,
    // how many of those lines are done
    k: usize,
}

impl Model for Book {
    ghost use Rattle.redo_useractor.specs.Books.{BookState};
    ghost use Rattle.redo_useractor.specs.BookView.{book_view, IsBook};

    ghost Value = { BookState };

    ghost view = { book_view };

    ghost invariant = { IsBook };
}

impl Book {
    /// These lines, with room for the start of each one's group. Where there is none the book keeps none that it may get.
    pub(crate) fn new(alloc: Global, lines: Vec<UserLine>) -> Result<Book, NoMemory>
        ensures { IfOk result (λ book. book ≡ new_book lines.items) }
    {
        let starts = Vec::with_capacity(alloc, lines.len())?;
        let keeps = !lines.is_empty();
        Ok(Book {
            keeps,
            past_lines: Past::new(),
            past_starts: Past::new(),
            lines,
            starts,
            k: 0,
        })
    }

    /// The first line that isn't done.
    pub(crate) fn line(&self) -> &UserLine
        requires { self.now.k < length self.now.lines }
        ensures { result.now ≡ line_at self.now.lines self.now.k }
    {
        &self.lines[self.k]
    }

    /// The first word of a page's frame that its group changes, from this word on.
    pub(crate) fn place_from(&mut self, page: usize, word: usize) -> Place
        requires line { self.old.k < length self.old.lines }
        requires page { page < length (line_at self.old.lines self.old.k).changes }
        requires word { word ≤ words_end }
        ensures same { self.new ≡ self.old }
        ensures place { IsNextCell (change_at (line_at self.old.lines self.old.k).changes page).cells result.word result.count (cells_before word (change_at (line_at self.old.lines self.old.k).changes page).cells) }
    {
        self.lines[self.k].place_from(page, word)
    }

    /// Its group starts here.
    pub(crate) fn start(&mut self, at: u64)
        requires line { self.old.k < length self.old.lines }
        requires none { length self.old.starts ≡ self.old.k }
        ensures { self.new ≡ record self.old { starts = self.old.starts ++ at ∷ [] } }
    {
        self.starts.push_reserved(at);
    }

    /// It is done: whether it was the last.
    pub(crate) fn pass(&mut self) -> bool
        requires { self.old.k < length self.old.lines }
        ensures state { self.new ≡ record self.old { k = self.old.k + 1 } }
        ensures last { result ≡ (self.old.k + 1 == length self.old.lines) }
    {
        self.k += 1;
        self.k == self.lines.len()
    }

    /// Takes one line more, where all are done. Where there is no room for it the book is as it was, and the group comes back.
    pub(crate) fn take_line(
        &mut self,
        alloc: Global,
        mode: u32,
        group: Group,
        shape: &Shape,
        log_only: bool,
    ) -> Result<(), (NoMemory, Group)>
        requires limits { IsWithinLimits shape.now }
        requires line { IsUserLine shape.now (mode, group) }
        requires all { self.old.k ≡ length self.old.lines }
        requires none { length self.old.starts ≡ self.old.k }
        ensures ok { IfOk result (λ _. self.new ≡ record self.old { lines = self.old.lines ++ line_of log_only shape.now mode group ∷ [] }) }
        ensures err { IfErr result (λ back. (self.new ≡ self.old) × (back.1 ≡ group)) }
    {
        match self.lines.reserve(1) {
            Ok(()) => {}
            Err(_) => return Err((NoMemory, group)),
        }
        match self.starts.reserve(1) {
            Ok(()) => {}
            Err(_) => return Err((NoMemory, group)),
        }
        let line = line_of(alloc, shape, log_only, mode, group)?;
        if self.keeps {
            self.lines.push_reserved(line);
            return Ok(());
        }
        self.past_lines = self.past_lines.with(&self.lines);
        self.past_starts = self.past_starts.with(&self.starts);
        self.lines.clear();
        self.starts.clear();
        self.k = 0;
        self.lines.push_reserved(line);
        Ok(())
    }

    /// Whether it keeps all lines.
    pub(crate) fn keeps_all(&self) -> bool
        ensures { result ≡ self.now.keeps }
    {
        self.keeps
    }

    /// How many lines are done.
    pub(crate) fn done_count(&self) -> usize
        requires { self.now.keeps ≡ true }
        ensures { result ≡ self.now.k }
    {
        self.k
    }

    /// How many groups have started.
    pub(crate) fn group_count(&self) -> usize
        requires { self.now.keeps ≡ true }
        ensures { result ≡ length self.now.starts }
    {
        self.starts.len()
    }

    /// Where one of them starts.
    pub(crate) fn group_start(&self, group: usize) -> u64
        requires keeps { self.now.keeps ≡ true }
        requires group { group < length self.now.starts }
        ensures { result ≡ slice_index self.now.starts group }
    {
        self.starts[group]
    }

    /// How many bytes the group of one of the lines has.
    pub(crate) fn group_length(&self, line: usize) -> usize
        requires keeps { self.now.keeps ≡ true }
        requires line { line < length self.now.lines }
        ensures { result ≡ length (line_at self.now.lines line).bytes }
    {
        self.lines[line].text.len()
    }

    /// Where the last group starts, and how many bytes it has, once all lines are done.
    pub(crate) fn last_group(&self) -> (u64, usize)
        requires all { self.now.k ≡ length self.now.lines }
        requires none { length self.now.starts ≡ self.now.k }
        requires some { 0 < length self.now.starts }
        ensures start { result.0 ≡ slice_index self.now.starts (length self.now.starts - 1) }
        ensures length { result.1 ≡ length (line_at self.now.lines (length self.now.starts - 1)).bytes }
    {
        let last = self.starts.len() - 1;
        (self.starts[last], self.lines[last].text.len())
    }
}
