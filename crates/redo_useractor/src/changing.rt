// What a user makes of the answers while it changes the pages of its group.
ghost use Rattle.std.specs.Prelude.{◌≡◌, ◌<◌, ◌≤◌, ◌+◌, ◌==◌, false, length};
ghost use Rattle.model_core.specs.{change_at, changes, group_end, to_next_page, user_took};
ghost use Rattle.redo_useractor.specs.CellsStep.{cells_step};
ghost use Rattle.redo_useractor.specs.Ending.{step_end};
ghost use Rattle.redo_useractor.specs.Places.{cells_before, IsNextCell};
ghost use Rattle.redo_useractor.specs.UserView.{end_limit};
ghost use Rattle.redo_useractor.specs.Written.{words_end};

use crate::actor::UserActor;
use crate::line::Place;
use model_core::UserStep;
use redo_words::Step;

impl UserActor {
    /// The first word of a page's frame that the group in hand changes, from this word on.
    fn place_from(&mut self, page: usize, word: usize) -> Place
        requires line { self.old.k < length self.old.lines }
        requires page { page < length (changes self.old) }
        requires word { word ≤ words_end }
        ensures same { self.new ≡ self.old }
        ensures place { IsNextCell (change_at (changes self.old) page).cells result.word result.count (cells_before word (change_at (changes self.old) page).cells) }
    {
        self.book.place_from(page, word)
    }

    /// It goes on at this place of a page, after so many of the changed cells there.
    fn comes_to(&mut self, page: usize, cell: usize, at: Place)
        requires line { self.old.k < length self.old.lines }
        requires one { length self.old.starts ≡ self.old.k + 1 }
        requires small { group_end self.old < end_limit }
        requires page { page < length (changes self.old) }
        requires place { IsNextCell (change_at (changes self.old) page).cells at.word at.count cell }
        ensures { self.new ≡ record self.old { page = page; cell = cell; step = cells_step (change_at (changes self.old) page).cells cell } }
    {
        self.page = page;
        self.cell = cell;
        self.at = at;
        self.step = at.step();
    }

    /// It goes on at the first changed cell of a page.
    pub(crate) fn to_cells(&mut self, page: usize, cell: usize)
        requires line { self.old.k < length self.old.lines }
        requires one { length self.old.starts ≡ self.old.k + 1 }
        requires small { group_end self.old < end_limit }
        requires page { page < length (changes self.old) }
        requires first { cell ≡ 0 }
        ensures { self.new ≡ record self.old { page = page; cell = cell; step = cells_step (change_at (changes self.old) page).cells cell } }
    {
        let at = self.place_from(page, 0);
        self.comes_to(page, cell, at);
    }

    /// The word of the changed cells that it is at is loaded.
    pub(crate) fn loaded_frame(&mut self, n: u64) -> Step
        requires step { self.old.step ≡ UserStep.LoadFrame }
        ensures state { self.new ≡ user_took self.old n UserStep.LoadFrame }
        ensures step { result ≡ step_end self.old n UserStep.LoadFrame self.new }
    {
        self.word = n;
        self.step = UserStep::StoreFrame;
        Step::Moved
    }

    /// That word is stored.
    pub(crate) fn stored_frame(&mut self, n: u64) -> Step
        requires step { self.old.step ≡ UserStep.StoreFrame }
        ensures state { self.new ≡ user_took self.old n UserStep.StoreFrame }
        ensures step { result ≡ step_end self.old n UserStep.StoreFrame self.new }
    {
        let page = self.page;
        let next = self.cell + self.at.count;
        let word = self.at.word + 1;
        let at = self.place_from(page, word);
        self.word = 0;
        self.comes_to(page, next, at);
        Step::Moved
    }

    /// It has added its page to the flush list, or that is held.
    pub(crate) fn added(&mut self, n: u64) -> Step
        requires step { self.old.step ≡ UserStep.AddToList }
        requires checks { self.old.checks ≡ false }
        ensures state { self.new ≡ user_took self.old n UserStep.AddToList }
        ensures step { result ≡ step_end self.old n UserStep.AddToList self.new }
    {
        if n != 0 {
            return self.waits();
        }
        self.step = UserStep::StoreOldest;
        Step::Moved
    }

    /// It is done with the page that it is at.
    pub(crate) fn to_next_page(&mut self) -> Step
        requires line { self.old.k < length self.old.lines }
        requires one { length self.old.starts ≡ self.old.k + 1 }
        requires small { group_end self.old < end_limit }
        requires page { self.old.page < length (changes self.old) }
        ensures state { self.new ≡ to_next_page self.old }
        ensures step { result ≡ Step.Moved }
    {
        let pages = self.line().page_count();
        let next = self.page + 1;
        if next == pages {
            self.page = next;
            self.cell = 0;
            self.step = UserStep::StoreClosedLink;
            return Step::Moved;
        }
        self.to_cells(next, 0);
        Step::Moved
    }

    /// The latch of a page is released.
    pub(crate) fn released(&mut self, n: u64) -> Step
        requires step { self.old.step ≡ UserStep.ReleaseLatch }
        ensures state { self.new ≡ user_took self.old n UserStep.ReleaseLatch }
        ensures step { result ≡ step_end self.old n UserStep.ReleaseLatch self.new }
    {
        let pages = self.line().page_count();
        if self.page + 1 == pages {
            return self.linked();
        }
        self.page += 1;
        Step::Moved
    }
}
