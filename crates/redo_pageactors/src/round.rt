// What the cleaner makes of the answers.
ghost use Rattle.std.specs.Prelude.{◌≡◌, ◌<◌, ◌^◌, ◌==◌, ◌+◌, ◌++◌, ◌∷◌, [], if◌then◌else◌, length, true};
ghost use Rattle.model_core.specs.States as actor;
ghost use Rattle.model_core.specs.{AnswerFits, after_of, checked_of, cleaner_program, cleaner_took, finds_none, has_taken, next_in_round, old_of, step_of};

use crate::batch::{RIM, drop_bytes, drop_page, split_page};
use crate::cleaner::Cleaner;
use model_core::{CleanerStep, WORD_LANES};
use redo_words::{Answer, Step, code_of, old_of, push_lanes};

impl Cleaner {
    /// What it makes of FAILED.
    fn checked(&mut self, n: u64) -> Step
        requires { n < 2 ^ 32 }
        ensures state { self.new ≡ checked_of cleaner_program self.old n }
        ensures step { result ≡ (if n == 0 then Step.Moved else Step.Failed n) }
    {
        self.checks = false;
        if n == 0 {
            return Step::Moved;
        }
        self.code = n as u32;
        self.step = CleanerStep::Failed;
        Step::Failed(self.code)
    }

    /// Whether its round is over with the page that it is at.
    #[tactic(auto, using(crate::proofs::BatchPages::length_batch_pages))]
    fn is_over(&self) -> bool
        ensures { result ≡ (if self.now.left == 1 then true else length self.now.batch == self.now.slots) }
    {
        self.left == 1 || self.batch.len() as u64 == u64::from(self.slots)
    }

    /// The page after the one that it is at.
    fn next_page(&self) -> u32
        ensures value { result ≡ (if self.now.page + 1 == self.now.pages then 0 else self.now.page + 1) }
        ensures below { result < self.now.pages }
    {
        let (page, pages) = (self.page, self.pages);
        if page + 1 == pages { 0 } else { page + 1 }
    }

    /// It goes on to the next page, or its round is over.
    #[tactic(auto, using(crate::proofs::BatchPages::length_batch_pages))]
    fn next_in_round(&mut self) -> Step
        ensures state { self.new ≡ next_in_round self.old }
        ensures step { result ≡ (if finds_none self.old then Step.Idle else Step.Moved) }
    {
        let is_over = self.is_over();
        self.page = self.next_page();
        self.left = self.left.saturating_sub(1);
        self.kept.clear();
        if !is_over {
            self.step = CleanerStep::LoadOldest;
            return Step::Moved;
        }
        if self.batch.is_empty() {
            self.checks = true;
            self.step = CleanerStep::LoadFlushed;
            return Step::Idle;
        }
        self.step = CleanerStep::WriteBatch;
        Step::Moved
    }

    /// The page whose bytes are all loaded enters the batch.
    #[tactic(auto, using(crate::proofs::BatchPages::batch_pages_enter, crate::proofs::BatchPages::length_batch_pages, crate::proofs::BatchPages::one_more))]
    fn enters_batch(&mut self)
        requires loaded { length self.old.kept ≡ self.old.page_size }
        requires room { length self.old.batch < self.old.slots }
        requires step { self.old.step ≡ CleanerStep.LoadFlushed }
        ensures { self.new ≡ record self.old {
          batch = self.old.batch ++ (record { page = self.old.page; lsn = self.old.newest; bytes = self.old.kept }) ∷ [];
          kept = [];
        } }
    {
        self.batch.push_reserved((self.page, self.newest));
        split_page(&self.kept, &mut self.users, &mut self.rims);
        self.kept.clear();
    }

    /// Its next byte was loaded. Once all are, the page enters the batch.
    #[tactic(auto, using(crate::proofs::BatchPages::length_batch_pages))]
    fn loaded_word(&mut self, answer: Answer) -> Step
        requires step { self.old.step ≡ CleanerStep.LoadFrame }
        ensures state { self.new ≡ cleaner_took self.old answer CleanerStep.LoadFrame }
        ensures step { result ≡ Step.Moved }
    {
        let loaded = self.kept.len() as u64 + WORD_LANES;
        if loaded < u64::from(self.page_size) {
            push_lanes(&mut self.kept, old_of(answer), 0, WORD_LANES as usize);
            return Step::Moved;
        }
        self.step = CleanerStep::LoadFlushed;
        push_lanes(&mut self.kept, old_of(answer), 0, WORD_LANES as usize);
        self.enters_batch();
        let _ = self.next_in_round();
        Step::Moved
    }

    /// Its newest group's end was loaded: whether that is flushed.
    fn loaded_newest(&mut self, answer: Answer) -> Step
        requires step { self.old.step ≡ CleanerStep.LoadNewest }
        ensures state { self.new ≡ cleaner_took self.old answer CleanerStep.LoadNewest }
        ensures step { result ≡ Step.Moved }
    {
        let newest = old_of(answer);
        if self.flushed < newest {
            self.step = CleanerStep::ReleaseSkipped;
            return Step::Moved;
        }
        self.newest = newest;
        self.kept.clear();
        self.step = CleanerStep::LoadFrame;
        Step::Moved
    }

    /// The batch was written, or that has failed.
    fn called(&mut self, answer: Answer) -> Step
        requires step { self.old.step ≡ CleanerStep.WriteBatch }
        ensures state { self.new ≡ cleaner_took self.old answer CleanerStep.WriteBatch }
        ensures step { result ≡ Step.Moved }
    {
        self.code = code_of(answer);
        self.step = match answer {
            Answer::Failed(_) => CleanerStep::StoreFailed,
            _ => CleanerStep::RemoveFromList,
        };
        Step::Moved
    }

    /// The batch's first page was taken out of its flush list, or that is held.
    fn removed(&mut self, answer: Answer) -> Step
        requires step { self.old.step ≡ CleanerStep.RemoveFromList }
        ensures state { self.new ≡ cleaner_took self.old answer CleanerStep.RemoveFromList }
        ensures step { result ≡ (if has_taken answer then Step.Moved else Step.Idle) }
    {
        match answer {
            Answer::Taken(_) => {
                self.step = CleanerStep::ClearOldest;
                Step::Moved
            }
            _ => {
                self.checks = true;
                Step::Idle
            }
        }
    }

    /// The latch of the batch's first page was released: it leaves the batch.
    #[tactic(auto, using(crate::proofs::BatchPages::drop_batch_pages, crate::proofs::BatchPages::length_batch_pages, crate::proofs::BatchPages::some_first))]
    fn released(&mut self, answer: Answer) -> Step
        requires step { self.old.step ≡ CleanerStep.ReleaseLatch }
        ensures state { self.new ≡ cleaner_took self.old answer CleanerStep.ReleaseLatch }
        ensures step { result ≡ Step.Moved }
    {
        let is_last = self.batch.len() == 1;
        drop_page(&mut self.batch);
        drop_bytes(&mut self.users, self.page_size as usize - RIM);
        drop_bytes(&mut self.rims, RIM);
        if is_last {
            self.step = CleanerStep::LoadFlushed;
            return Step::Moved;
        }
        self.step = CleanerStep::RemoveFromList;
        Step::Moved
    }

    /// A round begins.
    fn begins_round(&mut self, answer: Answer) -> Step
        requires step { self.old.step ≡ CleanerStep.LoadFlushed }
        ensures state { self.new ≡ cleaner_took self.old answer CleanerStep.LoadFlushed }
        ensures step { result ≡ Step.Moved }
    {
        self.flushed = old_of(answer);
        self.left = self.pages;
        self.batch.clear();
        self.users.clear();
        self.rims.clear();
        self.step = CleanerStep::LoadOldest;
        Step::Moved
    }

    /// Takes the answer to the Op that it asked for.
    pub fn took(&mut self, answer: Answer) -> Step
        requires { AnswerFits (actor.Cleaner self.old) answer }
        ensures state { self.new ≡ after_of cleaner_program self.old answer }
        ensures step { result ≡ step_of (actor.Cleaner self.old) answer }
    {
        let n = old_of(answer);
        if self.checks {
            return self.checked(n);
        }
        match self.step {
            CleanerStep::LoadFlushed => return self.begins_round(answer),
            CleanerStep::LoadOldest if n == 0 => return self.next_in_round(),
            CleanerStep::LoadOldest => self.step = CleanerStep::TakeLatch,
            CleanerStep::TakeLatch if n == 0 => self.step = CleanerStep::LoadNewest,
            CleanerStep::TakeLatch | CleanerStep::ReleaseSkipped => return self.next_in_round(),
            CleanerStep::LoadNewest => return self.loaded_newest(answer),
            CleanerStep::LoadFrame => return self.loaded_word(answer),
            CleanerStep::WriteBatch => return self.called(answer),
            CleanerStep::RemoveFromList => return self.removed(answer),
            CleanerStep::ClearOldest => self.step = CleanerStep::GiveList,
            CleanerStep::GiveList => self.step = CleanerStep::ReleaseLatch,
            CleanerStep::ReleaseLatch => return self.released(answer),
            CleanerStep::StoreFailed | CleanerStep::Failed => {
                self.step = CleanerStep::Failed;
                return Step::Failed(self.code);
            }
        }
        Step::Moved
    }
}
