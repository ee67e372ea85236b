// What the cleaner asks for.
ghost use Rattle.std.specs.Prelude.{◌≡◌, ◌<◌, length};
ghost use Rattle.model_core.specs.States as actor;
ghost use Rattle.model_core.specs.{first_of_batch, frame_words, lent, next};
ghost use Rattle.redo_words.specs.{Lends};

use crate::cleaner::Cleaner;
use model_core::{CleanerStep, FLUSH_LISTS, WORD_LANES};
use redo_words::{Lent, Op, Word};

impl Cleaner {
    /// The batch's first page.
    #[tactic(auto, using(crate::proofs::BatchPages::first_page, crate::proofs::BatchPages::length_batch_pages))]
    fn first_page(&self) -> u32
        requires { 0 < length self.now.batch }
        ensures { result ≡ first_of_batch self.now }
    {
        let pair = &self.batch[0];
        pair.0
    }

    /// How many words the frame of a page has.
    pub fn frame_words(&self) -> u64
        ensures { result ≡ frame_words self.now.page_size }
    {
        u64::from(self.page_size) / WORD_LANES
    }

    /// The Op that it asks for.
    #[tactic(auto, using(crate::proofs::BatchPages::length_batch_pages))]
    pub fn next(&self) -> Op
        ensures { result ≡ next (actor.Cleaner self.now) }
    {
        if self.checks {
            return Op::Load(Word::Failed);
        }
        match self.step {
            CleanerStep::LoadFlushed => Op::Load(Word::Flushed),
            CleanerStep::LoadOldest => Op::Load(Word::Oldest(self.page)),
            CleanerStep::TakeLatch => Op::Swap(Word::Latch(self.page), 0, 1),
            CleanerStep::LoadNewest => Op::Load(Word::Newest(self.page)),
            CleanerStep::ReleaseSkipped => Op::Store(Word::Latch(self.page), 0),
            CleanerStep::LoadFrame => Op::Load(Word::Frame(
                self.page,
                self.kept.len() as u32 / WORD_LANES as u32,
            )),
            CleanerStep::WriteBatch => Op::WriteBatch,
            CleanerStep::RemoveFromList => Op::TakeRemove(self.first_page()),
            CleanerStep::ClearOldest => Op::Store(Word::Oldest(self.first_page()), 0),
            CleanerStep::GiveList => Op::GiveList(self.first_page() % FLUSH_LISTS as u32),
            CleanerStep::ReleaseLatch => Op::Store(Word::Latch(self.first_page()), 0),
            CleanerStep::StoreFailed => Op::Store(Word::Failed, u64::from(self.code)),
            CleanerStep::Failed => Op::Rest,
        }
    }

    /// It lends the pages of its batch.
    #[tactic(auto, using(crate::proofs::BatchPages::users_batch_pages, crate::proofs::BatchPages::pairs_batch_pages))]
    pub fn lent(&self) -> Lent<'_>
        ensures { Lends result (lent (actor.Cleaner self.now)) }
    {
        Lent::Batch {
            pages: self.batch.as_slice(),
            frames: self.users.as_slice(),
        }
    }
}
