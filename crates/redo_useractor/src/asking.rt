// What a user asks for.
ghost use Rattle.std.specs.Prelude.{◌≡◌, ◌<◌, ◌≤◌, ◌+◌, ◌-◌, ◌%◌, ◌/◌, ◌^◌, length, nat_lt};
ghost use Rattle.model_core.specs.States as actor;
ghost use Rattle.model_core.specs.{cell_of, cells_of, change_at, changes, copy_place, frame_count, frame_word, group_bytes, group_end, lane_of, left_in_word, lent, line, lsn, next_count, next, current_page, put_of, stored_word, user_op};
ghost use Rattle.redo_useractor.specs.ToLink.{data_word, first_stores, to_link, words_to_copy};
ghost use Rattle.redo_words.specs.{Lends};
ghost use Rattle.redo_useractor.specs.UserView.{end_limit};

use crate::actor::UserActor;
use crate::line::UserLine;
use model_base::BLOCK_SIZE;
use model_core::{
    BUFFER_BLOCKS, CLOSED_LINKS, FLUSH_LISTS, LinkBuffer, UserStep, WORD_LANES, WRITTEN_LINKS,
};
use model_log::{BLOCK_DATA, BLOCK_HEADER};
use redo_lsn::lsn_of;
use redo_words::{Lent, Op, Spot, Word, packed, spot_of};

/// The number of a place's word among the words that have bytes of the stream.
fn data_word(sn: u64) -> u64
    requires { sn < 2 ^ 61 }
    ensures value { result ≡ data_word sn }
{
    sn / BLOCK_DATA * DATA_WORDS + (sn % BLOCK_DATA + BLOCK_HEADER % WORD_LANES) / WORD_LANES
}

/// Words of a block that have bytes of the stream.
const DATA_WORDS: u64 = (BLOCK_SIZE - BLOCK_HEADER) / WORD_LANES + 1;

impl UserActor {
    /// The line of the group in hand.
    pub(crate) fn line(&self) -> &UserLine
        requires { self.now.k < length self.now.lines }
        ensures { result.now ≡ line self.now }
    {
        self.book.line()
    }

    fn page_number(&self) -> u32
        requires line { self.now.k < length self.now.lines }
        requires page { self.now.page < length (changes self.now) }
        ensures { result ≡ current_page self.now }
    {
        self.line().page_number(self.page)
    }

    /// The lsn at which the group in hand starts.
    #[tactic(auto, unfolding(model_core::specs::Lanes::lsn))]
    pub(crate) fn start_lsn(&self) -> u64
        requires { self.now.start < end_limit }
        ensures value { result ≡ lsn self.now.start }
        ensures small { result < 2 ^ 61 }
    {
        lsn_of(self.start)
    }

    /// The lsn at which it ends.
    #[tactic(auto, unfolding(model_core::specs::Lanes::lsn))]
    pub(crate) fn end_lsn(&self) -> u64
        requires line { self.now.k < length self.now.lines }
        requires small { group_end self.now < end_limit }
        ensures value { result ≡ lsn (group_end self.now) }
        ensures small { result < 2 ^ 61 }
    {
        lsn_of(self.start + self.line().text.len() as u64)
    }

    /// Its length, as a distance of lsns.
    #[tactic(auto, unfolding(model_core::specs::Lanes::lsn))]
    fn link(&self) -> u64
        requires line { self.now.k < length self.now.lines }
        requires small { group_end self.now < end_limit }
        ensures { result ≡ lsn (group_end self.now) - lsn self.now.start }
    {
        self.end_lsn() - self.start_lsn()
    }

    /// Whether it ends in another block than it starts in.
    pub(crate) fn crosses(&self) -> bool
        requires line { self.now.k < length self.now.lines }
        requires small { group_end self.now < end_limit }
        ensures { result ≡ nat_lt (self.now.start / BLOCK_DATA) (group_end self.now / BLOCK_DATA) }
    {
        let end = self.start + self.line().text.len() as u64;
        self.start / BLOCK_DATA < end / BLOCK_DATA
    }

    /// Where the next byte of its group goes.
    fn copy_spot(&self) -> Spot
        requires line { self.now.k < length self.now.lines }
        requires small { group_end self.now < end_limit }
        requires byte { self.now.copied < length (group_bytes self.now) }
        ensures cell { result.cell ≡ cell_of (copy_place self.now) }
        ensures lane { result.lane ≡ lane_of (copy_place self.now) }
        ensures left { result.left ≡ left_in_word (copy_place self.now) }
        ensures fits { result.lane + result.left ≤ WORD_LANES }
    {
        spot_of(self.start + self.copied as u64)
    }

    /// How many bytes of its group go into one word next.
    pub(crate) fn next_count(&self) -> usize
        requires line { self.now.k < length self.now.lines }
        requires small { group_end self.now < end_limit }
        requires byte { self.now.copied < length (group_bytes self.now) }
        ensures count { result ≡ next_count self.now }
        ensures within { self.now.copied + result ≤ length (group_bytes self.now) }
        ensures fits { lane_of (copy_place self.now) + result ≤ WORD_LANES }
    {
        let left = self.line().text.as_slice().len() - self.copied;
        self.copy_spot().left.min(left)
    }

    /// The addition of the next bytes of its group onto their lanes.
    fn add_cell(&self) -> Op
        requires line { self.now.k < length self.now.lines }
        requires small { group_end self.now < end_limit }
        requires byte { self.now.copied < length (group_bytes self.now) }
        ensures { result ≡ user_op self.now UserStep.AddCell }
    {
        let spot = self.copy_spot();
        let end = self.copied + self.next_count();
        let bytes = &self.line().text.as_slice()[self.copied..end];
        Op::Add(Word::Cell(spot.cell), packed(spot.lane, bytes))
    }

    /// The store of the first offset of the block in which it ends.
    fn store_first(&self) -> Op
        requires line { self.now.k < length self.now.lines }
        requires small { group_end self.now < end_limit }
        ensures { result ≡ user_op self.now UserStep.StoreFirst }
    {
        let end = self.end_lsn();
        let slot = end / BLOCK_SIZE % BUFFER_BLOCKS;
        Op::Store(Word::First(slot as u32), end % BLOCK_SIZE)
    }

    /// The place of its link in the recent-written buffer.
    fn written_link(&self) -> Word
        requires { self.now.start < end_limit }
        ensures { result ≡ Word.Wlink (lsn self.now.start % WRITTEN_LINKS) }
    {
        Word::Wlink((self.start_lsn() % WRITTEN_LINKS) as u32)
    }

    /// The place of its link in the recent-closed buffer.
    fn closed_link(&self) -> Word
        requires { self.now.start < end_limit }
        ensures { result ≡ Word.Clink (lsn self.now.start % CLOSED_LINKS) }
    {
        Word::Clink((self.start_lsn() % CLOSED_LINKS) as u32)
    }

    /// The Op that it asks for.
    pub fn next(&self) -> Op
        ensures { result ≡ next (actor.User self.now) }
    {
        if self.checks {
            return Op::Load(Word::Failed);
        }
        match self.step {
            UserStep::LoadCheckpoint => Op::Load(Word::Ckpt),
            UserStep::LoadSn => Op::Load(Word::Sn),
            UserStep::TakeLatch => Op::Swap(Word::Latch(self.page_number()), 0, 1),
            UserStep::Reserve => Op::Add(Word::Sn, self.line().text.len() as u64),
            UserStep::LoadWrite => Op::Load(Word::Write),
            UserStep::AddCell => self.add_cell(),
            UserStep::StoreFirst => self.store_first(),
            UserStep::LoadWtail | UserStep::ReloadWtail => Op::Load(Word::Wtail),
            UserStep::AdvanceWritten(step) => self.advance.op(LinkBuffer::Written, step),
            UserStep::StoreLink => Op::Store(self.written_link(), self.link()),
            UserStep::LoadCtail | UserStep::ReloadCtail => Op::Load(Word::Ctail),
            UserStep::AdvanceClosed(step) => self.advance.op(LinkBuffer::Closed, step),
            UserStep::LoadFrame => Op::Load(self.line().frame(self.page, self.at)),
            UserStep::StoreFrame => {
                let line = self.line();
                let word = line.with_cells(self.page, self.at, self.word);
                Op::Store(line.frame(self.page, self.at), word)
            }
            UserStep::StoreNewest => Op::Store(Word::Newest(self.page_number()), self.end_lsn()),
            UserStep::LoadOldest => Op::Load(Word::Oldest(self.page_number())),
            UserStep::AddToList => Op::TakeAdd(self.page_number(), self.start_lsn()),
            UserStep::StoreOldest => Op::Store(Word::Oldest(self.page_number()), self.start_lsn()),
            UserStep::GiveList => Op::GiveList(self.page_number() % FLUSH_LISTS as u32),
            UserStep::StoreClosedLink => Op::Store(self.closed_link(), self.link()),
            UserStep::ReleaseLatch => Op::Store(Word::Latch(self.page_number()), 0),
            UserStep::AwaitMark if self.line().mode == 1 => Op::Load(Word::Flushed),
            UserStep::AwaitMark => Op::Load(Word::Write),
            UserStep::Done | UserStep::Failed => Op::Rest,
        }
    }

    /// How many first offsets its group stores.
    fn first_stores(&self) -> u64
        requires line { self.now.k < length self.now.lines }
        requires small { group_end self.now < end_limit }
        ensures value { result ≡ first_stores self.now }
        ensures few { result ≤ 1 }
    {
        if self.crosses() { 1 } else { 0 }
    }

    /// How many words of the log buffer those bytes of its group fill that aren't copied.
    fn words_left(&self) -> u64
        requires line { self.now.k < length self.now.lines }
        requires small { group_end self.now < end_limit }
        requires byte { self.now.copied < length (group_bytes self.now) }
        ensures value { result ≡ words_to_copy self.now }
        ensures few { result < 2 ^ 61 }
    {
        let end = self.start + self.line().text.len() as u64;
        data_word(end - 1) + 1 - data_word(self.start + self.copied as u64)
    }

    /// How many Ops it has to go from its reservation up to the store of its link, where none of them waits and the link has
    /// room at once; 0 before the reservation and past the link.
    pub fn to_link(&self) -> u64
        ensures { result ≡ to_link self.now }
    {
        match self.step {
            UserStep::LoadWrite => self.words_left() + self.first_stores() + 3,
            UserStep::AddCell => self.words_left() + self.first_stores() + 2,
            UserStep::StoreFirst => 3,
            UserStep::LoadWtail | UserStep::AdvanceWritten(_) | UserStep::ReloadWtail => 2,
            UserStep::StoreLink => 1,
            _ => 0,
        }
    }

    /// It lends nothing.
    pub fn lent(&self) -> Lent<'_>
        ensures { Lends result (lent (actor.User self.now)) }
    {
        Lent::Nothing
    }
}
