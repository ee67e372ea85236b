// What a follower asks for, and what it makes of the answer.
ghost use Rattle.std.specs.Prelude.{◌≡◌, ◌+◌, ◌<◌, ◌≤◌, ◌^◌, ◌==◌, if◌then◌else◌, drop, false, length, min, take, true};
ghost use Rattle.std.specs.Borrow.{sem};
ghost use Rattle.model_core.specs.States as actor;
ghost use Rattle.model_core.specs.{AnswerFits, after_of, checked_of, lent, next, next_block, next_piece, read_to, reader_ending, reader_program, step_of};
ghost use Rattle.model_core.specs.declared.steps.ReaderStep.TheVariants as reader_step;
ghost use Rattle.model_log.specs.{block_view, is_block_at};
ghost use Rattle.model_log.specs.declared.layout.TheConstants.{BLOCK_DATA_END};
ghost use Rattle.redo_follow.specs.declared.follower.TheConstants.{ROOM};
ghost use Rattle.redo_follow.specs.Handing.{Followed, FollowerFits, IsFollowerStep, IsToFollow, TookAnswer};
ghost use Rattle.redo_follow.specs.Lending.{LendsRoom};
ghost use Rattle.redo_words.specs.{Lends};

use crate::follower::{Follower, ROOM};
use crate::handing::hand_on;
use crate::receiver::Receiver;
use crate::room::{drop_bytes, push_part};
use model_base::BLOCK_SIZE;
use model_core::ReaderStep;
use model_log::{BLOCK_DATA, BLOCK_DATA_END, BLOCK_HEADER};
use redo_block::read;
use redo_lsn::{lsn_of, sn_of};
use redo_words::{Answer, Lent, Op, Step, Word, code_of, old_of};

impl<R: Receiver> Follower<R> {
    /// Up to where it has read.
    fn read_to(&self) -> u64
        ensures value { result ≡ read_to self.now.state }
        ensures small { result < 2 ^ 61 }
        ensures some { 0 < self.now.state.number }
    {
        self.at + self.kept.len() as u64
    }

    /// The lsn of the next block that it needs.
    #[tactic(auto, unfolding(model_core::specs::Lanes::lsn))]
    fn next_block(&self) -> u64
        ensures { result ≡ next_block self.now.state }
    {
        let lsn = lsn_of(self.read_to());
        lsn - lsn % BLOCK_SIZE
    }

    /// The Op that it asks for.
    pub fn next(&self) -> Op
        ensures { result ≡ next (actor.Reader self.now.state) }
    {
        if self.checks {
            return Op::Load(Word::Failed);
        }
        match self.step {
            ReaderStep::LoadFlushed => Op::Load(Word::Flushed),
            ReaderStep::TakeDevice => Op::TakeDevice,
            ReaderStep::GiveBroken | ReaderStep::GiveDevice | ReaderStep::GiveFailed => {
                Op::GiveDevice
            }
            ReaderStep::ReadBlock => Op::ReadBlock(self.next_block()),
            ReaderStep::StorePlace => Op::Store(Word::Place(self.number), self.place),
            ReaderStep::StoreFailed => Op::Store(Word::Failed, u64::from(self.code)),
            ReaderStep::Failed => Op::Rest,
            ReaderStep::Append | ReaderStep::StoreLost => unreachable!(),
        }
    }

    /// It lends no call anything to read.
    pub fn lent(&self) -> Lent<'_>
        ensures { Lends result (lent (actor.Reader self.now.state)) }
    {
        Lent::Nothing
    }

    /// The room for a block: into it a call writes the block that the follower asked for, before `took`.
    pub fn room(&mut self) -> &mut [u8; 512]
        ensures* writes_back { sem 𝓛 (LendsRoom R.row R.Receiver self.entry result) }
        ensures value { result.now ≡ self.old.state.block }
    {
        &mut self.block
    }

    /// Its number.
    pub fn number(&self) -> u32
        ensures { result ≡ self.now.state.number }
    {
        self.number
    }

    /// The lsn up to which it has handed groups on.
    pub fn place(&self) -> u64
        ensures { result ≡ self.now.state.place }
    {
        self.place
    }

    /// Who takes the groups.
    pub fn receiver(&self) -> &R
        ensures { result.now ≡ self.now.receiver }
    {
        &self.receiver
    }

    /// What it makes of FAILED.
    fn checked(&mut self, n: u64) -> Step
        requires { n < 2 ^ 32 }
        ensures state { self.new.state ≡ checked_of reader_program self.old.state n }
        ensures receiver { self.new.receiver ≡ self.old.receiver }
        ensures step { result ≡ (if n == 0 then Step.Moved else Step.Failed n) }
    {
        self.checks = false;
        if n == 0 {
            return Step::Moved;
        }
        self.code = n as u32;
        self.step = ReaderStep::Failed;
        Step::Failed(self.code)
    }

    /// It goes on with this step.
    fn goes_on(&mut self, step: ReaderStep) -> Step
        requires { IsFollowerStep step }
        ensures state { self.new.state ≡ record self.old.state { step = step } }
        ensures receiver { self.new.receiver ≡ self.old.receiver }
        ensures step { result ≡ reader_ending self.old.state.code step }
    {
        self.step = step;
        match step {
            ReaderStep::Failed => Step::Failed(self.code),
            _ => Step::Moved,
        }
    }

    /// It waits: it checks FAILED, and then takes the same step again.
    fn waits(&mut self) -> Step
        ensures state { self.new.state ≡ record self.old.state { checks = true } }
        ensures receiver { self.new.receiver ≡ self.old.receiver }
        ensures step { result ≡ Step.Idle }
    {
        self.checks = true;
        Step::Idle
    }

    /// Where the data in use of its block ends, if that is a block of the place up to which it has read; else 0.
    fn data_end(&self) -> usize
        requires { next_block self.now.state < 2 ^ 61 }
        ensures { result ≡ (if is_block_at (next_block self.now.state) self.now.state.block
            then min (block_view self.now.state.block).length BLOCK_DATA_END else 0) }
    {
        match read(&self.block, self.next_block()) {
            Some(view) => view.length.min(BLOCK_DATA_END as u32) as usize,
            None => 0,
        }
    }

    /// The bytes that it takes from its block: where in it they begin, and how many they are. They are among the data
    /// in use; of what is no block of its place it takes none.
    fn piece(&self) -> (usize, usize)
        ensures bytes { take result.1 (drop result.0 self.now.state.block) ≡ next_piece self.now.state }
        ensures there { result.0 + result.1 ≤ 512 }
        ensures room { length self.now.state.kept + result.1 ≤ ROOM }
        ensures small { self.now.state.at + length self.now.state.kept + result.1 < 2 ^ 61 }
    {
        let from = self.read_to();
        let offset = from % BLOCK_DATA;
        let end = (from - offset + BLOCK_DATA)
            .min(sn_of(self.mark))
            .min(self.at + ROOM as u64);
        let place = (BLOCK_HEADER + offset) as usize;
        if end <= from {
            return (place, 0);
        }
        let held = self.data_end().saturating_sub(place);
        (place, held.min((end - from) as usize))
    }

    /// It takes what the block has, and hands on the whole groups.
    #[tactic(auto, unfolding(model_core::specs::Lanes::lsn))]
    fn follows(&mut self)
        ensures { Followed R.stands_for self.old self.new }
    {
        let (place, count) = self.piece();
        push_part(&mut self.kept, &self.block, place, count);
        let taken = hand_on(&mut self.receiver, self.at, &self.kept);
        self.at += taken as u64;
        self.place = lsn_of(self.at);
        drop_bytes(&mut self.kept, taken);
        self.step = if taken == 0 {
            ReaderStep::LoadFlushed
        } else {
            ReaderStep::StorePlace
        };
    }

    /// Takes the answer to an Op that hands on nothing.
    fn moves(&mut self, answer: Answer) -> Step
        requires fits { AnswerFits (actor.Reader self.old.state) answer }
        requires small { FollowerFits self.old.state answer }
        requires other { IsToFollow self.old.state ≡ false }
        ensures state { self.new.state ≡ after_of reader_program self.old.state answer }
        ensures receiver { self.new.receiver ≡ self.old.receiver }
        ensures step { result ≡ step_of (actor.Reader self.old.state) answer }
    {
        if self.checks {
            return self.checked(old_of(answer));
        }
        match self.step {
            ReaderStep::LoadFlushed => {
                self.mark = old_of(answer);
                if self.mark == self.place {
                    self.waits()
                } else {
                    self.goes_on(ReaderStep::TakeDevice)
                }
            }
            ReaderStep::TakeDevice => match answer {
                Answer::Taken(_) => self.goes_on(ReaderStep::ReadBlock),
                Answer::Broken => self.goes_on(ReaderStep::GiveBroken),
                _ => self.waits(),
            },
            ReaderStep::GiveBroken => {
                self.checks = true;
                self.goes_on(ReaderStep::TakeDevice)
            }
            ReaderStep::ReadBlock => {
                self.code = code_of(answer);
                match answer {
                    Answer::Failed(_) => self.goes_on(ReaderStep::StoreFailed),
                    _ => self.goes_on(ReaderStep::GiveDevice),
                }
            }
            ReaderStep::StorePlace => {
                self.own = self.place;
                self.goes_on(ReaderStep::LoadFlushed)
            }
            ReaderStep::StoreFailed => self.goes_on(ReaderStep::GiveFailed),
            ReaderStep::GiveDevice | ReaderStep::GiveFailed | ReaderStep::Failed => {
                self.goes_on(ReaderStep::Failed)
            }
            ReaderStep::Append | ReaderStep::StoreLost => unreachable!(),
        }
    }

    /// Takes the answer to the Op that it asked for.
    pub fn took(&mut self, answer: Answer) -> Step
        requires fits { AnswerFits (actor.Reader self.old.state) answer }
        requires small { FollowerFits self.old.state answer }
        ensures state { TookAnswer R.stands_for self.old answer self.new }
        ensures step { result ≡ step_of (actor.Reader self.old.state) answer }
        ensures some { 0 < self.old.state.number }
    {
        if !self.checks && self.step == ReaderStep::GiveDevice {
            self.follows();
            return Step::Moved;
        }
        self.moves(answer)
    }
}
