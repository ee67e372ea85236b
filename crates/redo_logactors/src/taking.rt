// What the writer makes of the answers to its own Ops.
ghost use Rattle.std.specs.Prelude.{◌≡◌, ◌<◌, ◌≤◌, ◌+◌, ◌-◌, ◌^◌, ◌++◌, if◌then◌else◌, false, length};
ghost use Rattle.model_core.specs.States as actor;
ghost use Rattle.model_core.specs.{AnswerFits, after_of, answer_limit, finds_no_more, full_blocks, has_log_space, has_whole_word, lanes, left_in_word, lsn, old_of, read_place, stands_outside, step_of, tail_after, writer_program, writer_took};
ghost use Rattle.redo_link.specs.{FindsLsn};
ghost use Rattle.redo_logactors.specs.WriterView.{after_word};

use crate::writer::{KEPT_BLOCKS, KEPT_BYTES, Writer};
use crate::writing::{drop_bytes, drop_firsts};
use model_base::BLOCK_SIZE;
use model_core::{AdvanceStep, WORD_LANES, WriterStep};
use model_log::BLOCK_DATA;
use redo_link::tail_of;
use redo_words::{Answer, Step, code_of, old_of, push_lanes};

impl Writer {
    /// Whether the log has space up to its tail, where CKPT is this.
    fn has_log_space(&self, ckpt: u64) -> bool
        requires { ckpt < answer_limit }
        ensures { result ≡ has_log_space self.now ckpt }
    {
        let end = self.tail + (BLOCK_SIZE - 1);
        end - end % BLOCK_SIZE <= ckpt + BLOCK_SIZE * self.blocks
    }

    /// Whether it stands at a block that it hasn't entered.
    fn stands_outside(&self) -> bool
        ensures { result ≡ stands_outside self.now }
    {
        self.kept.len() as u64 == BLOCK_DATA * self.firsts.len() as u64
    }

    /// The tail with which it goes on once a step of its advance found this.
    fn tail_after(&self, found: u64, step: AdvanceStep) -> u64
        requires { FindsLsn self.now.advance found step }
        ensures value { result ≡ tail_after self.now found step }
        ensures small { result < 2 ^ 61 }
    {
        match step {
            AdvanceStep::LoadTail => tail_of(found),
            AdvanceStep::FreeTail => self.advance.place(),
            _ => self.tail,
        }
    }

    /// A step of its advance was answered.
    fn advances(&mut self, answer: Answer, step: AdvanceStep) -> Step
        requires step { self.old.step ≡ WriterStep.Advance step }
        requires finds { FindsLsn self.old.advance (old_of answer) step }
        ensures state { self.new ≡ writer_took self.old answer (WriterStep.Advance step) }
        ensures step { result ≡ (if finds_no_more self.old (old_of answer) step then Step.Idle else Step.Moved) }
    {
        let found = old_of(answer);
        let tail = self.tail_after(found, step);
        let ends = self.advance.ends(found, step);
        let next = self.advance.next(found, step);
        let waits = ends && tail <= self.write;
        self.advance.take(found, step);
        self.tail = tail;
        self.checks = waits;
        self.step = if waits {
            WriterStep::Advance(AdvanceStep::LoadTail)
        } else if ends {
            WriterStep::LoadCheckpoint
        } else {
            WriterStep::Advance(next)
        };
        if waits { Step::Idle } else { Step::Moved }
    }

    /// The newest checkpoint was loaded.
    fn checks_space(&mut self, answer: Answer) -> Step
        requires step { self.old.step ≡ WriterStep.LoadCheckpoint }
        requires small { old_of answer < answer_limit }
        ensures state { self.new ≡ writer_took self.old answer WriterStep.LoadCheckpoint }
        ensures step { result ≡ (if has_log_space self.old (old_of answer) then Step.Moved else Step.Idle) }
    {
        let has_space = self.has_log_space(old_of(answer));
        self.ckpt = old_of(answer);
        if !has_space {
            return self.waits();
        }
        if self.stands_outside() {
            self.goes_on(WriterStep::LoadFirst)
        } else {
            self.goes_on(WriterStep::LoadCell)
        }
    }

    /// It has entered a block.
    fn enters(&mut self, answer: Answer) -> Step
        requires { length self.old.firsts < KEPT_BLOCKS }
        ensures state { self.new ≡ writer_took self.old answer WriterStep.ClearFirst }
        ensures step { result ≡ Step.Moved }
    {
        self.firsts.push_reserved(self.first);
        self.first = 0;
        self.goes_on(WriterStep::LoadCell)
    }

    /// It keeps what stands in so many lanes of a word.
    fn keeps(&mut self, word: u64, lane: usize, count: usize)
        requires lanes { lane + count ≤ WORD_LANES }
        requires room { length self.old.kept + count ≤ KEPT_BYTES }
        ensures { self.new ≡ record self.old { kept = self.old.kept ++ lanes lane count word } }
    {
        push_lanes(&mut self.kept, word, lane, count);
    }

    /// It has read a whole word: it goes on to the write, to another block, or to another word.
    fn after_word(&mut self) -> Step
        ensures state { self.new ≡ record self.old { step = after_word self.old } }
        ensures step { result ≡ Step.Moved }
    {
        if self.read_place() == self.tail {
            self.goes_on(WriterStep::TakeDevice)
        } else if self.stands_outside() {
            self.goes_on(WriterStep::LoadFirst)
        } else {
            self.goes_on(WriterStep::LoadCell)
        }
    }

    /// The word of its read place was loaded: where its bytes go on beyond the tail, those below are kept, and it stays.
    fn loads_word(&mut self, answer: Answer) -> Step
        requires room { has_whole_word self.old ≡ false → length self.old.kept + (self.old.tail - lsn (read_place self.old)) ≤ KEPT_BYTES }
        ensures state { self.new ≡ writer_took self.old answer WriterStep.LoadCell }
        ensures step { result ≡ Step.Moved }
    {
        let spot = self.read_spot();
        let below = self.tail.saturating_sub(self.read_place());
        if spot.left as u64 <= below {
            self.word = old_of(answer);
            return self.goes_on(WriterStep::ClearCell);
        }
        self.keeps(old_of(answer), spot.lane, below as usize);
        self.goes_on(WriterStep::TakeDevice)
    }

    /// That word was cleared: its bytes are kept.
    fn clears_word(&mut self, answer: Answer) -> Step
        requires room { length self.old.kept + left_in_word (read_place self.old) ≤ KEPT_BYTES }
        ensures state { self.new ≡ writer_took self.old answer WriterStep.ClearCell }
        ensures step { result ≡ Step.Moved }
    {
        let spot = self.read_spot();
        self.keeps(self.word, spot.lane, spot.left);
        self.word = 0;
        self.after_word()
    }

    /// What it has read is written: the blocks that are full go.
    fn written(&mut self, answer: Answer) -> Step
        requires blocks { full_blocks self.old ≤ length self.old.firsts }
        requires small { self.old.from + length self.old.kept < answer_limit }
        ensures state { self.new ≡ writer_took self.old answer WriterStep.StoreWrite }
        ensures step { result ≡ Step.Moved }
    {
        let full = self.kept.len() / BLOCK_DATA as usize;
        self.write = self.tail;
        self.from += BLOCK_DATA * full as u64;
        drop_bytes(&mut self.kept, BLOCK_DATA as usize * full);
        drop_firsts(&mut self.firsts, full);
        self.goes_on(WriterStep::GiveDevice)
    }

    /// Takes the answer to the Op that it asked for.
    pub fn took(&mut self, answer: Answer) -> Step
        requires { AnswerFits (actor.Writer self.old) answer }
        ensures state { self.new ≡ after_of writer_program self.old answer }
        ensures step { result ≡ step_of (actor.Writer self.old) answer }
    {
        if self.checks {
            return self.checked(old_of(answer));
        }
        match self.step {
            WriterStep::Advance(step) => self.advances(answer, step),
            WriterStep::LoadCheckpoint => self.checks_space(answer),
            WriterStep::LoadFirst => {
                self.first = old_of(answer) as u32;
                self.goes_on(WriterStep::ClearFirst)
            }
            WriterStep::ClearFirst => self.enters(answer),
            WriterStep::LoadCell => self.loads_word(answer),
            WriterStep::ClearCell => self.clears_word(answer),
            WriterStep::TakeDevice => match answer {
                Answer::Taken(_) => self.goes_on(WriterStep::WriteTo),
                Answer::Broken => self.goes_on(WriterStep::GiveBroken),
                _ => self.waits(),
            },
            WriterStep::GiveBroken => {
                self.checks = true;
                self.goes_on(WriterStep::TakeDevice)
            }
            WriterStep::WriteTo => {
                self.code = code_of(answer);
                match answer {
                    Answer::Failed(_) => self.goes_on(WriterStep::StoreFailed),
                    _ => self.goes_on(WriterStep::StoreWrite),
                }
            }
            WriterStep::StoreWrite => self.written(answer),
            WriterStep::GiveDevice => self.goes_on(WriterStep::Advance(AdvanceStep::LoadTail)),
            WriterStep::StoreFailed => self.goes_on(WriterStep::GiveFailed),
            WriterStep::GiveFailed | WriterStep::Failed => self.goes_on(WriterStep::Failed),
        }
    }
}
