// The words on the heap of one thread.
ghost use Rattle.std.specs.Prelude.{◌≡◌, ℕ, length, slice_index, slice_set, IfOk};
ghost use Rattle.model_core.specs.{index, IsWord, OnWord, OpWords, word_count, word_found, words_after};
ghost use Rattle.model_core.specs.declared.ops.Answer.TheVariants as answer;
ghost use Rattle.redo_words.specs.Plain.{HoldsSum, shape_layout};

use crate::{Answer, Layout, Op, Word, number_of};
use model_base::Shape;
use redo_lsn::NoMemory;
use std::alloc::Global;
use std::marker::Model;

/// The words of a store, with which there are. Contracts see the list of them by their numbers. Only `new` takes memory.
#[derive(Debug, Drop)]
pub struct PlainWords {
    layout: Layout,
    words: Vec<u64>,
}

impl Model for PlainWords {
    ghost use Rattle.std.specs.Prelude.{◌≡◌, length};
    ghost use Rattle.model_core.specs.{word_count};
    ghost use Rattle.redo_words.specs.Plain.{Plain};

    ghost Value = { Plain };

    ghost view = { λ plain. record { layout = plain.layout; words = plain.words.items } };

    ghost invariant = { λ plain. length plain.words.items ≡ word_count plain.layout };
}

impl PlainWords {
    /// The words of a store of this shape, each 0.
    pub fn new(alloc: Global, shape: &Shape) -> Result<PlainWords, NoMemory>
        ensures layout { IfOk result (λ plain. plain.layout ≡ shape_layout shape.now) }
        ensures count { IfOk result (λ plain. length plain.words ≡ word_count (shape_layout shape.now)) }
        ensures zero { IfOk result (λ plain. (i : ℕ) → slice_index plain.words i ≡ 0) }
    {
        let layout = Layout {
            pages: shape.pages,
            page_size: shape.page_size,
        };
        let count = crate::count_of(layout) as usize;
        let words = vec![in alloc; 0u64; count]?;
        Ok(PlainWords { layout, words })
    }

    /// The words, in their order.
    pub fn as_slice(&self) -> &[u64]
        ensures words { result.now ≡ self.now.words }
        ensures count { length result.now ≡ word_count self.now.layout }
    {
        self.words.as_slice()
    }

    /// Plays an Op on a word, and answers what stood there.
    #[inline(always)]
    pub fn play(&mut self, op: Op) -> Answer
        requires on_word { OnWord op }
        requires there { OpWords self.old.layout op }
        requires sum { HoldsSum self.old.layout op self.old.words }
        ensures layout { self.new.layout ≡ self.old.layout }
        ensures words { self.new.words ≡ words_after self.old.layout op self.old.words }
        ensures answer { result ≡ answer.Old (word_found self.old.layout op self.old.words) }
    {
        match op {
            Op::Load(word) => Answer::Old(self.word(word)),
            Op::Store(word, number) => Answer::Old(self.put(word, number)),
            Op::Add(word, number) => {
                let old = self.word(word);
                Answer::Old(self.put(word, old + number))
            }
            Op::Swap(word, from, to) => {
                let old = self.word(word);
                if old == from {
                    self.put(word, to);
                }
                Answer::Old(old)
            }
            _ => Answer::Rested,
        }
    }

    // What stands in a word.
    #[tactic(auto, using(model_core::proofs::WordNumbers::index_below))]
    fn word(&self, word: Word) -> u64
        requires { IsWord self.now.layout word }
        ensures { result ≡ slice_index self.now.words (index self.now.layout word) }
    {
        self.words[number_of(self.layout, word) as usize]
    }

    // Writes a word, and answers what stood there.
    #[tactic(auto, using(model_core::proofs::WordNumbers::index_below))]
    fn put(&mut self, word: Word, number: u64) -> u64
        requires { IsWord self.old.layout word }
        ensures layout { self.new.layout ≡ self.old.layout }
        ensures words { self.new.words ≡ slice_set self.old.words (index self.old.layout word) number }
        ensures old { result ≡ slice_index self.old.words (index self.old.layout word) }
    {
        let at = number_of(self.layout, word) as usize;
        let old = self.words[at];
        self.words[at] = number;
        old
    }
}
