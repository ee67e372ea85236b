// The numbers of words.
ghost use Rattle.std.specs.Prelude.{◌≡◌, ◌<◌, ◌^◌};
ghost use Rattle.model_core.specs.{index, page_stride, word_count};
ghost use Rattle.model_core.specs.declared.words.Word.TheVariants as word;

use crate::{Layout, Word};
use model_core::{
    BUFFER_BLOCKS, BUFFER_WORDS, CLOSED_LINKS, FLUSH_LISTS, READERS, WORD_LANES, WRITTEN_LINKS,
};

// where each kind of word begins
const LISTS_AT: u64 = 8;

const WRITTEN_LINKS_AT: u64 = LISTS_AT + FLUSH_LISTS;

const CLOSED_LINKS_AT: u64 = WRITTEN_LINKS_AT + WRITTEN_LINKS;

const CELLS_AT: u64 = CLOSED_LINKS_AT + CLOSED_LINKS;

const FIRSTS_AT: u64 = CELLS_AT + BUFFER_WORDS;

const PLACES_AT: u64 = FIRSTS_AT + BUFFER_BLOCKS;

const PAGES_AT: u64 = PLACES_AT + READERS;

// of a page's words: its latch, its newest, its oldest modification, its frame
const NEWEST_AT: u64 = 1;

const OLDEST_AT: u64 = 2;

const FRAME_AT: u64 = 3;

/// How many words a layout has.
pub fn count_of(layout: Layout) -> u64
    ensures { result ≡ word_count layout }
{
    first_word(layout, layout.pages)
}

/// The number of a word, counted from 0. Those of pages' words depend on how many words a page has.
pub fn number_of(layout: Layout, word: Word) -> u64
    ensures { result ≡ index layout word }
{
    match word {
        Word::Sn => 0,
        Word::Write => 1,
        Word::Wtail => 2,
        Word::Flushed => 3,
        Word::Ckpt => 4,
        Word::Ctail => 5,
        Word::Failed => 6,
        Word::Device => 7,
        Word::List(list) => LISTS_AT + list as u64,
        Word::Wlink(place) => WRITTEN_LINKS_AT + place as u64,
        Word::Clink(place) => CLOSED_LINKS_AT + place as u64,
        Word::Cell(place) => CELLS_AT + place as u64,
        Word::First(block) => FIRSTS_AT + block as u64,
        Word::Place(reader) => PLACES_AT + reader as u64,
        Word::Latch(page) => first_word(layout, page),
        Word::Newest(page) => first_word(layout, page) + NEWEST_AT,
        Word::Oldest(page) => first_word(layout, page) + OLDEST_AT,
        Word::Frame(page, cell) => first_word(layout, page) + FRAME_AT + cell as u64,
    }
}

// How many words a page has.
fn page_words(layout: Layout) -> u64
    ensures value { result ≡ page_stride layout }
    ensures few { result < 2 ^ 30 }
{
    FRAME_AT + layout.page_size as u64 / WORD_LANES
}

// The number of a page's first word.
#[tactic(auto, using(crate::proofs::PageNumbers::few_words))]
fn first_word(layout: Layout, page: u32) -> u64
    ensures value { result ≡ index layout (word.Latch page) }
    ensures small { result < 2 ^ 63 }
{
    PAGES_AT + page as u64 * page_words(layout)
}
