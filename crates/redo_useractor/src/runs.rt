// Words of a page's frame that hold what one record of a group writes there, and nothing else.
ghost use Rattle.std.specs.Prelude.{IfSome, Some, length, slice_index, true, ℕ, ◌*◌, ◌+◌, ◌-◌, ◌<◌, ◌≡◌, ◌≤◌};
ghost use Rattle.std.specs.List.{AllByRecursion};
ghost use Rattle.redo_apply.specs.{WritesWithin};
ghost use Rattle.redo_useractor.specs.Runs.{Covers, IsRun};
ghost use Rattle.redo_useractor.specs.Written.{own_byte, words_end};

use crate::written::{cells_end, first_cell, first_word};
use model_base::{MAX_PAGE_SIZE, USER_START};
use model_core::WORD_LANES;
use model_log::Rec;
use redo_apply::page_of;

/// Words of a page's frame, from the first up to the end, that hold what the record with this number writes there.
#[derive(Clone, Copy, Debug)]
pub(crate) struct Run {
    pub(crate) page: u32,
    pub(crate) rec: usize,
    pub(crate) first: usize,
    pub(crate) end: usize,
}

impl Run {
    /// That of no word.
    pub(crate) fn none() -> Run
        ensures { result.end ≡ 0 }
    {
        Run {
            page: 0,
            rec: 0,
            first: 0,
            end: 0,
        }
    }

    /// Whether this word of a page is among them.
    pub(crate) fn has(&self, page: u32, word: usize) -> bool
        ensures page { result ≡ true → self.now.page ≡ page }
        ensures word { result ≡ true → (self.now.first ≤ word) × (word < self.now.end) }
    {
        self.page == page && self.first <= word && word < self.end
    }
}

/// Whether a record writes each cell of a word.
fn covers(user_bytes: usize, rec: &Rec, word: usize) -> bool
    requires user_bytes { user_bytes ≤ MAX_PAGE_SIZE }
    requires word { word ≤ words_end }
    ensures { result ≡ true → Covers user_bytes word rec.now }
{
    let start = WORD_LANES as usize * word;
    first_cell(rec) <= start && start + WORD_LANES as usize <= cells_end(user_bytes, rec)
}

/// The run of a page's frame that begins with this word.
pub(crate) fn run_from(user_bytes: usize, recs: &[Rec], page: u32, word: usize) -> Run
    requires user_bytes { user_bytes ≤ MAX_PAGE_SIZE }
    requires word { word ≤ words_end }
    requires within { AllByRecursion (WritesWithin user_bytes) recs.now }
    ensures page { result.page ≡ page }
    ensures run { IsRun user_bytes page recs.now result.rec result.first result.end }
{
    let mut number = 0;
    let mut end = word;
    for k in 0..recs.len() {
        let rec = &recs[k];
        if page_of(rec) == page && covers(user_bytes, rec, word) {
            number = k;
            end = cells_end(user_bytes, rec) / WORD_LANES as usize;
        } else {
            end = end.min(first_word(user_bytes, rec, page, word));
        }
    }
    Run {
        page,
        rec: number,
        first: word,
        end,
    }
}

/// The eight bytes that a record writes in a word that it covers, where they stand in it as they are.
pub(crate) fn bytes_in(user_bytes: usize, rec: &Rec, word: usize) -> Option<&[u8]>
    requires word { word < words_end }
    requires within { WritesWithin user_bytes rec.now }
    requires covers { Covers user_bytes word rec.now }
    ensures eight { IfSome result (λ bytes. length bytes.now ≡ WORD_LANES) }
    ensures bytes { IfSome result (λ bytes. (lane : ℕ) → lane < WORD_LANES
        → own_byte user_bytes rec.now (WORD_LANES * word + lane - USER_START) ≡ Some (slice_index bytes.now lane)) }
{
    let start = WORD_LANES as usize * word;
    match rec {
        Rec::Text { offset, bytes, .. } => {
            let from = start - *offset as usize;
            Some(&bytes.as_slice()[from..from + WORD_LANES as usize])
        }
        Rec::Num { .. } | Rec::Init { .. } => None,
    }
}
