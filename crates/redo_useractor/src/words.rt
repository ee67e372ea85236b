// The words of a frame that a group changes.
ghost use Rattle.std.specs.Prelude.{◌≡◌, ◌≤◌, ◌<◌, length};
ghost use Rattle.model_core.specs.{lanes, packed, put_lanes};
ghost use Rattle.redo_useractor.specs.Words.{word_cells};
ghost use Rattle.redo_useractor.specs.Written.{words_end};

use crate::written::cell_byte;
use model_core::WORD_LANES;
use model_log::Rec;

/// How many cells of a word of this page's frame the records change.
pub(crate) fn count_in(user_bytes: usize, recs: &[Rec], page: u32, word: usize) -> usize
    requires { word < words_end }
    ensures count { result ≡ length (word_cells user_bytes page recs.now word) }
    ensures few { result ≤ WORD_LANES }
{
    let mut count = 0;
    for lane in 0..WORD_LANES as usize {
        if cell_byte(user_bytes, recs, page, WORD_LANES as usize * word + lane).is_some() {
            count += 1;
        }
    }
    count
}

/// A word of this page's frame with what the records write there.
#[tactic(auto, unfolding(model_core::specs::Lanes::packed, model_core::specs::Lanes::lanes))]
pub(crate) fn with_written(user_bytes: usize, recs: &[Rec], page: u32, word: usize, old: u64) -> u64
    requires { word < words_end }
    ensures { result ≡ packed 0 (put_lanes (word_cells user_bytes page recs.now word) (lanes 0 WORD_LANES old)) }
{
    let mut lanes = old.to_le_bytes();
    for lane in 0..WORD_LANES as usize {
        match cell_byte(user_bytes, recs, page, WORD_LANES as usize * word + lane) {
            Some(byte) => lanes[lane] = byte,
            None => {}
        }
    }
    u64::from_le_bytes(lanes)
}
