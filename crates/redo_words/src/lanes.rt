// The eight lanes of a word of the log buffer.
ghost use Rattle.std.specs.Prelude.{◌≡◌, ◌≤◌, ◌+◌, ◌-◌, ◌<◌, ◌^◌, ◌++◌, length, vec_capacity};
ghost use Rattle.model_core.specs.{cell_of, lane_of, lanes, left_in_word, packed};

use model_core::{BUFFER_WORDS, WORD_LANES};
use model_log::BLOCK_DATA;
use redo_lsn::lsn_of;

/// A place of the stream in the log buffer: its word, its lane there, and how many bytes stand there from it on.
#[derive(Clone, Copy, Debug, PartialEq, Eq)]
pub struct Spot {
    pub cell: u32,
    pub lane: usize,
    pub left: usize,
}

/// Where the byte of an sn stands.
#[tactic(auto, unfolding(model_core::specs::Lanes::lsn))]
pub fn spot_of(sn: u64) -> Spot
    requires { sn < 2 ^ 61 }
    ensures cell { result.cell ≡ cell_of sn }
    ensures lane { result.lane ≡ lane_of sn }
    ensures left { result.left ≡ left_in_word sn }
    ensures fits { result.lane + result.left ≤ WORD_LANES }
{
    let lsn = lsn_of(sn);
    let lane = lsn % WORD_LANES;
    let left = (WORD_LANES - lane).min(BLOCK_DATA - sn % BLOCK_DATA);
    Spot {
        cell: (lsn / WORD_LANES % BUFFER_WORDS) as u32,
        lane: lane as usize,
        left: left as usize,
    }
}

/// The word that has these bytes in its lanes from a lane on, and 0 in its others.
pub fn packed(lane: usize, bytes: &[u8]) -> u64
    requires { lane + length bytes.now ≤ WORD_LANES }
    ensures { result ≡ packed lane bytes.now }
{
    let mut lanes = [0u8; 8];
    lanes[lane..lane + bytes.len()].copy_from_slice(bytes);
    u64::from_le_bytes(lanes)
}

/// Adds what stands in so many lanes of a word, from a lane on, to bytes that have the room for it.
pub fn push_lanes(bytes: &mut Vec<u8>, word: u64, lane: usize, count: usize)
    requires lanes { lane + count ≤ WORD_LANES }
    requires room { length bytes.old.items + count ≤ vec_capacity bytes.old }
    ensures items { bytes.new.items ≡ bytes.old.items ++ lanes lane count word }
    ensures longer { length bytes.new.items ≡ length bytes.old.items + count }
    ensures room { vec_capacity bytes.new ≡ vec_capacity bytes.old }
{
    let lanes = word.to_le_bytes();
    for i in 0..count {
        bytes.push_reserved(lanes[lane + i]);
    }
}
