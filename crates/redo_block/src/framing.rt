// A stream cut into blocks, and joined again.
ghost use Rattle.std.specs.Prelude.{◌≡◌, ◌≤◌, ◌<◌, ◌+◌, ◌*◌, ◌%◌, ◌^◌, ℕ, List, length, min, All, IfOk, IsTrue, ◌↔◌};
ghost use Rattle.model_log.specs.declared.group.Whole.{Whole};
ghost use Rattle.model_log.specs.{block_of, framed, is_first, IsAtDataStart, IsGivenTo, IsRunOf, length_of};
ghost use Rattle.redo_block.specs.Framing.{AreFirsts, unframed};

use crate::{block_data, frame_into, is_first, length_of, read};
use model_base::BLOCK_SIZE;
use model_log::BLOCK_DATA;
use redo_lsn::{Bytes, NoMemory};
use std::alloc::Global;

/// Whether the stream has a byte, and the first offset fits the data that its first block holds.
fn is_next_first(stream: &[u8], first: u32) -> bool
    ensures { IsTrue result
        ↔ ((0 < length stream.now) × IsTrue (is_first (length_of (min BLOCK_DATA (length stream.now))) first)) }
{
    let count = (BLOCK_DATA as usize).min(stream.len());
    !stream.is_empty() && is_first(u32::from(length_of(count)), first)
}

/// Whether there is a first offset for each block of the stream, which fits the data that the block holds.
pub fn are_firsts(stream: &[u8], firsts: &[u32]) -> bool
    ensures { IsTrue result ↔ AreFirsts stream.now firsts.now }
{
    let mut rest = stream;
    for first in firsts {
        if !is_next_first(rest, *first) {
            return false;
        }
        rest = rest.split_at((BLOCK_DATA as usize).min(rest.len())).1;
    }
    rest.is_empty()
}

/// Cuts a stream into blocks, the first of them at the lsn `from`. There is a first offset for each block. It fails
/// only where memory runs out.
pub fn frame(
    alloc: Global,
    stream: &[u8],
    from: u64,
    firsts: &[u32],
    ckpt: u32,
) -> Result<Bytes, NoMemory>
    requires small { from + BLOCK_SIZE * length firsts.now < 2 ^ 61 + BLOCK_SIZE }
    requires each { AreFirsts stream.now firsts.now }
    ensures { IfOk result (λ blocks. blocks ≡ framed stream.now from firsts.now ckpt) }
{
    let mut text = vec![in alloc; 0; BLOCK_SIZE as usize * firsts.len()]?;
    frame_into(&mut text, stream, from, firsts, ckpt);
    Ok(Bytes::new(text))
}

/// Joins the data of the blocks, the first of which stands at the lsn `from`, through the first that isn't full or up
/// to the first that isn't read. It fails only where memory runs out.
pub fn unframe(alloc: Global, blocks: &[u8], from: u64) -> Result<Bytes, NoMemory>
    requires { from + length blocks.now < 2 ^ 61 + BLOCK_SIZE }
    ensures { IfOk result (λ stream. stream ≡ unframed blocks.now from) }
{
    let mut stream = Vec::new(alloc);
    let mut rest = blocks;
    let mut lsn = from;
    while let Some((block, others)) = rest.split_first_chunk::<512>() {
        let Some(view) = read(block, lsn) else {
            return Ok(Bytes::new(stream));
        };
        stream.extend_from_slice(block_data(view, block))?;
        if u64::from(view.length) < BLOCK_SIZE {
            return Ok(Bytes::new(stream));
        }
        rest = others;
        lsn += BLOCK_SIZE;
    }
    Ok(Bytes::new(stream))
}

/// What was cut into blocks is joined again.
pub fn unframe_of_frame()
    ensures { (stream firsts : List ℕ) (from ckpt : ℕ) → AreFirsts stream firsts → All (λ byte. byte < 256) stream
        → ckpt < 2 ^ 32 → unframed (framed stream from firsts ckpt) from ≡ stream }
{}

/// What a writer is given of a run has a first offset for each block, which fits it, as `frame` requires.
pub fn run_firsts_fit()
    ensures { (s from m : ℕ) (wholes : List Whole) (bytes firsts : List ℕ) → IsAtDataStart s → IsRunOf s wholes
        → block_of s ≤ from → from % BLOCK_SIZE ≡ 0 → IsGivenTo s wholes from m bytes firsts → AreFirsts bytes firsts }
{}
