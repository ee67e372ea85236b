// Filling many blocks in place.
ghost use Rattle.std.specs.Prelude.{◌≡◌, ◌≤◌, ◌<◌, ◌+◌, ◌*◌, ◌^◌, length, IsTrue};
ghost use Rattle.model_log.specs.{block_text, framed, is_first, length_of};
ghost use Rattle.redo_block.specs.Framing.{AreFirsts};

use crate::fill;
use model_base::BLOCK_SIZE;
use model_log::BLOCK_DATA;

/// Cuts a stream into blocks that stand side by side, the first of them at the lsn `from`, and takes no memory. There
/// is a first offset for each block, and room for all of them.
pub fn frame_into(out: &mut [u8], stream: &[u8], from: u64, firsts: &[u32], ckpt: u32)
    requires small { from + BLOCK_SIZE * length firsts.now < 2 ^ 61 + BLOCK_SIZE }
    requires room { length out.old ≡ BLOCK_SIZE * length firsts.now }
    requires each { AreFirsts stream.now firsts.now }
    ensures { out.new ≡ framed stream.now from firsts.now ckpt }
{
    let mut rest = stream;
    let mut lsn = from;
    let mut at = 0;
    for first in firsts {
        let (bytes, others) = rest.split_at((BLOCK_DATA as usize).min(rest.len()));
        let end = at + BLOCK_SIZE as usize;
        fill_part(&mut out[at..end], lsn, bytes, *first, ckpt);
        rest = others;
        lsn += BLOCK_SIZE;
        at = end;
    }
}

// Makes these 512 bytes the block.
fn fill_part(out: &mut [u8], lsn: u64, bytes: &[u8], first: u32, ckpt: u32)
    requires whole { length out.old ≡ BLOCK_SIZE }
    requires small { lsn < 2 ^ 61 }
    requires room { length bytes.now ≤ BLOCK_DATA }
    requires offset { IsTrue (is_first (length_of (length bytes.now)) first) }
    ensures { out.new ≡ block_text lsn bytes.now first ckpt }
{
    let Some(block) = out.as_mut_array::<512>() else {
        unreachable!()
    };
    fill(block, lsn, bytes, first, ckpt);
}
