// Filling the blocks of one call.
ghost use Rattle.std.specs.Prelude.{◌≡◌, ◌≤◌, ◌<◌, ◌+◌, ◌*◌, ◌^◌, ◌⊎◌, length, take};
ghost use Rattle.model_log.specs.{framed};
ghost use Rattle.redo_block.specs.{AreFirsts};
ghost use Rattle.redo_logdev.specs.Part.{framed_full_blocks, full_count, last_block};

use model_base::BLOCK_SIZE;
use model_log::BLOCK_DATA;
use redo_block::frame_into;

/// Puts the blocks of the stream, the first of them at the lsn `from`, at the front of the room, and answers how many
/// bytes they are.
fn fill_front(room: &mut [u8], from: u64, stream: &[u8], firsts: &[u32], ckpt: u32) -> usize
    requires small { from + BLOCK_SIZE * length firsts.now < 2 ^ 61 + BLOCK_SIZE }
    requires room { BLOCK_SIZE * length firsts.now ≤ length room.old }
    requires each { AreFirsts stream.now firsts.now }
    ensures len { result ≡ BLOCK_SIZE * length firsts.now }
    ensures front { take result room.new ≡ framed stream.now from firsts.now ckpt }
{
    let len = BLOCK_SIZE as usize * firsts.len();
    frame_into(&mut room[..len], stream, from, firsts, ckpt);
    len
}

/// Puts the blocks that the stream fills, the first of them at the lsn `from`, at the front of the room, and the
/// incomplete block after them, if there is one, into a sector of its own. Answers how many bytes each of the two has.
pub fn fill_blocks(
    room: &mut [u8],
    last: &mut [u8; 512],
    from: u64,
    stream: &[u8],
    firsts: &[u32],
    ckpt: u32,
) -> (usize, usize)
    requires small { from + BLOCK_SIZE * length firsts.now < 2 ^ 61 + BLOCK_SIZE }
    requires room { BLOCK_SIZE * length firsts.now ≤ length room.old }
    requires each { AreFirsts stream.now firsts.now }
    ensures full { take result.0 room.new ≡ framed_full_blocks from stream.now firsts.now ckpt }
    ensures full_len { result.0 ≡ BLOCK_SIZE * full_count stream.now }
    ensures last { take result.1 last.new ≡ last_block from stream.now firsts.now }
    ensures last_len { (result.1 ≡ 0) ⊎ (result.1 ≡ BLOCK_SIZE) }
{
    let count = stream.len() / BLOCK_DATA as usize;
    let (whole, rest) = stream.split_at(BLOCK_DATA as usize * count);
    let (whole_firsts, rest_firsts) = firsts.split_at(count);
    let full = fill_front(room, from, whole, whole_firsts, ckpt);
    let end = from + full as u64;
    let turn = (end / (1 << 39)) as u32;
    (full, fill_front(last, end, rest, rest_firsts, turn))
}
