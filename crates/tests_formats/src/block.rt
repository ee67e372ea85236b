// Blocks worked out by hand.
ghost use Rattle.std.specs.Prelude.{◌<◌, ◌^◌};

use crate::table::{damaged, narrow, number32, optional, see, see_at};
use model_log::Fit;
use redo_block::{BlockView, are_firsts, fill, frame, frame_into, read, unframe, why};
use redo_crc::sector::seal;
use std::alloc::Global;
use std::process::Abort;
use std::str::SplitWhitespace;

fn view(length: u32, first: u32, ckpt: u32) -> Option<BlockView> {
    Some(BlockView {
        length,
        first,
        ckpt,
    })
}

#[test]
fn block_of_one_group(rt: HostRuntime) {
    let mut block = [0xFF; 512];
    fill(&mut block, 8192, b"\x81\x01\x03\0\x64\x07", 12, 1);
    let front = b"\0\0\0\x11\0\x12\0\x0C\0\0\0\x01\x81\x01\x03\0\x64\x07";
    assert!(rt; block.starts_with(front) && block[507] == 0);
    assert!(rt; read(&block, 8192) == view(18, 12, 1));
    assert!(rt; why(&block, 8192) == Fit::Whole);
    // At another lsn.
    assert!(rt; read(&block, 8704).is_none() && why(&block, 8704) == Fit::Number);
    block[17] = 8;
    assert!(rt; why(&block, 8192) == Fit::Checksum);
}

// A block of six bytes at lsn 8192, under checkpoint 1: the offset at which other bytes are written, those, what is
// then read (its length, first offset and checkpoint, or nothing), and what they are.
const DAMAGED: &str = "\
0    00000012  -                   the next number
0    80        18   12   1         the flush bit
0    40        -                   the bit below it
4    0000      -                   length 0
4    000B0000  -                   length 11
4    000C      12   12   1         length 12
4    01FB      507  12   1         length 507
4    01FC      -                   length 508
4    01FF      -                   length 511
4    0200      512  12   1         length 512
4    0201      -                   length 513
4    8012      -                   the encryption bit
4    8200      -                   the encryption bit of a full block
6    0000      18   0    1         no first group
6    0001      -                   first offset 1
6    000B      -                   first offset 11
6    0012      18   18   1         first offset at the length
6    0013      -                   first offset above the length
4    020001FB  512  507  1         first offset 507
4    020001FC  -                   first offset 508
4    000C000D  -                   first offset above a length of 12
8    01        18   12   0x1000001 the checkpoint's first byte
11   02        18   12   2         the checkpoint's last byte
17   08        18   12   1         a data byte
18   01        18   12   1         the first unused byte
507  01        18   12   1         the last unused byte
";

// What the next words say that is read.
fn wanted(rt: &impl Abort, words: &mut SplitWhitespace<'_>) -> Option<BlockView> {
    match optional(rt, words) {
        Some(length) => view(narrow(rt, length), number32(rt, words), number32(rt, words)),
        None => None,
    }
}

// Once the bytes are written nothing is read; once the checksum fits again, what is said.
fn is_damaged(rt: &(impl Abort + AllocGlobal), block: &[u8; 512], row: &str) -> bool {
    let mut words = row.split_whitespace();
    let mut damaged = damaged(rt, block, &mut words);
    let was_read = read(&damaged, 8192);
    seal(&mut damaged, 508);
    was_read.is_none() && read(&damaged, 8192) == wanted(rt, &mut words)
}

#[test]
fn damaged_blocks(rt: HostRuntime) {
    let mut block = [0; 512];
    fill(&mut block, 8192, b"\x81\x01\x03\0\x64\x07", 12, 1);
    for row in DAMAGED.lines() {
        see(&rt, is_damaged(&rt, &block, row), row);
    }
    for at in 508..512 {
        let mut damaged = block;
        damaged[at] ^= 1;
        see_at(&rt, read(&damaged, 8192).is_none(), at);
    }
}

// The stream of the three blocks.
const STREAM: [u8; 1200] = [b'x'; 1200];
// Where their first groups begin.
const FIRSTS: [u32; 3] = [12, 0, 220];

// What is read of the block at an lsn, of those that stand side by side from 8192 on.
fn read_at(blocks: &[u8; 1536], lsn: u64) -> Option<BlockView> {
    let at = lsn.checked_sub(8192)? as usize;
    read(blocks.get(at..)?.first_chunk::<512>()?, lsn)
}

// The blocks, the first of them at this lsn, are joined to these bytes.
fn is_joined(alloc: Global, blocks: &[u8], from: u64, stream: &[u8]) -> Option<bool> {
    if from > 9228 || blocks.len() > 1536 {
        return None;
    }
    let joined = unframe(alloc, blocks, from).ok()?;
    Some(joined.as_slice() == stream)
}

// Stretches of the three blocks are joined: all; up to half of the second block; at another lsn; the third block alone.
fn are_joined(alloc: Global, room: &[u8; 1536]) -> Option<bool> {
    for (start, end, from, count) in [
        (0, 1536, 8204, 1200),
        (0, 1023, 8204, 496),
        (0, 1536, 8704, 0),
        (1024, 1536, 9228, 208),
    ] {
        let blocks = room.get(start..end)?;
        let stream = STREAM.get(..count)?;
        if !is_joined(alloc, blocks, from, stream)? {
            return Some(false);
        }
    }
    Some(true)
}

// The three blocks are framed, read one by one, and joined.
fn are_three_blocks(alloc: Global) -> Option<bool> {
    if !are_firsts(&STREAM, &FIRSTS) {
        return None;
    }
    let mut room = [0xFF; 1536];
    frame_into(&mut room, &STREAM, 8204, &FIRSTS, 1);
    let framed = frame(alloc, &STREAM, 8204, &FIRSTS, 1).ok()?;
    let is_framed = framed.as_slice() == room.as_slice()
        && read_at(&room, 8192) == view(512, 12, 1)
        && read_at(&room, 8704) == view(512, 0, 1)
        && read_at(&room, 9216) == view(220, 220, 1);
    Some(is_framed && are_joined(alloc, &room)?)
}

#[test]
fn three_blocks(rt: HostRuntime) {
    assert!(rt; !are_firsts(&STREAM, &[12, 0]) && !are_firsts(&STREAM, &[12, 0, 221]));
    assert!(rt; are_three_blocks(rt.alloc()) == Some(true));
}

// A block that holds five bytes.
fn part_block(lsn: u64, content: &[u8; 5]) -> [u8; 512]
    requires { lsn < 2 ^ 61 }
{
    let mut block = [0; 512];
    fill(&mut block, lsn, content, 12, 1);
    block
}

// What stands after a block that isn't full isn't joined.
#[test]
fn after_a_part_block(rt: HostRuntime) {
    let blocks = [part_block(8192, b"first"), part_block(8704, b"other")];
    let joined = is_joined(rt.alloc(), blocks.as_flattened(), 8204, b"first");
    assert!(rt; joined == Some(true));
}
