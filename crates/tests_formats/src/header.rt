// Header blocks worked out by hand, and their fields damaged one by one.
use crate::table::{damaged, format, number, number32, optional, see, shape};
use redo_crc::sector::{field_u64, put, seal};
use redo_header::{
    Format, Head, fill_ckpt, fill_head, newer, place_of, read_ckpt, read_head, read_one_head,
};
use redo_lsn::{Shape, layout_of};
use std::process::Abort;
use std::str::SplitWhitespace;

const SHAPE: Shape = Shape {
    page_size: 4096,
    pages: 8,
    space: 1,
    log_blocks: 2048,
    slots: 8,
};

#[test]
fn filled_heads(rt: HostRuntime) {
    let mut block = [0xFF; 512];
    for (format, number) in [(Format::One, b"\0\0\0\x01"), (Format::Two, b"\0\0\0\x02")] {
        fill_head(&mut block, format, &SHAPE);
        assert!(rt; block.starts_with(number));
        let made = b"\0\0\0\0\0\0\0\0\0\0\x20\0redolab 1\0\0\0";
        assert!(rt; block[4..].starts_with(made));
        let sizes = b"\0\0\x10\0\0\0\0\x08\0\0\0\x01\0\0\x08\0\0\0\0\x08\0";
        assert!(rt; block[48..].starts_with(sizes));
        assert!(rt; read_one_head(&block) == Head::Good(format, SHAPE));
    }
}

// A header of format 3 names 128 slots, and 1 to 1,024 pages.
#[test]
fn heads_of_format_3(rt: HostRuntime) {
    let mut block = [0; 512];
    for (pages, slots, is_good) in [
        (1, 128, true),
        (1024, 128, true),
        (1025, 128, false),
        (0, 128, false),
        (8, 8, false),
        (8, 127, false),
    ] {
        let shape = Shape {
            pages,
            slots,
            ..SHAPE
        };
        fill_head(&mut block, Format::Three, &shape);
        assert!(rt; block.starts_with(b"\0\0\0\x03"));
        let head = read_one_head(&block);
        assert!(rt; (head == Head::Good(Format::Three, shape)) == is_good);
        assert!(rt; is_good || head == Head::Unformatted);
    }
}

#[test]
fn filled_checkpoints(rt: HostRuntime) {
    let mut block = [0xFF; 512];
    for format in [Format::One, Format::Two] {
        let layout = layout_of(format, &SHAPE);
        for (number, lsn) in [
            (0, 8192),
            (4, 8704),
            (3, 1_056_768),
            (u64::MAX, (1 << 60) - 512),
        ] {
            fill_ckpt(&mut block, number, lsn, &layout);
            assert!(rt; read_ckpt(&block, place_of(number), &layout) == Some((number, lsn)));
        }
    }
    fill_ckpt(&mut block, 4, 8704, &layout_of(Format::One, &SHAPE));
    let numbers = b"\0\0\0\0\0\0\0\x04\0\0\0\0\0\0\x22\0\0\0\0\0\0\0\x0A\0\0\0\0\0\0\x01\0\0\0";
    assert!(rt; block.starts_with(numbers));
}

// Each format names the offset at which its ring starts, and a checkpoint is read by its own format alone.
#[test]
fn checkpoints_at_the_first_block(rt: HostRuntime) {
    let (one, two) = (
        layout_of(Format::One, &SHAPE),
        layout_of(Format::Two, &SHAPE),
    );
    let mut block = [0; 512];
    fill_ckpt(&mut block, 0, 8192, &one);
    assert!(rt; field_u64(&block, 16) == 2048);
    assert!(rt; read_ckpt(&block, 1, &one) == Some((0, 8192)));
    assert!(rt; read_ckpt(&block, 1, &two).is_none());
    fill_ckpt(&mut block, 0, 8192, &two);
    assert!(rt; field_u64(&block, 16) == 3072);
    assert!(rt; read_ckpt(&block, 1, &two) == Some((0, 8192)));
    assert!(rt; read_ckpt(&block, 1, &one).is_none());
}

// The header of a store: the offset at which other bytes are written, those, what is then read, and what they are.
const DAMAGED_HEADS: &str = "\
0    00000000            format 0                         format 0
0    00000002            good 2 4096 8 1 2048 8           format 2
0    00000003            unformatted                      format 3, of 8 slots
0    00000004            format 4                         format 4
0    FFFFFFFF            format 4294967295                format 2^32 - 1
0    000000020000000001  unformatted                      format 2 and no start
0    000000040000000001  format 4                         format 4 and no start
7    01                  good 1 4096 8 1 2048 8           the zeros behind the format
15   01                  unformatted                      start 8193
8    01                  unformatted                      start 2^56 + 8192
16   52                  good 1 4096 8 1 2048 8           another creator
47   01                  good 1 4096 8 1 2048 8           the creator's last byte
50   20                  unformatted                      page size 8192
51   01                  unformatted                      page size 4097
55   00                  unformatted                      no page
55   01                  good 1 4096 1 1 2048 8           one page
55   40                  good 1 4096 64 1 2048 8          64 pages
55   41                  unformatted                      65 pages
56   FFFFFFFF            good 1 4096 8 4294967295 2048 8  space 2^32 - 1
62   03FF                unformatted                      1,023 log blocks
62   0400                good 1 4096 8 1 1024 8           1,024 log blocks
60   00100000            good 1 4096 8 1 1048576 8        1,048,576 log blocks
60   00100001            unformatted                      1,048,577 log blocks
67   07                  unformatted                      7 slots
67   09                  unformatted                      9 slots
67   80                  unformatted                      128 slots
68   01                  good 1 4096 8 1 2048 8           the first zero
507  01                  good 1 4096 8 1 2048 8           the last zero
";

// What the next words say of a header.
fn head(rt: &impl Abort, words: &mut SplitWhitespace<'_>) -> Head {
    match words.next() {
        Some("format") => Head::OtherFormat(number32(rt, words)),
        Some("good") => Head::Good(format(rt, words), shape(rt, words)),
        Some("unformatted") => Head::Unformatted,
        _ => panic!(rt; "no header"),
    }
}

// With the old checksum the header is unformatted; with one that fits it is what is said.
fn is_damaged_head(rt: &(impl Abort + AllocGlobal), block: &[u8; 512], row: &str) -> bool {
    let mut words = row.split_whitespace();
    let mut damaged = damaged(rt, block, &mut words);
    let was_read = read_one_head(&damaged);
    seal(&mut damaged, 508);
    was_read == Head::Unformatted && read_one_head(&damaged) == head(rt, &mut words)
}

#[test]
fn damaged_heads(rt: HostRuntime) {
    let mut block = [0; 512];
    fill_head(&mut block, Format::One, &SHAPE);
    for row in DAMAGED_HEADS.lines() {
        see(&rt, is_damaged_head(&rt, &block, row), row);
    }
    // A wrong checksum, and zeros.
    block[511] ^= 1;
    assert!(rt; read_one_head(&block) == Head::Unformatted);
    assert!(rt; read_one_head(&[0; 512]) == Head::Unformatted);
}

fn filled(format: Format) -> [u8; 512] {
    let mut head = [0; 512];
    fill_head(&mut head, format, &SHAPE);
    head
}

// Of a format that isn't known.
fn with_other_format() -> [u8; 512] {
    let mut head = filled(Format::One);
    put(&mut head, 0, b"\0\0\0\x04");
    seal(&mut head, 508);
    head
}

fn with_other_start() -> [u8; 512] {
    let mut head = filled(Format::Two);
    put(&mut head, 8, b"\x01");
    seal(&mut head, 508);
    head
}

// Sees that this is read of two header blocks.
fn see_head(rt: &impl Abort, first: &[u8; 512], second: &[u8; 512], want: Head) {
    assert!(rt; read_head(first, second) == want);
}

// The second header block counts where the first one's checksum fails, and only there.
#[test]
fn heads_in_two_blocks(rt: HostRuntime) {
    let broken = [0xFF; 512];
    for format in [Format::One, Format::Two] {
        let second = filled(format);
        see_head(&rt, &broken, &second, Head::Good(format, SHAPE));
        see_head(&rt, &second, &broken, Head::Good(format, SHAPE));
        see_head(
            &rt,
            &filled(Format::One),
            &second,
            Head::Good(Format::One, SHAPE),
        );
        see_head(&rt, &with_other_format(), &second, Head::OtherFormat(4));
        see_head(&rt, &broken, &with_other_format(), Head::OtherFormat(4));
        see_head(&rt, &with_other_start(), &second, Head::Unformatted);
    }
    see_head(&rt, &broken, &broken, Head::Unformatted);
}

// Checkpoint 4 at lsn 8704 in format 1, read in one of the two blocks: the offset at which other bytes are written, those, the
// block, what is then read (number and lsn, or nothing), and what they are.
const DAMAGED_CHECKPOINTS: &str = "\
7    02                                1  2 8704                  an even number in block 1
7    05                                1  -                       an odd number in block 1
7    02                                3  -                       an even number in block 3
7    05                                3  5 8704                  an odd number in block 3
7    02                                2  -                       an even number in block 2
7    00                                1  0 8704                  number 0
0    01                                1  0x100000000000004 8704  number 2^56 + 4
15   01                                1  -                       lsn 8705
15   0C                                1  -                       lsn 8716
14   200000000000000008                1  4 8192                  lsn 8192
14   20                                1  -                       lsn 8192 at another offset
14   1E0000000000000006                1  -                       lsn 7680
14   1E0000000000000008                1  -                       lsn 7680 at the first offset
14   000000000000000008                1  -                       lsn 0 at the first offset
13   10                                1  4 1057280               lsn 8704 a round later
8    0FFFFFFFFFFFFE0000000000000FE600  1  4 0x0FFFFFFFFFFFFE00    lsn 2^60 - 512
8    100000000000000000000000000FE800  1  -                       lsn 2^60
22   0C                                1  -                       the next block's offset
23   01                                1  -                       the offset of the byte behind
24   01                                1  4 8704                  another buffer size
507  01                                1  4 8704                  the last zero
";

// What the next words say of a checkpoint.
fn checkpoint(rt: &impl Abort, words: &mut SplitWhitespace<'_>) -> Option<(u64, u64)> {
    match optional(rt, words) {
        Some(ckpt) => Some((ckpt, number(rt, words))),
        None => None,
    }
}

// With the old checksum there is no checkpoint; with one that fits it is what is said.
fn is_damaged_checkpoint(rt: &(impl Abort + AllocGlobal), block: &[u8; 512], row: &str) -> bool {
    let mut words = row.split_whitespace();
    let mut damaged = damaged(rt, block, &mut words);
    let which = number32(rt, &mut words);
    let layout = layout_of(Format::One, &SHAPE);
    let was_read = read_ckpt(&damaged, which, &layout);
    seal(&mut damaged, 508);
    was_read.is_none() && read_ckpt(&damaged, which, &layout) == checkpoint(rt, &mut words)
}

#[test]
fn damaged_checkpoints(rt: HostRuntime) {
    let layout = layout_of(Format::One, &SHAPE);
    let mut block = [0; 512];
    fill_ckpt(&mut block, 4, 8704, &layout);
    for row in DAMAGED_CHECKPOINTS.lines() {
        see(&rt, is_damaged_checkpoint(&rt, &block, row), row);
    }
    assert!(rt; read_ckpt(&block, 1, &layout) == Some((4, 8704)));
    // A wrong checksum.
    block[511] ^= 1;
    assert!(rt; read_ckpt(&block, 1, &layout).is_none());
}

#[test]
fn newer_of_two(rt: HostRuntime) {
    let old = Some((3, 8192));
    let new = Some((4, 8704));
    assert!(rt; newer(None, None).is_none() && newer(None, old) == old);
    assert!(rt; newer(new, None) == new && newer(new, old) == new && newer(old, new) == new);
    assert!(rt; place_of(0) == 1 && place_of(4) == 1 && place_of(3) == 3);
}
