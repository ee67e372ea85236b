// Places worked out by hand, and what is said where memory runs out.
use crate::table::{format, number, number32, see, yes};
use redo_lsn::{
    Format, Limits, NoMemory, Shape, block_of, is_data_lsn, layout_of, log_device_length, lsn_of,
    number_of, offset_of, round_of, sn_of, start_after,
};
use std::alloc::AllocError;
use std::process::Abort;

// For each lsn: its block, that block's number, whether it is a byte's place, where a run after it starts, and its sn.
// The numbers go round at 2^39, 549,755,813,888.
const PLACES: &str = "\
0             0             1           no   524           0
11            0             1           no   524           0
12            0             1           yes  12            0
507           0             1           yes  524           495
508           0             1           no   524           496
523           512           2           no   1036          496
524           512           2           yes  524           496
8192          8192          17          no   8716          7936
8203          8192          17          no   8716          7936
8204          8192          17          yes  8204          7936
8205          8192          17          yes  8716          7937
8699          8192          17          yes  8716          8431
8700          8192          17          no   8716          8432
8701          8192          17          no   8716          8432
8703          8192          17          no   8716          8432
8704          8704          18          no   9228          8432
8716          8704          18          yes  8716          8432
1056767       1056256       2064        no   1056780       1023744
1056768       1056768       2065        no   1057292       1023744
549755813887  549755813376  1073741824  no   549755813900  532575944704
549755813888  549755813888  1           no   549755814412  532575944704
549755814412  549755814400  2           yes  549755814412  532575945200
";

fn is_placed(rt: &impl Abort, row: &str) -> bool {
    let mut words = row.split_whitespace();
    let lsn = number(rt, &mut words);
    assert!(rt; lsn < 1 << 60);
    let is_in_block = block_of(lsn) == number(rt, &mut words)
        && number_of(lsn) == number32(rt, &mut words)
        && is_data_lsn(lsn) == yes(rt, &mut words)
        && start_after(lsn) == number(rt, &mut words);
    is_in_block && is_counted(lsn, number(rt, &mut words))
}

// The sn of an lsn is this one, and leads back to it where it is a byte's place.
fn is_counted(lsn: u64, sn: u64) -> bool {
    lsn < 1 << 60 && sn_of(lsn) == sn && (!is_data_lsn(lsn) || sn < 1 << 60 && lsn_of(sn) == lsn)
}

#[test]
fn places(rt: HostRuntime) {
    assert!(rt; Shape::default_shape().is_within_limits());
    for row in PLACES.lines() {
        see(&rt, is_placed(&rt, row), row);
    }
}

// The format of a store, its number of log blocks, an lsn, and the offset of its block on the device. In format 1 the
// ring has as many blocks as the log, from offset 2048 on; in formats 2 and 3 it has two fewer, from 3072 on.
const OFFSETS: &str = "\
1  1024     8192          2048
1  1024     531968        525824
1  1024     532479        525824
1  1024     532480        2048
1  2048     8192          2048
1  2048     8703          2048
1  2048     8704          2560
1  2048     8716          2560
1  2048     1056767       1050112
1  2048     1056768       2048
1  2048     549755813887  1041920
1  2048     549755813888  1042432
1  2048     549755814412  1042944
1  1048576  536879103     536872448
1  1048576  536879104     2048
2  1024     8192          3072
2  1024     8703          3072
2  1024     8704          3584
2  1024     530944        525824
2  1024     531456        3072
2  1024     1054720       3072
2  2048     1055232       1050112
2  2048     1055744       3072
2  1048576  536878079     536872448
2  1048576  536878080     3072
3  1024     531456        3072
3  2048     1055744       3072
";

fn is_at_its_offset(rt: &impl Abort, row: &str) -> bool {
    let mut words = row.split_whitespace();
    let format = format(rt, &mut words);
    let shape = Shape {
        log_blocks: number32(rt, &mut words),
        ..Shape::default_shape()
    };
    let lsn = number(rt, &mut words);
    assert!(rt; shape.is_within_limits() && 8192 <= lsn && lsn < 1 << 60);
    offset_of(lsn, &layout_of(format, &shape)) == number(rt, &mut words)
}

#[test]
fn offsets(rt: HostRuntime) {
    for row in OFFSETS.lines() {
        see(&rt, is_at_its_offset(&rt, row), row);
    }
}

#[test]
fn a_log_device_has_room_for_four_blocks_and_the_log(rt: HostRuntime) {
    let shape = Shape::default_shape();
    assert!(rt; round_of(&layout_of(Format::One, &shape)) == 1_048_576);
    assert!(rt; round_of(&layout_of(Format::Two, &shape)) == 1_047_552);
    assert!(rt; log_device_length(&shape) == 1_050_624);
}

#[test]
fn no_memory_says_what_it_is(rt: HostRuntime) {
    let text = format!(in rt.alloc(); "{}", NoMemory::from(AllocError)).expect(&rt, "no memory");
    assert!(rt; text.as_str() == "out of memory");
}
