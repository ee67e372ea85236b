// Logs that were written by a run, and logs whose blocks are made by hand.
use crate::devices::{FIRST_BLOCK, SECOND_BLOCK};
use crate::tables::{left_by, play};
use redo_disk::{DevError, Sectors};
use std::test::Fail;

/// Whether the 512 bytes at this offset of a device are zeros.
fn holds_zeros<D: Sectors>(device: &mut D, at: u64) -> Result<bool, DevError> {
    let mut bytes = [9; 512];
    let size = device.len();
    if at % 512 != 0 || size < 512 || size - 512 < at {
        return Err(DevError::Failed);
    }
    device.read(at, &mut bytes)?;
    Ok(bytes == [0; 512])
}

#[test]
fn fills_one_block_and_leaves_the_next(rt: HostRuntime) -> Result<(), Fail> {
    let mut devices = left_by(
        &rt,
        "
new | crash | 1 f s 3 38 (07*489) | 0 | open 8204 / g 8204 8716 1 0 flushed / marks 8716 8716 8716 8192 / recovered 1 8716 / p 3 8716 (07*489)
",
    )?;
    assert!(rt; !holds_zeros(&mut devices.log, FIRST_BLOCK)?);
    assert!(rt; holds_zeros(&mut devices.log, SECOND_BLOCK)?);
    Ok(())
}

#[test]
fn lists_the_blocks_of_one_line(rt: HostRuntime) -> Result<(), Fail> {
    play(
        &rt,
        "
new  | run        | 1 f b1 3 100 7 | 0 | open 8204 / g 8204 8210 1 0 flushed / marks 8210 8210 8210 8192
same | dump       |                | 0 | store 4096 8 1 2048 128 / checkpoint 1 8192 / block 8192 17 18 12 0 / group 8204 8210 1 / rec b1 3 100 7 / end 8210
same | dump --why |                | 0 | store 4096 8 1 2048 128 / checkpoint 1 8192 / block 8192 17 18 12 0 / stop 8192 partial / group 8204 8210 1 / rec b1 3 100 7 / end 8210
",
    )
}

#[test]
fn lists_a_group_of_two_records(rt: HostRuntime) -> Result<(), Fail> {
    play(
        &rt,
        "
new  | run  | 1 f b1 3 100 7;b1 4 100 8 | 0 | open 8204 / g 8204 8217 1 0 flushed / marks 8217 8217 8217 8192
same | dump |                           | 0 | store 4096 8 1 2048 128 / checkpoint 1 8192 / block 8192 17 25 12 0 / group 8204 8217 2 / rec b1 3 100 7 / rec b1 4 100 8 / end 8217
",
    )
}

#[test]
fn lists_the_blocks_of_a_long_group(rt: HostRuntime) -> Result<(), Fail> {
    play(
        &rt,
        "
new  | run  | 1 f s 3 38 (0a*1193) | 0 | open 8204 / g 8204 9436 1 0 flushed / marks 9436 9436 9436 8192
same | dump |                      | 0 | store 4096 8 1 2048 128 / checkpoint 1 8192 / block 8192 17 512 12 1 / block 8704 18 512 0 1 / block 9216 19 220 220 0 / group 8204 9436 1 / rec s 3 38 (0a*1193) / end 9436
",
    )
}

#[test]
fn ends_before_a_block_of_no_length(rt: HostRuntime) -> Result<(), Fail> {
    play(
        &rt,
        "
new       | format     | | 0 | formatted 8192
same      | dump --why | | 0 | store 4096 8 1 2048 128 / checkpoint 0 8192 / stop 8192 number / end 8204
no length | recover    | | 0 | read 0 8204
same      | dump --why | | 0 | store 4096 8 1 2048 128 / checkpoint 0 8192 / stop 8192 length / end 8204
",
    )
}

/// A block in its place that passes and isn't full is none of the log: such a one stands in a tail block alone.
#[test]
fn ends_before_a_block_in_place_that_is_not_full(rt: HostRuntime) -> Result<(), Fail> {
    play(
        &rt,
        "
new           | format     | | 0 | formatted 8192
part in place | recover    | | 0 | read 0 8204
same          | dump --why | | 0 | store 4096 8 1 2048 128 / checkpoint 0 8192 / stop 8192 length / end 8204
",
    )
}

/// The last lsn of a block is 2^60 - 512.
#[test]
fn ends_at_the_last_lsn(rt: HostRuntime) -> Result<(), Fail> {
    play(
        &rt,
        "
new        | format     | | 0 | formatted 8192
last block | dump --why | | 0 | store 4096 8 1 2048 128 / checkpoint 2 1152921504606846464 / block 1152921504606846464 1073741824 512 0 2 / stop 1152921504606846976 end / end 1152921504606846988
",
    )
}

/// Each of the 2,046 blocks was read.
#[test]
fn ends_after_a_whole_round(rt: HostRuntime) -> Result<(), Fail> {
    play(
        &rt,
        "
new         | format     | | 0 | formatted 8192
whole round | dump --why | | 0 | .. / stop 1055744 round / .. / end 1055756
",
    )
}

#[test]
fn refuses_a_record_of_no_type(rt: HostRuntime) -> Result<(), Fail> {
    play(
        &rt,
        "
new     | format  |                | 0 | formatted 8192
no type | recover | 1 f b1 3 100 7 | 8 | fault store record 8204
new     | format  |                | 0 | formatted 8192
no type | dump    | 1 f b1 3 100 7 | 8 | fault store record 8204
new     | format  |                | 0 | formatted 8192
no type | run     | 1 f b1 3 100 7 | 8 | fault store record 8204
new     | format  |                | 0 | formatted 8192
no type | crash   | 1 f b1 3 100 7 | 8 | fault store record 8204
",
    )
}

#[test]
fn ends_behind_a_block_without_a_group(rt: HostRuntime) -> Result<(), Fail> {
    play(
        &rt,
        "
new      | format  | | 0 | formatted 8192
no group | dump    | | 0 | store 4096 8 1 2048 128 / checkpoint 2 8704 / block 8704 18 512 0 2 / end 9228
same     | recover | | 0 | read 0 9228
",
    )
}
