// Log blocks that a crash tears.
use crate::tables::play_after_opening;
use std::test::Fail;

/// A block that was flushed is rewritten with a second group by a write that fails, since the log device stops there. The version
/// that was flushed stands in the other tail block. The write is kept or torn.
#[test]
fn keeps_a_flushed_line_where_its_block_is_rewritten(rt: HostRuntime) -> Result<(), Fail> {
    play_after_opening(
        &rt,
        2,
        "
tearing | crash --stop-log @          | 1 f b1 3 100 7 / 1 f b1 3 101 8 / | 0 | open 8204 / g 8204 8210 1 0 flushed / g 8210 8216 1 1 lost / marks 8216 8210 8210 8192 / recovered 1 8210 / p 3 8210 (00*62)07
tearing | crash --stop-log @ --pick 1 | 1 f b1 3 100 7 / 1 f b1 3 101 8 / | 0 | open 8204 / g 8204 8210 1 0 flushed / g 8210 8216 1 1 lost / marks 8216 8210 8210 8192 / recovered 2 8216 / p 3 8216 (00*62)0708
",
    )
}

/// Three groups of a block each go to the log device by one write, at which it stops. A crash tears the second block of the three,
/// so the log ends after the first one. The next run starts there, and its group alone is read: opening has taken the third block
/// away.
#[test]
fn ends_before_a_block_that_is_torn(rt: HostRuntime) -> Result<(), Fail> {
    play_after_opening(
        &rt,
        0,
        "
tearing | crash --log-only --turns 26 --stop-log @ --pick 5 | 1 f s 3 38 (07*489) / 2 f s 4 38 (08*489) / 3 f s 5 38 (09*489) / | 0 | open 8204 / g 8204 8716 1 0 lost / g 8716 9228 2 0 lost / g 9228 9740 3 0 lost / marks 9740 8204 8204 8192 / recovered 1 8716 / p 3 8716 (07*489)
same    | run --log-only                                    | 1 f s 3 38 (06*489) | 0 | open 8716 / g 8716 9228 1 0 flushed / marks 9228 9228 9228 8704
same    | dump --why                                        |                     | 0 | store 4096 8 1 2048 128 / checkpoint 2 8704 / block 8704 18 512 12 2 / stop 9216 number / group 8716 9228 1 / rec s 3 38 (06*489) / end 9228
same    | recover                                           |                     | 0 | read 1 9228 / p 3 9228 (06*489)
",
    )
}
