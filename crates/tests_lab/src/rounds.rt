// Calls one after another on the same devices.
use crate::tables::play;
use std::test::Fail;

#[test]
fn reads_what_a_run_left(rt: HostRuntime) -> Result<(), Fail> {
    play(
        &rt,
        "
new  | run     | 1 f b1 3 100 7 | 0 | open 8204 / g 8204 8210 1 0 flushed / marks 8210 8210 8210 8192
same | recover |                | 0 | read 1 8210 / p 3 8210 (00*62)07
",
    )
}

/// The first run ends at 8210, so the second starts in the next block, at 8704 + 12.
#[test]
fn runs_again_behind_the_first_run(rt: HostRuntime) -> Result<(), Fail> {
    play(
        &rt,
        "
new  | run     | 1 f b1 3 100 7 | 0 | open 8204 / g 8204 8210 1 0 flushed / marks 8210 8210 8210 8192
same | run     | 1 f b1 3 101 9 | 0 | open 8716 / g 8716 8722 1 0 flushed / marks 8722 8722 8722 8704
same | recover |                | 0 | read 1 8722 / p 3 8722 (00*62)0709
same | dump    |                | 0 | store 4096 8 1 2048 128 / checkpoint 2 8704 / block 8704 18 18 12 0 / group 8716 8722 1 / rec b1 3 101 9 / end 8722
",
    )
}

#[test]
fn crashes_a_store_in_use(rt: HostRuntime) -> Result<(), Fail> {
    play(
        &rt,
        "
new  | run                | 1 f b1 3 100 7 | 0 | open 8204 / g 8204 8210 1 0 flushed / marks 8210 8210 8210 8192
same | crash --stop-log 0 | 2 f b1 3 101 8 | 0 | open none / left 2 1 / recovered 0 8210 / p 3 8210 (00*62)07
",
    )
}
