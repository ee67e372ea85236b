// Calls whose users write the log for themselves.
use crate::calls::log_calls;
use crate::stops::stop_at_each_call;
use crate::tables::{play, play_after_opening, play_at};
use std::test::Fail;

/// The report of a line doesn't tell who wrote it.
#[test]
fn reads_what_users_wrote(rt: HostRuntime) -> Result<(), Fail> {
    play(
        &rt,
        "
new  | run --own-writes                 | 1 f b1 3 100 7 | 0 | open 8204 / g 8204 8210 1 0 flushed / marks 8210 8210 8210 8192
same | recover                          |                | 0 | read 1 8210 / p 3 8210 (00*62)07
new  | crash --own-writes               | 1 f b1 3 100 7 | 0 | open 8204 / g 8204 8210 1 0 flushed / marks 8210 8210 8210 8192 / recovered 1 8210 / p 3 8210 (00*62)07
new  | crash --own-writes --log-only    | 1 f b1 3 100 7 | 0 | open 8204 / g 8204 8210 1 0 flushed / marks 8210 8210 8210 8192 / recovered 1 8210 / p 3 8210 (00*62)07
new  | crash --own-writes --turns 5     | 1 f b1 3 100 7 | 0 | open 8204 / g 8204 8210 1 0 flushed / marks 8210 8210 8210 8192 / recovered 1 8210 / p 3 8210 (00*62)07
new  | crash --own-writes --followers 2 | 1 f b1 3 100 7 | 0 | open 8204 / g 8204 8210 1 0 flushed / marks 8210 8210 8210 8192 / follow 1 ..follow 2 ..recovered 1 8210 / p 3 8210 (00*62)07
new  | run --own-writes --followers 2   |                | 0 | open 8204 / marks 8204 8204 8204 8192 / follow 1 0 8204 00000000 / follow 2 0 8204 00000000
new  | crash --own-writes --stop-log 0  | 1 f b1 3 100 7 | 0 | open none / left 1 1 / recovered 0 8204
",
    )
}

/// The same in threads, each user in one of its own.
#[test]
fn reads_what_users_wrote_in_threads(rt: HostRuntime) -> Result<(), Fail> {
    play(
        &rt,
        "
new  | run --own-writes --threads                 |                | 0 | open 8204 / marks 8204 8204 8204 8192
new  | run --own-writes --threads                 | 1 f b1 3 100 7 | 0 | open 8204 / g 8204 8210 1 0 flushed / marks 8210 8210 8210 8192
same | recover                                    |                | 0 | read 1 8210 / p 3 8210 (00*62)07
new  | crash --own-writes --threads               | 1 f b1 3 100 7 | 0 | open 8204 / g 8204 8210 1 0 flushed / marks 8210 8210 8210 8192 / recovered 1 8210 / p 3 8210 (00*62)07
new  | crash --threads --own-writes --log-only    | 1 f b1 3 100 7 | 0 | open 8204 / g 8204 8210 1 0 flushed / marks 8210 8210 8210 8192 / recovered 1 8210 / p 3 8210 (00*62)07
new  | crash --own-writes --threads --followers 2 | 1 f b1 3 100 7 | 0 | open 8204 / g 8204 8210 1 0 flushed / marks 8210 8210 8210 8192 / follow 1 ..follow 2 ..recovered 1 8210 / p 3 8210 (00*62)07
new  | crash --own-writes --threads --stop-log 0  | 1 f b1 3 100 7 | 0 | open none / left 1 1 / recovered 0 8204
",
    )
}

/// `gen` has no such option.
#[test]
fn refuses_other_users_that_write(rt: HostRuntime) -> Result<(), Fail> {
    play(
        &rt,
        "
new | gen 1 1 1 --run --own-writes   | 1 f b1 3 100 7 | 2 | fault words
new | run --own-writes --max 0       | 1 f b1 3 100 7 | 9 | fault turns 0 user 1
",
    )
}

/// After the opening comes the write of the first line's block, and then its sync.
#[test]
fn loses_a_line_whose_user_syncs_in_vain(rt: HostRuntime) -> Result<(), Fail> {
    play_after_opening(
        &rt,
        1,
        "
new | crash --own-writes --stop-log @           | 1 f b1 3 100 7 / 1 f b1 3 100 8 / | 0 | open 8204 / g 8204 8210 1 0 lost / left 1 1 / marks 8210 8210 8204 8192 / recovered 0 8204
new | crash --own-writes --threads --stop-log @ | 1 f b1 3 100 7 / 1 f b1 3 100 8 / | 0 | open 8204 / g 8204 8210 1 0 lost / left 1 1 / marks 8210 8210 8204 8192 / recovered 0 8204
",
    )?;
    let (early, opening) = log_calls(&rt, "run")?;
    play_at(
        &rt,
        early.saturating_add(opening).saturating_add(1),
        "
log fails @ | crash --own-writes           | 1 f b1 3 100 7 / 1 f b1 3 100 8 / | 0 | open 8204 / g 8204 8210 1 0 lost / left 1 1 / marks 8210 8210 8204 8192 / recovered 0 8204
log fails @ | run --own-writes             | 1 f b1 3 100 7 / 1 f b1 3 100 8 / | 6 | open 8204 / g 8204 8210 1 0 lost / left 1 1 / marks 8210 8210 8204 8192 / fault log device
log fails @ | crash --own-writes --threads | 1 f b1 3 100 7 / 1 f b1 3 100 8 / | 0 | open 8204 / g 8204 8210 1 0 lost / left 1 1 / marks 8210 8210 8204 8192 / recovered 0 8204
log fails @ | run --own-writes --threads   | 1 f b1 3 100 7 / 1 f b1 3 100 8 / | 6 | open 8204 / g 8204 8210 1 0 lost / left 1 1 / marks 8210 8210 8204 8192 / fault log device
",
    )
}

#[test]
fn keeps_flushed_lines_where_the_log_device_stops_users(rt: HostRuntime) -> Result<(), Fail> {
    stop_at_each_call(&rt, "--own-writes --turns 1 --stop-log @")
}

#[test]
fn keeps_flushed_lines_where_the_data_device_stops_users(rt: HostRuntime) -> Result<(), Fail> {
    stop_at_each_call(&rt, "--own-writes --turns 1 --stop-data @")
}
