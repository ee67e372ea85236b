// Sources, sinks and devices that fail.
use crate::calls::{LINE, call_on, calls_of_opening, log_calls};
use crate::devices::new_devices;
use crate::tables::{play, play_after_opening, play_at};
use std::process::Abort;
use std::sync::Wait;
use std::test::Fail;
use std::thread::Threads;

/// After the opening comes the write of the first line's block, and then its sync.
#[test]
fn loses_a_line_whose_sync_is_stopped(rt: HostRuntime) -> Result<(), Fail> {
    play_after_opening(
        &rt,
        1,
        "
new | crash --stop-log @            | 1 f b1 3 100 7 / 1 f b1 3 100 8 / | 0 | open 8204 / g 8204 8210 1 0 lost / left 1 1 / marks 8210 8210 8204 8192 / recovered 0 8204
new | crash --log-only --stop-log @ | 1 f b1 3 100 7 / 1 f b1 3 100 8 / | 0 | open 8204 / g 8204 8210 1 0 lost / left 1 1 / marks 8210 8210 8204 8192 / recovered 0 8204
",
    )
}

/// Opening is stopped exactly where the stop comes before its last call.
#[test]
fn opens_nothing_where_opening_is_stopped(rt: HostRuntime) -> Result<(), Fail> {
    let last = calls_of_opening(&rt)?.saturating_sub(1);
    let stopped = "new | crash --stop-log @ | 1 f b1 3 100 7 | 0 | open none / left 1 1 / ..";
    play_at(&rt, 0, stopped)?;
    play_at(&rt, last, stopped)?;
    let opened = "new | crash --stop-log @ | 1 f b1 3 100 7 | 0 | open 8204 / ..";
    play_after_opening(&rt, 0, opened)
}

#[test]
fn loses_a_line_whose_sync_fails(rt: HostRuntime) -> Result<(), Fail> {
    let (early, opening) = log_calls(&rt, "run")?;
    play_at(
        &rt,
        early.saturating_add(opening).saturating_add(1),
        "
log fails @ | crash             | 1 f b1 3 100 7 / 1 f b1 3 100 8 / | 0 | open 8204 / g 8204 8210 1 0 lost / left 1 1 / marks 8210 8210 8204 8192 / recovered 0 8204
log fails @ | run               | 1 f b1 3 100 7 / 1 f b1 3 100 8 / | 6 | open 8204 / g 8204 8210 1 0 lost / left 1 1 / marks 8210 8210 8204 8192 / fault log device
log fails @ | crash --log-only  | 1 f b1 3 100 7 / 1 f b1 3 100 8 / | 0 | open 8204 / g 8204 8210 1 0 lost / left 1 1 / marks 8210 8210 8204 8192 / recovered 0 8204
log fails @ | run --log-only    | 1 f b1 3 100 7 / 1 f b1 3 100 8 / | 6 | open 8204 / g 8204 8210 1 0 lost / left 1 1 / marks 8210 8210 8204 8192 / fault log device
log fails @ | run --followers 1 | 1 f b1 3 100 7 / 1 f b1 3 100 8 / | 6 | open 8204 / g 8204 8210 1 0 lost / left 1 1 / marks 8210 8210 8204 8192 / follow 1 0 8204 00000000 / fault log device
",
    )
}

#[test]
fn tells_that_a_device_failed(rt: HostRuntime) -> Result<(), Fail> {
    play(
        &rt,
        "
log fails 0  | format  | 1 f b1 3 100 7 | 6 | fault log device
log fails 0  | run     | 1 f b1 3 100 7 | 6 | fault log device
log fails 0  | crash   | 1 f b1 3 100 7 | 6 | fault log device
log fails 0  | recover | 1 f b1 3 100 7 | 6 | fault log device
log fails 0  | dump    | 1 f b1 3 100 7 | 6 | fault log device
data fails 0 | format  | 1 f b1 3 100 7 | 7 | fault data device
data fails 0 | run     | 1 f b1 3 100 7 | 7 | fault data device
data fails 0 | crash   | 1 f b1 3 100 7 | 7 | fault data device
",
    )
}

/// The script comes, and the report goes, in pieces of one byte.
#[test]
fn reads_and_prints_in_pieces(rt: HostRuntime) -> Result<(), Fail> {
    play(
        &rt,
        "in pieces | crash | 1 f b1 3 100 7 | 0 | open 8204 / g 8204 8210 1 0 flushed / marks 8210 8210 8210 8192 / recovered 1 8210 / p 3 8210 (00*62)07",
    )
}

/// What a run of the line comes to on new devices of which this one fails this call.
fn told_failing(
    rt: &(impl AllocGlobal + Threads + Wait + Sync),
    device: &str,
    call: u64,
) -> Result<String, Fail> {
    let name = format!(in rt.alloc(); "{device} fails {call}")?;
    let devices = new_devices(rt.alloc(), &name)?;
    let (told, _) = call_on(rt, "run", LINE, devices)?;
    Ok(told)
}

/// How many calls of this device fail a run with this status, each alone, before the first that the run doesn't make.
fn failing_calls(
    rt: &(impl AllocGlobal + Threads + Wait + Sync),
    device: &str,
    status: &str,
) -> Result<u64, Fail> {
    for call in 0..200u64 {
        if !told_failing(rt, device, call)?.starts_with(status) {
            return Ok(call);
        }
    }
    Ok(200)
}

/// Sees that each call of this device that fails alone is told with this status, up to the last one that a run makes.
fn see_failing(
    rt: &(impl Abort + AllocGlobal + Threads + Wait + Sync),
    device: &str,
    status: &str,
) -> Result<(), Fail> {
    let failed = failing_calls(rt, device, status)?;
    // formatting and opening make more calls than these
    assert!(rt; failed > 3, "{device} {failed}");
    for later in [failed, failed.saturating_add(1)] {
        let told = told_failing(rt, device, later)?;
        assert!(rt; told.starts_with("0\n"), "{device} {later}: {told}");
    }
    Ok(())
}

#[test]
fn tells_of_each_call_that_failed(rt: HostRuntime) -> Result<(), Fail> {
    see_failing(&rt, "log", "6\n")?;
    see_failing(&rt, "data", "7\n")
}

/// The run of one line makes no call of the data device after its opening. In this other run the cleaner takes the latch of page 3
/// behind the first line: the user waits for that until the batch fails, and the follower has the group by then.
#[test]
fn tells_of_a_follower_where_a_batch_fails(rt: HostRuntime) -> Result<(), Fail> {
    let opened = failing_calls(&rt, "data", "7\n")?;
    play_at(
        &rt,
        opened,
        "data fails @ | run --turns 2 --followers 1 | 1 f b1 3 100 7 / 1 f b1 3 101 8 / 1 f b1 3 102 9 / | 7 | open 8204 / g 8204 8210 1 0 flushed / left 1 2 / marks 8210 8210 8210 8192 / follow 1 1 8210 e4fd66e1 / fault data device",
    )
}

#[test]
fn tells_that_the_source_failed(rt: HostRuntime) -> Result<(), Fail> {
    play(
        &rt,
        "
source fails | run   | 1 f b1 3 100 7 | 4 | fault source
source fails | crash | 1 f b1 3 100 7 | 4 | fault source
",
    )
}

/// A fault's line that isn't taken leaves the fault's status.
#[test]
fn tells_by_its_status_that_the_sink_failed(rt: HostRuntime) -> Result<(), Fail> {
    play(
        &rt,
        "
sink fails | format          | 1 f b1 3 100 7 | 5
sink fails | run             | 1 f b1 3 100 7 | 5
sink fails | crash           | 1 f b1 3 100 7 | 5
sink fails | gen 1 1 1       | 1 f b1 3 100 7 | 5
sink fails | gen 1 1 1 --run | 1 f b1 3 100 7 | 5
sink fails | recover         | 1 f b1 3 100 7 | 8
sink fails |                 | 1 f b1 3 100 7 | 2
",
    )
}
