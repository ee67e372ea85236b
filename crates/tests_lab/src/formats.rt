// Stores of earlier formats, which a run takes to format 3, and log devices of which a header block is lost.
use crate::calls::call_on;
use crate::devices::{MemDevices, change};
use crate::tables::{expect, left_by, left_of, play, play_with};
use redo_disk::{DevError, Sectors};
use redo_memdisk::MemDisk;
use std::alloc::Global;
use std::process::Abort;
use std::sync::Wait;
use std::test::Fail;
use std::thread::Threads;

/// A store of format 1 is read and listed by it, and a run takes it to format 3, with two checkpoints more.
#[test]
fn takes_a_store_of_the_first_format_to_the_third(rt: HostRuntime) -> Result<(), Fail> {
    play(
        &rt,
        "
new          | run  | 1 f b1 3 100 7 | 0 | open 8204 / g 8204 8210 1 0 flushed / marks 8210 8210 8210 8192
first format | recover |             | 0 | read 1 8210 / p 3 8210 (00*62)07
same         | dump --why |          | 0 | store 4096 8 1 2048 8 / checkpoint 1 8192 / block 8192 17 18 12 1 / stop 8192 partial / group 8204 8210 1 / rec b1 3 100 7 / end 8210
same         | run  |                | 0 | open 8716 / marks 8716 8716 8716 8704
same         | dump --why |          | 0 | store 4096 8 1 2048 128 / checkpoint 3 8704 / stop 8704 number / end 8716
same         | recover |             | 0 | read 0 8716 / p 3 8210 (00*62)07
same         | run  | 1 f b1 3 101 9 | 0 | open 8716 / g 8716 8722 1 0 flushed / marks 8722 8722 8722 8704
same         | dump |                | 0 | store 4096 8 1 2048 128 / checkpoint 4 8704 / block 8704 18 18 12 0 / group 8716 8722 1 / rec b1 3 101 9 / end 8722
same         | recover |             | 0 | read 1 8722 / p 3 8722 (00*62)0709
",
    )
}

/// A store of format 2 is read and listed by it too, and a run takes it to format 3 with one checkpoint more.
#[test]
fn takes_a_store_of_the_second_format_to_the_third(rt: HostRuntime) -> Result<(), Fail> {
    play(
        &rt,
        "
new           | run  | 1 f b1 3 100 7 | 0 | open 8204 / g 8204 8210 1 0 flushed / marks 8210 8210 8210 8192
second format | recover |             | 0 | read 1 8210 / p 3 8210 (00*62)07
same          | dump --why |          | 0 | store 4096 8 1 2048 8 / checkpoint 1 8192 / block 8192 17 18 12 0 / stop 8192 partial / group 8204 8210 1 / rec b1 3 100 7 / end 8210
same          | run  |                | 0 | open 8716 / marks 8716 8716 8716 8704
same          | dump --why |          | 0 | store 4096 8 1 2048 128 / checkpoint 2 8704 / stop 8704 number / end 8716
same          | recover |             | 0 | read 0 8716 / p 3 8210 (00*62)07
same          | run  | 1 f b1 3 101 9 | 0 | open 8716 / g 8716 8722 1 0 flushed / marks 8722 8722 8722 8704
same          | dump |                | 0 | store 4096 8 1 2048 128 / checkpoint 3 8704 / block 8704 18 18 12 0 / group 8716 8722 1 / rec b1 3 101 9 / end 8722
same          | recover |             | 0 | read 1 8722 / p 3 8722 (00*62)0709
",
    )
}

/// The same where the run is crashed, by each drive.
#[test]
fn crashes_a_store_of_an_earlier_format(rt: HostRuntime) -> Result<(), Fail> {
    for format in ["first", "second"] {
        play_with(
            &rt,
            format,
            "
tearing  | run             | 1 f b1 3 100 7 | 0 | open 8204 / g 8204 8210 1 0 flushed / marks 8210 8210 8210 8192
@ format | crash           | 1 f b1 3 101 9 | 0 | open 8716 / g 8716 8722 1 0 flushed / marks 8722 8722 8722 8704 / recovered 1 8722 / p 3 8722 (00*62)0709
tearing  | run             | 1 f b1 3 100 7 | 0 | open 8204 / g 8204 8210 1 0 flushed / marks 8210 8210 8210 8192
@ format | crash --threads | 1 f b1 3 101 9 | 0 | open 8716 / g 8716 8722 1 0 flushed / marks 8722 8722 8722 8704 / recovered 1 8722 / p 3 8722 (00*62)0709
",
        )?;
    }
    Ok(())
}

/// The bytes of a device.
fn bytes_of(alloc: Global, device: &mut MemDisk) -> Result<Vec<u8>, DevError> {
    let length = device.len() / 512 * 512;
    let mut bytes = vec![in alloc; 0u8; length as usize]?;
    device.read(0, bytes.as_mut_slice())?;
    Ok(bytes)
}

/// The devices of a store of format 2 that hold 1,088 sectors, cut to so many. Its second header is lost.
fn cut_to(
    rt: &(impl Abort + AllocGlobal + Threads + Wait + Sync),
    sectors: &str,
) -> Result<MemDevices, Fail> {
    let table = "
new              | run     | 1 f b1 3 100 7 | 0 | open 8204 / g 8204 8210 1 0 flushed / marks 8210 8210 8210 8192
second format    | recover |                | 0 | read 1 8210 / p 3 8210 (00*62)07
second head lost | recover |                | 0 | read 1 8210 / p 3 8210 (00*62)07
data of @        | recover |                | 0 | read 1 8210 / p 3 8210 (00*62)07
";
    left_by(rt, &table.replace(rt.alloc(), "@", sectors)?)
}

/// The slots and places of a store of format 2 end at 65,536 bytes, and those of a run on it at 557,056. On a data device that is
/// shorter than a run asks it is read and listed, and no run opens it. Both devices are as they were then.
#[test]
fn refuses_to_run_where_there_is_no_room_for_the_third_format(rt: HostRuntime) -> Result<(), Fail> {
    for sectors in ["128", "1087"] {
        let mut devices = cut_to(&rt, sectors)?;
        let log = bytes_of(rt.alloc(), &mut devices.log)?;
        let store = bytes_of(rt.alloc(), &mut devices.store)?;
        let mut left = left_of(
            &rt,
            devices,
            "
run             | 1 f b1 3 101 9 | 10 | fault fit store 557056
run --log-only  | 1 f b1 3 101 9 | 10 | fault fit store 557056
crash           | 1 f b1 3 101 9 | 10 | fault fit store 557056
crash --threads | 1 f b1 3 101 9 | 10 | fault fit store 557056
recover         |                |  0 | read 1 8210 / p 3 8210 (00*62)07
dump            |                |  0 | store 4096 8 1 2048 8 / checkpoint 1 8192 / block 8192 17 18 12 0 / group 8204 8210 1 / rec b1 3 100 7 / end 8210
",
        )?;
        let is_as_it_was = bytes_of(rt.alloc(), &mut left.log)? == log;
        assert!(rt; is_as_it_was && bytes_of(rt.alloc(), &mut left.store)? == store);
    }
    Ok(())
}

/// A store whose newest page is page 3.
const RUN: &str =
    "tearing | run | 1 f b1 3 100 7 | 0 | open 8204 / g 8204 8210 1 0 flushed / marks 8210 8210 8210 8192";

/// Whether opening comes to its end on such a store, as one of format 1, in a crash with no line, which stops it after so many calls
/// of the log device. Page 3 is read then and again, which rows say.
fn crash_opening(
    rt: &(impl Abort + AllocGlobal + Threads + Wait + Sync),
    stop: u64,
    pick: u64,
) -> Result<bool, Fail> {
    let mut devices = left_by(rt, RUN)?;
    change(&mut devices, "first format")?;
    let words = format!(in rt.alloc(); "crash --stop-log {stop} --pick {pick}")?;
    let (report, devices) = call_on(rt, &words, "", devices)?;
    expect(rt, &words, &report, "0 | .. / p 3 8210 (00*62)07")?;
    left_of(rt, devices, "recover | | 0 | .. / p 3 8210 (00*62)07")?;
    Ok(report.starts_with("0\nopen 8716\n"))
}

/// The first number of calls, below 200, at which opening comes to its end with this pick.
fn stops_of_opening(
    rt: &(impl Abort + AllocGlobal + Threads + Wait + Sync),
    pick: u64,
) -> Result<u64, Fail> {
    for stop in 0..200u64 {
        if crash_opening(rt, stop, pick)? {
            return Ok(stop);
        }
    }
    Ok(200)
}

/// How many calls of the log device opening makes of it: the header, a stretch of blocks and the header blocks are read, and a sync
/// comes; the header is put into block 2; 2,047 blocks are cleared by writes of 128, and synced; the checkpoint is put; all 2,048
/// blocks are cleared, and synced; and the second checkpoint is put, and two headers each of formats 2 and 3.
const CALLS: u64 = 3 + 1 + 2 + (16 + 1) + 2 + (16 + 1) + (1 + 2 + 2) * 2;

/// Opening is stopped at each call of the log device, and a crash tears what was written since the last sync, or keeps every other
/// sector of it, or all of it.
#[test]
fn keeps_pages_where_opening_the_first_format_stops(rt: HostRuntime) -> Result<(), Fail> {
    for pick in [0, 6_148_914_691_236_517_205, 18_446_744_073_709_551_615] {
        let stop = stops_of_opening(&rt, pick)?;
        assert!(rt; stop == CALLS, "{stop} calls at {pick}");
    }
    Ok(())
}

/// Each header block stands in for the other one, and the next run makes both alike. A store of which both are lost is refused
/// and never formatted but by `format`; one of which both are zeros is new.
#[test]
fn reads_either_header_block(rt: HostRuntime) -> Result<(), Fail> {
    play(
        &rt,
        "
new              | run     | 1 f b1 3 100 7 | 0 | open 8204 / g 8204 8210 1 0 flushed / marks 8210 8210 8210 8192
first head lost  | recover |                | 0 | read 1 8210 / p 3 8210 (00*62)07
same             | run     | 1 f b1 3 101 9 | 0 | open 8716 / g 8716 8722 1 0 flushed / marks 8722 8722 8722 8704
second head lost | recover |                | 0 | read 1 8722 / p 3 8722 (00*62)0709
same             | run     |                | 0 | open 9228 / marks 9228 9228 9228 9216
no first head    | run     | 1 f b1 3 102 8 | 0 | open 9228 / g 9228 9234 1 0 flushed / marks 9234 9234 9234 9216
no second head   | recover |                | 0 | read 1 9234 / p 3 9234 (00*62)070908
first head lost  | recover |                | 8 | fault store unformatted
same             | run     | 1 f b1 3 100 7 | 8 | fault store unformatted
same             | crash   | 1 f b1 3 100 7 | 8 | fault store unformatted
no first head    | run     | 1 f b1 3 100 7 | 0 | open 8204 / g 8204 8210 1 0 flushed / marks 8210 8210 8210 8192
first head lost  | recover |                | 0 | read 1 8210 / p 3 8210 (00*62)07
second head lost | run     | 1 f b1 3 100 7 | 8 | fault store unformatted
same             | format  |                | 0 | formatted 8192
same             | run     | 1 f b1 3 100 7 | 0 | open 8204 / g 8204 8210 1 0 flushed / marks 8210 8210 8210 8192
",
    )
}
