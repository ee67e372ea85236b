// Runs that are archived, and what is restored of their archives.
use crate::calls::call_on;
use crate::devices::{MemDevices, new_devices};
use crate::followers::{groups_up_to, marks_of, number};
use crate::tables::{play, spelled};
use redo_disk::Sectors;
use std::process::Abort;
use std::sync::Wait;
use std::test::Fail;
use std::thread::Threads;

/// The line's group ends at 8210: up to there its archive goes, and up to each lsn before that none is restored.
#[test]
fn restores_a_group_from_its_end_on(rt: HostRuntime) -> Result<(), Fail> {
    play(
        &rt,
        "
new  | run --archive     | 1 f b1 3 100 7 |  0 | open 8204 / g 8204 8210 1 0 flushed / marks 8210 8210 8210 8192
same | restore --to 8210 |                |  0 | restored 1 8210 / p 3 8210 (00*62)07
same | restore --to 8209 |                |  0 | restored 0 8204
same | restore --to 8204 |                |  0 | restored 0 8204
same | restore --to 8203 |                | 10 | fault fit to 8203
same | restore --to 8211 |                | 10 | fault fit to 8211
same | recover           |                |  0 | read 1 8210 / p 3 8210 (00*62)07
new  | run --archive     |                |  0 | open 8204 / marks 8204 8204 8204 8192
same | restore --to 8204 |                |  0 | restored 0 8204
same | restore --to 8205 |                | 10 | fault fit to 8205
",
    )
}

/// Whoever writes the log, and in threads too.
#[test]
fn restores_a_group_of_each_drive(rt: HostRuntime) -> Result<(), Fail> {
    play(
        &rt,
        "
new  | run --archive --own-writes           | 1 f b1 3 100 7 |  0 | open 8204 / g 8204 8210 1 0 flushed / marks 8210 8210 8210 8192
same | restore --to 8210                    |                |  0 | restored 1 8210 / p 3 8210 (00*62)07
same | restore --to 8211                    |                | 10 | fault fit to 8211
new  | run --archive --threads              | 1 f b1 3 100 7 |  0 | open 8204 / g 8204 8210 1 0 flushed / marks 8210 8210 8210 8192
same | restore --to 8210                    |                |  0 | restored 1 8210 / p 3 8210 (00*62)07
same | restore --to 8211                    |                | 10 | fault fit to 8211
new  | run --archive --threads --own-writes | 1 f b1 3 100 7 |  0 | open 8204 / g 8204 8210 1 0 flushed / marks 8210 8210 8210 8192
same | restore --to 8210                    |                |  0 | restored 1 8210 / p 3 8210 (00*62)07
same | restore --to 8204                    |                |  0 | restored 0 8204
new  | run --archive --threads              |                |  0 | open 8204 / marks 8204 8204 8204 8192
same | restore --to 8204                    |                |  0 | restored 0 8204
",
    )
}

/// The next archive has the pages with which its run was opened, and nothing of the run before.
#[test]
fn begins_each_archive_anew(rt: HostRuntime) -> Result<(), Fail> {
    play(
        &rt,
        "
new  | run --archive     | 1 f b1 3 100 7 |  0 | open 8204 / g 8204 8210 1 0 flushed / marks 8210 8210 8210 8192
same | run --archive     | 1 f b1 3 101 8 |  0 | open 8716 / g 8716 8722 1 0 flushed / marks 8722 8722 8722 8704
same | restore --to 8210 |                | 10 | fault fit to 8210
same | restore --to 8716 |                |  0 | restored 0 8716 / p 3 8210 (00*62)07
same | restore --to 8722 |                |  0 | restored 1 8722 / p 3 8722 (00*62)0708
",
    )
}

/// An archive stands where its run isn't archived, or ends before an archive of its own is due.
#[test]
fn spares_an_archive(rt: HostRuntime) -> Result<(), Fail> {
    play(
        &rt,
        "
new           | run --archive           | 1 f b1 3 100 7  |  0 | open 8204 / g 8204 8210 1 0 flushed / marks 8210 8210 8210 8192
same          | run                     | 1 f b1 3 101 8  |  0 | open 8716 / ..
same          | run --archive           | 1 x             |  3 | fault script line 1
same          | run --archive           | 1 f b2 3 4087 7 | 10 | fault fit offset 4087
same          | run --archive --page 1  |                 |  2 | fault words
same          | crash --archive         |                 |  2 | fault words
no checkpoint | run --archive           |                 |  8 | fault store checkpoint
same          | restore --to 8210       |                 |  0 | restored 1 8210 / p 3 8210 (00*62)07
",
    )
}

/// The archive takes three blocks, eight pages of 4096 bytes, and a block of the log with the one that is next.
#[test]
fn asks_for_room(rt: HostRuntime) -> Result<(), Fail> {
    play(
        &rt,
        "
new           | format            |                |  0 | formatted 8192
archive of 67 | run --archive     | 1 f b1 3 100 7 | 10 | fault fit archive 34816
new           | format            |                |  0 | formatted 8192
archive of 68 | run --archive     | 1 f b1 3 100 7 |  0 | open 8204 / g 8204 8210 1 0 flushed / marks 8210 8210 8210 8192
same          | restore --to 8210 |                |  0 | restored 1 8210 / p 3 8210 (00*62)07
",
    )
}

/// Where the turns are spent the archive stays as the run left it.
#[test]
fn archives_a_run_whose_turns_are_spent(rt: HostRuntime) -> Result<(), Fail> {
    play(
        &rt,
        "
new  | run --archive --max 0              | 1 f b1 3 100 7 |  9 | fault turns 0 user 1
same | restore --to 8204                  |                |  0 | restored 0 8204
same | restore --to 8205                  |                | 10 | fault fit to 8205
new  | run --archive --own-writes --max 0 | 1 f b1 3 100 7 |  9 | fault turns 0 user 1
same | restore --to 8204                  |                |  0 | restored 0 8204
",
    )
}

/// Three lines: the groups of two take a block each.
const LINES: &str = "1 f s 3 38 (07*489) / 1 f b1 4 100 7 / 1 w s 5 38 (08*489) /";

/// The picks that keep no write, every other write, and all of them.
const PICKS: [u64; 3] = [0, 6_148_914_691_236_517_205, 18_446_744_073_709_551_615];

/// Sees what is restored for this lsn: just the groups of the report that end at or below it; or nothing, since it is above the
/// mark of the archive, as it is where it is above FLUSHED. It tells if something is.
fn see_restored(
    rt: &(impl Abort + AllocGlobal + Threads + Wait + Sync),
    report: &str,
    flushed: u64,
    lsn: u64,
    devices: MemDevices,
) -> Result<(bool, MemDevices), Fail> {
    let words = format!(in rt.alloc(); "restore --to {lsn}")?;
    let (told, left) = call_on(rt, &words, "", devices)?;
    let groups = format!(in rt.alloc(); "0\nrestored {} ", groups_up_to(report, lsn))?;
    let above = format!(in rt.alloc(); "10\nfault fit to {lsn}\n")?;
    let is_there = lsn <= flushed && told.starts_with(groups.as_str());
    assert!(rt; is_there || told == above, "{report}{words}: {told}");
    Ok((is_there, left))
}

/// Sees what is restored of the archive of a reported run, where it starts and at the end of each group; whether something is for
/// FLUSHED.
fn see_archive(
    rt: &(impl Abort + AllocGlobal + Threads + Wait + Sync),
    report: &str,
    devices: MemDevices,
) -> Result<bool, Fail> {
    let Some((flushed, _)) = marks_of(report) else {
        return Err(Fail::from("no run is reported"));
    };
    let (is_begun, mut left) = see_restored(rt, report, flushed, 8204, devices)?;
    let mut mark = if is_begun { 8204 } else { 0 };
    for line in report.lines() {
        if line.starts_with("g ") {
            let end = number(line, 2);
            let (is_there, devices) = see_restored(rt, report, flushed, end, left)?;
            left = devices;
            if is_there {
                mark = end;
            }
        }
    }
    if is_begun {
        Ok(mark == flushed)
    } else {
        Err(Fail::from("the archive isn't there"))
    }
}

/// Runs the three lines, archived, on devices of this name: the report, and the devices after it.
fn run_on(
    rt: &(impl AllocGlobal + Threads + Wait + Sync),
    words: &str,
    devices: &str,
) -> Result<(String, MemDevices), Fail> {
    let script = spelled(rt.alloc(), LINES)?;
    call_on(rt, words, &script, new_devices(rt.alloc(), devices)?)
}

#[test]
fn restores_each_prefix_of_a_run(rt: HostRuntime) -> Result<(), Fail> {
    for words in [
        "run --archive",
        "run --archive --turns 1",
        "run --archive --turns 2",
        "run --archive --log-only",
        "run --archive --followers 4",
        "run --archive --log-only --followers 1 --turns 3",
        "run --archive --own-writes",
        "run --archive --own-writes --turns 1",
        "run --archive --own-writes --log-only --followers 1",
        "run --archive --threads",
        "run --archive --threads --log-only",
        "run --archive --threads --followers 4",
        "run --archive --threads --own-writes --followers 1",
    ] {
        let (report, mut left) = run_on(&rt, words, "new")?;
        left.arch.crash(0);
        assert!(rt; report.starts_with("0\n"), "{words}: {report}");
        assert!(rt; groups_up_to(&report, u64::MAX) == 3, "{words}: {report}");
        assert!(rt; see_archive(&rt, &report, left)?, "{words}: {report}");
    }
    Ok(())
}

/// A drive by turns, and others.
const BY_TURNS: &str = "run --archive --turns 1";

const OTHERS: [&str; 2] = [
    "run --archive --own-writes --turns 1",
    "run --archive --threads",
];

/// Sees to the archives of runs of which a device of this name fails a call, each alone, up to the last one that a run makes: that
/// is told with this status; and if `all` is set the archive of a reported run goes up to FLUSHED.
fn see_failing(
    rt: &(impl Abort + AllocGlobal + Threads + Wait + Sync),
    words: &str,
    device: &str,
    status: &str,
    all: bool,
    pick: u64,
) -> Result<(), Fail> {
    for call in 0..200u64 {
        let name = format!(in rt.alloc(); "{device} fails {call}")?;
        let (report, mut left) = run_on(rt, words, &name)?;
        // formatting and opening, or the archive's beginning, make more calls than these
        if call > 3 && report.starts_with("0\n") {
            return Ok(());
        }
        let mut is_so = report.starts_with(status);
        if marks_of(&report).is_some() {
            left.arch.crash(pick);
            let is_whole = see_archive(rt, &report, left)?;
            is_so = is_so && (is_whole || !all);
        }
        assert!(rt; is_so, "{words}, {name}: {report}");
    }
    Err(Fail::from("no call comes behind all others"))
}

#[test]
fn archives_a_run_that_the_archives_device_ends(rt: HostRuntime) -> Result<(), Fail> {
    for pick in PICKS {
        see_failing(&rt, BY_TURNS, "archive", "11\n", false, pick)?;
    }
    Ok(())
}

#[test]
fn archives_a_run_that_the_log_device_ends(rt: HostRuntime) -> Result<(), Fail> {
    see_failing(&rt, BY_TURNS, "log", "6\n", false, 0)
}

/// What the archive lacks is appended though the data device has failed.
#[test]
fn archives_all_of_a_run_that_the_data_device_ends(rt: HostRuntime) -> Result<(), Fail> {
    see_failing(&rt, BY_TURNS, "data", "7\n", true, 0)
}

/// Of users that write for themselves, and in threads.
#[test]
fn archives_other_runs_that_the_archives_device_ends(rt: HostRuntime) -> Result<(), Fail> {
    for words in OTHERS {
        see_failing(&rt, words, "archive", "11\n", false, PICKS[1])?;
    }
    Ok(())
}

#[test]
fn archives_other_runs_that_a_device_of_the_store_ends(rt: HostRuntime) -> Result<(), Fail> {
    for words in OTHERS {
        see_failing(&rt, words, "log", "6\n", false, 0)?;
        see_failing(&rt, words, "data", "7\n", true, 0)?;
    }
    Ok(())
}
