// Crashes of a script of four lines under every stop, against what the groups that are kept make of the pages.
use crate::calls::call_on;
use crate::devices::{CUT, Devices, MemDevices};
use redo_memdisk::MemDisk;
use std::alloc::{AllocError, Global};
use std::process::Abort;
use std::sync::Wait;
use std::test::Fail;
use std::thread::Threads;

/// Four lines of two users, in each mode.
const SCRIPT: &str = "1 f b1 3 100 7\n2 w s 4 38 0102\n1 n i 3\n2 f b8 5 40 1;b1 3 101 9\n";

/// A line of the script.
#[derive(Clone, Copy)]
enum Line {
    /// The first of user 1, which puts 7 on page 3.
    Seven,
    /// The first of user 2, which puts a string on page 4.
    Text,
    /// The second of user 1, which clears page 3.
    Clear,
    /// The second of user 2, which puts 1 on page 5 and 9 on page 3, after the 7.
    Nine,
}

/// A group that a report tells of: its line, where it ends, and whether it is flushed.
#[derive(Clone, Copy)]
struct Group {
    line: Line,
    end: u64,
    is_flushed: bool,
}

/// The pick that keeps every other write.
const EVERY_OTHER: u64 = 6_148_914_691_236_517_205;

/// The picks that keep no write, every other write, and all of them.
const PICKS: [u64; 3] = [0, EVERY_OTHER, 18_446_744_073_709_551_615];

/// More calls than the opening and four lines make of a device.
const MANY_CALLS: u64 = 200;

/// So many calls formatting, opening, the four lines and the reading make of a device at the most.
const MOST_CALLS: u64 = 80;

/// The words that make a small store, and how long its devices are.
const FORMAT: &str = "format --pages 6 --log-blocks 1024";

const SMALL_LOG: u64 = 526_336;

const SMALL_STORE: u64 = 548_864;

/// A page with this lsn, as it is printed: not at all where it was never written.
fn page_line(alloc: Global, page: u32, lsn: u64, user: &str) -> Result<String, AllocError> {
    if lsn == 0 {
        return Ok(String::new(alloc));
    }
    format!(in alloc; "p {page} {lsn} {user}\n")
}

/// The user bytes of page 3, which begin at offset 38: the 7 stands at 100, the 9 at 101.
fn third_page(alloc: Global, has_seven: bool, has_nine: bool) -> Result<String, AllocError> {
    match (has_seven, has_nine) {
        (true, true) => format!(in alloc; "{:0128}", 709u32),
        (false, true) => format!(in alloc; "{:0128}", 9u32),
        (true, false) => format!(in alloc; "{:0126}", 7u32),
        (false, false) => format!(in alloc; "-"),
    }
}

/// What is read where these groups are kept, which were applied in their order.
fn reading_of(alloc: Global, kept: &[Group]) -> Result<String, AllocError> {
    let mut end = 8204;
    let (mut third, mut fourth, mut fifth) = (0, 0, 0);
    let (mut has_seven, mut has_nine) = (false, false);
    for group in kept {
        end = group.end;
        match group.line {
            Line::Seven => {
                third = end;
                has_seven = true;
            }
            Line::Text => fourth = end,
            Line::Clear => {
                third = end;
                has_seven = false;
                has_nine = false;
            }
            Line::Nine => {
                third = end;
                fifth = end;
                has_nine = true;
            }
        }
    }
    let third = page_line(alloc, 3, third, &third_page(alloc, has_seven, has_nine)?)?;
    let fourth = page_line(alloc, 4, fourth, "0102")?;
    let fifth = page_line(alloc, 5, fifth, "00000000000000000001")?;
    format!(in alloc; "recovered {} {end}\n{third}{fourth}{fifth}", kept.len())
}

/// The line of this user that is the k-th of its own.
fn line_of(user: &str, k: &str) -> Option<Line> {
    match (user, k) {
        ("1", "0") => Some(Line::Seven),
        ("2", "0") => Some(Line::Text),
        ("1", "1") => Some(Line::Clear),
        ("2", "1") => Some(Line::Nine),
        _ => None,
    }
}

/// The word of a line at this place.
fn word(line: &str, place: usize) -> &str {
    line.split(' ').nth(place).unwrap_or("")
}

/// The group of a line of a report, if it tells of one: `g START END USER K STATE`.
fn group_of(line: &str) -> Option<Group> {
    if word(line, 0) != "g" {
        return None;
    }
    let end = word(line, 2).parse::<u64>().unwrap_or(0);
    let is_flushed = word(line, 5) == "flushed";
    match line_of(word(line, 3), word(line, 4)) {
        Some(line) => Some(Group {
            line,
            end,
            is_flushed,
        }),
        None => None,
    }
}

/// The groups that a report tells of.
fn groups_of(alloc: Global, report: &str) -> Result<Vec<Group>, AllocError> {
    let mut groups = Vec::new(alloc);
    for line in report.lines() {
        if let Some(group) = group_of(line) {
            groups.push(group)?;
        }
    }
    Ok(groups)
}

/// How many lines a report says are left.
fn left_lines(report: &str) -> usize {
    let mut count = 0usize;
    for line in report.lines() {
        if line.starts_with("left ") {
            count = count.saturating_add(if line.ends_with(" 2") { 2 } else { 1 });
        }
    }
    count
}

/// How many of the first groups the report says are kept, where the rest of it is what they make of the pages.
fn kept_groups(alloc: Global, groups: &[Group], report: &str) -> Result<Option<usize>, AllocError> {
    for count in 0..5usize {
        let (kept, _) = groups.split_at(count.min(groups.len()));
        if report.ends_with(reading_of(alloc, kept)?.as_str()) {
            return Ok(Some(kept.len()));
        }
    }
    Ok(None)
}

/// How many of these groups are flushed.
fn flushed(groups: &[Group]) -> usize {
    let mut count = 0usize;
    for group in groups {
        count = count.saturating_add(usize::from(group.is_flushed));
    }
    count
}

/// Whether a report of the four lines is in order: what is read is what the first groups make of the pages, no group after those
/// is flushed, and of each line it is told whether it is a group or left.
fn is_in_order(alloc: Global, report: &str) -> Result<bool, AllocError> {
    let groups = groups_of(alloc, report)?;
    let Some(kept) = kept_groups(alloc, &groups, report)? else {
        return Ok(false);
    };
    let (_, behind) = groups.split_at(kept.min(groups.len()));
    let told = groups.len().saturating_add(left_lines(report));
    Ok(flushed(behind) == 0 && told == 4)
}

/// Whether a stop shows in a report.
fn is_stopped(report: &str) -> bool {
    report.contains(" lost\n") || report.contains("left ") || report.contains("open none")
}

/// What a crash of the four lines comes to on a small store that is formatted on these devices.
fn crash_on(
    rt: &(impl AllocGlobal + Threads + Wait + Sync),
    words: &str,
    devices: MemDevices,
) -> Result<String, Fail> {
    let (formatted, devices) = call_on(rt, FORMAT, "", devices)?;
    if !formatted.starts_with("0\n") {
        return Ok(formatted);
    }
    let (crashed, _) = call_on(rt, words, SCRIPT, devices)?;
    Ok(crashed)
}

/// Small devices that tear the sectors which a crash loses. The device of this name fails this call, the first of which come in
/// formatting.
fn small_devices(alloc: Global, failing: &str, call: u64) -> Result<MemDevices, AllocError> {
    let log = MemDisk::tearing(alloc, SMALL_LOG, CUT)?;
    let store = MemDisk::tearing(alloc, SMALL_STORE, CUT)?;
    let mut devices = Devices::of(alloc, log, store)?;
    let calls = vec![in alloc; call]?;
    match failing {
        "log" => devices.log = MemDisk::tearing_and_failing(alloc, SMALL_LOG, CUT, calls)?,
        "data" => devices.store = MemDisk::tearing_and_failing(alloc, SMALL_STORE, CUT, calls)?,
        _ => {}
    }
    Ok(devices)
}

/// Crashes under these options with a pick: whether no stop shows in the report. Groups that are printed as flushed are kept,
/// and what is read is what the kept groups make of the pages.
fn crash_with_pick(
    rt: &(impl Abort + AllocGlobal + Threads + Wait + Sync),
    options: &str,
    pick: u64,
) -> Result<bool, Fail> {
    let words = format!(in rt.alloc(); "crash {options} --pick {pick}")?;
    let devices = small_devices(rt.alloc(), "none", 0)?;
    let report = crash_on(rt, &words, devices)?;
    let is_in_order = is_in_order(rt.alloc(), &report)?;
    assert!(rt;
        report.starts_with("0\n") && is_in_order,
        "at {words}: {report}"
    );
    Ok(!is_stopped(&report))
}

/// The same with each pick.
fn crash_with_each_pick(
    rt: &(impl Abort + AllocGlobal + Threads + Wait + Sync),
    options: &str,
) -> Result<bool, Fail> {
    let mut is_whole = true;
    for pick in PICKS {
        is_whole = crash_with_pick(rt, options, pick)? && is_whole;
    }
    Ok(is_whole)
}

#[test]
fn keeps_flushed_lines_under_each_schedule(rt: HostRuntime) -> Result<(), Fail> {
    for seed in 0..8u64 {
        let is_whole = crash_at(&rt, "--turns @", seed)?;
        assert!(rt; is_whole, "at {seed}");
    }
    assert!(rt; crash_with_each_pick(&rt, "--log-only")?);
    Ok(())
}

/// Crashes with each pick under these options, where `@` is this number: whether no stop shows.
pub(crate) fn crash_at(
    rt: &(impl Abort + AllocGlobal + Threads + Wait + Sync),
    options: &str,
    number: u64,
) -> Result<bool, Fail> {
    let number = format!(in rt.alloc(); "{number}")?;
    let options = options.replace(rt.alloc(), "@", &number)?;
    crash_with_each_pick(rt, &options)
}

/// Crashes with these stops, where `@` is the number of calls before them: from 0 on, up to where no stop comes before a call.
pub(crate) fn stop_at_each_call(
    rt: &(impl Abort + AllocGlobal + Threads + Wait + Sync),
    stops: &str,
) -> Result<(), Fail> {
    for calls in 0..MANY_CALLS {
        if crash_at(rt, stops, calls)? {
            return Ok(());
        }
    }
    Err(Fail::from("no stop comes behind all calls"))
}

#[test]
fn keeps_flushed_lines_where_the_log_device_stops(rt: HostRuntime) -> Result<(), Fail> {
    stop_at_each_call(&rt, "--turns 1 --stop-log @")
}

#[test]
fn keeps_flushed_lines_where_the_data_device_stops(rt: HostRuntime) -> Result<(), Fail> {
    stop_at_each_call(&rt, "--turns 1 --stop-data @")
}

#[test]
fn keeps_flushed_lines_where_both_devices_stop(rt: HostRuntime) -> Result<(), Fail> {
    stop_at_each_call(&rt, "--turns 1 --stop-log @ --stop-data @")
}

/// Sees that a crash where a device fails this call is told by the fault's line alone, or comes to a report that is in order.
fn see_failing(
    rt: &(impl Abort + AllocGlobal + Threads + Wait + Sync),
    words: &str,
    devices: MemDevices,
    fault: &str,
) -> Result<(), Fail> {
    let report = crash_on(rt, words, devices)?;
    let is_read = report.starts_with("0\n") && is_in_order(rt.alloc(), &report)?;
    assert!(rt; is_read || report.as_str() == fault, "at {words}: {report}");
    Ok(())
}

/// Crashes with each pick where a device fails one of its calls, each alone. In formatting and in the reading after the crash that
/// is told by the fault's line alone. Else the crash comes to a report, which is in order.
pub(crate) fn fail_each_call(
    rt: &(impl Abort + AllocGlobal + Threads + Wait + Sync),
    drive: &str,
    device: &str,
    fault: &str,
) -> Result<(), Fail> {
    for pick in PICKS {
        let words = format!(in rt.alloc(); "crash {drive} --pick {pick}")?;
        for call in 0..MOST_CALLS {
            let devices = small_devices(rt.alloc(), device, call)?;
            see_failing(rt, &words, devices, fault)?;
        }
    }
    Ok(())
}

#[test]
fn keeps_flushed_lines_where_a_call_of_the_log_device_fails(rt: HostRuntime) -> Result<(), Fail> {
    fail_each_call(&rt, "--turns 1", "log", "6\nfault log device\n")
}

#[test]
fn keeps_flushed_lines_where_a_call_of_the_data_device_fails(rt: HostRuntime) -> Result<(), Fail> {
    fail_each_call(&rt, "--turns 1", "data", "7\nfault data device\n")
}
