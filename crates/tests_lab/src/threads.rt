// Runs in threads.
use crate::calls::Call;
use crate::devices::blank;
use crate::stops::{crash_at, fail_each_call};
use crate::tables::is_told;
use redo_threads::{Gate, Point};
use std::process::Abort;
use std::sync::Wait;
use std::sync::atomic::{AtomicU64, Ordering};
use std::test::Fail;
use std::thread::{Threads, yield_now};

/// Holds user 1 at a point until user 2 came to another point so many times, and user 2 at its first reservation until user 1 came
/// to its point.
#[derive(Drop)]
struct TwoUsers {
    held_at: Point,
    until: Point,
    times: u64,
    /// How often user 1 came to its point.
    first: AtomicU64,
    /// How often user 2 came to these.
    reserved: AtomicU64,
    linked: AtomicU64,
    /// How often a user that was held saw what it waited for.
    seen: AtomicU64,
}

impl TwoUsers {
    fn new(held_at: Point, until: Point, times: u64) -> TwoUsers {
        TwoUsers {
            held_at,
            until,
            times,
            first: AtomicU64::new(0),
            reserved: AtomicU64::new(0),
            linked: AtomicU64::new(0),
            seen: AtomicU64::new(0),
        }
    }

    /// Waits until a count is this high, for so many turns at most.
    fn wait(&self, count: &AtomicU64, times: u64) {
        for _ in 0..1_000_000 {
            if count.load(Ordering::SeqCst) >= times {
                self.seen.fetch_add(1, Ordering::SeqCst);
                return;
            }
            yield_now();
        }
    }

    /// How often user 2 came to the point that user 1 waits for.
    fn awaited(&self) -> &AtomicU64 {
        match self.until {
            Point::Linked => &self.linked,
            _ => &self.reserved,
        }
    }
}

impl Gate for TwoUsers {
    fn pass(&self, who: u32, point: Point) {
        match (who, point) {
            (1, at) if at == self.held_at => {
                self.first.fetch_add(1, Ordering::SeqCst);
                self.wait(self.awaited(), self.times);
            }
            (2, Point::Reserved) => {
                if self.reserved.fetch_add(1, Ordering::SeqCst) == 0 {
                    self.wait(&self.first, 1);
                }
            }
            (2, Point::Linked) => {
                self.linked.fetch_add(1, Ordering::SeqCst);
            }
            _ => {}
        }
    }
}

/// What a crash with a line of user 1 and two of user 2 on another page comes to, held by this gate.
fn told_gated(
    rt: &(impl AllocGlobal + Threads + Wait + Sync),
    words: &str,
    gate: &TwoUsers,
) -> Result<String, Fail> {
    let devices = blank(rt.alloc())?;
    let script = "1 f b1 3 100 7\n2 f b1 4 100 8\n2 f b1 4 101 9\n";
    let mut call = Call::by(rt.alloc(), "", words, script)?;
    let _left = call.make(rt, devices, gate)?;
    call.told(rt.alloc())
}

/// Sees that in such a crash, with this gate, both users see what they wait for, and all lines are read.
fn see_gated(
    rt: &(impl Abort + AllocGlobal + Threads + Wait + Sync),
    words: &str,
    gate: &TwoUsers,
) -> Result<(), Fail> {
    let told = told_gated(rt, words, gate)?;
    let is_read = is_told(&told, "0\nopen 8204\n..\nrecovered 3 8222\n..");
    let seen = gate.seen.load(Ordering::SeqCst);
    assert!(rt; is_read && seen == 2, "{words}: {seen} {told}");
    Ok(())
}

/// While user 1 is held with a reserved place, user 2 links a group; while it is held with a linked one, user 2 is answered, and
/// goes on. Each user waits for the other, so that the test fails where the actors play one after another.
#[test]
fn gate_two_users(rt: HostRuntime) -> Result<(), Fail> {
    for words in [
        "crash --threads",
        "crash --threads --log-only",
        "crash --threads --own-writes",
        "crash --threads --own-writes --log-only",
    ] {
        let reserved = TwoUsers::new(Point::Reserved, Point::Linked, 1);
        see_gated(&rt, words, &reserved)?;
        let linked = TwoUsers::new(Point::Linked, Point::Reserved, 2);
        see_gated(&rt, words, &linked)?;
    }
    Ok(())
}

/// Counts the players that ask for a thread.
#[derive(Drop)]
struct Players {
    count: AtomicU64,
}

impl Gate for Players {
    fn pass(&self, _who: u32, _point: Point) {}

    fn refuses(&self, _number: usize) -> bool {
        self.count.fetch_add(1, Ordering::SeqCst);
        false
    }
}

/// Beside two users play writer, flusher, and with the pages closer, cleaner and checkpointer. Where users write for themselves,
/// nobody plays the writer or the flusher.
#[test]
fn users_that_write_have_no_writer(rt: HostRuntime) -> Result<(), Fail> {
    for (words, players) in [
        ("run --threads --log-only", 4),
        ("run --threads", 7),
        ("run --threads --own-writes --log-only", 2),
        ("run --threads --own-writes", 5),
    ] {
        let gate = Players {
            count: AtomicU64::new(0),
        };
        let devices = blank(rt.alloc())?;
        let script = "1 f b1 3 100 7\n2 f b1 4 100 8\n";
        let mut call = Call::by(rt.alloc(), "", words, script)?;
        let _left = call.make(&rt, devices, &gate)?;
        let count = gate.count.load(Ordering::SeqCst);
        assert!(rt; count == players, "{words}: {count}");
    }
    Ok(())
}

/// Crashes in threads with these stops, where `@` is the number of calls before them. In threads no number of calls is sure to be
/// all of them, so it isn't asked whether a stop shows.
fn stop_threads(
    rt: &(impl Abort + AllocGlobal + Threads + Wait + Sync),
    stops: &str,
) -> Result<(), Fail> {
    for calls in 0..61u64 {
        let _is_whole = crash_at(rt, stops, calls)?;
    }
    Ok(())
}

#[test]
fn keeps_flushed_lines_where_a_device_stops_users_in_threads(rt: HostRuntime) -> Result<(), Fail> {
    stop_threads(&rt, "--threads --own-writes --stop-log @")?;
    stop_threads(&rt, "--threads --own-writes --stop-data @")
}

#[test]
fn keeps_flushed_lines_where_the_log_device_stops_threads(rt: HostRuntime) -> Result<(), Fail> {
    stop_threads(&rt, "--threads --stop-log @")
}

#[test]
fn keeps_flushed_lines_where_the_data_device_stops_threads(rt: HostRuntime) -> Result<(), Fail> {
    stop_threads(&rt, "--threads --stop-data @")
}

#[test]
fn keeps_flushed_lines_where_both_devices_stop_threads(rt: HostRuntime) -> Result<(), Fail> {
    stop_threads(&rt, "--threads --stop-log @ --stop-data @")
}

#[test]
fn keeps_flushed_lines_where_a_call_of_the_log_device_fails_threads(
    rt: HostRuntime,
) -> Result<(), Fail> {
    fail_each_call(&rt, "--threads", "log", "6\nfault log device\n")?;
    fail_each_call(
        &rt,
        "--threads --own-writes",
        "log",
        "6\nfault log device\n",
    )
}

#[test]
fn keeps_flushed_lines_where_a_call_of_the_data_device_fails_threads(
    rt: HostRuntime,
) -> Result<(), Fail> {
    fail_each_call(&rt, "--threads", "data", "7\nfault data device\n")
}
