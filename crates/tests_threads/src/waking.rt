// A slow user: all that wait for it sleep, and what it does wakes them.
use crate::runs::left_by;
use crate::store::{LOG_ALONE, Way};
use crate::text::lines_of;
use redo_threads::{Gate, Point};
use std::sync::atomic::{AtomicU64, Ordering};
use std::test::Fail;
use std::thread::sleep;
use std::time::{Clock, Duration, Instant};

/// Holds user 1 where it has reserved a group, until user 2 has linked as many, and for long enough then that the others are in a
/// sleep that nothing but a ring ends soon.
#[derive(Drop)]
struct SlowUser<'r, R: Clock> {
    rt: &'r R,
    /// How many groups user 1 has reserved, and user 2 has linked.
    reserved: AtomicU64,
    linked: AtomicU64,
}

impl<R: Clock> SlowUser<'_, R> {
    /// Waits until user 2 has linked so many groups, for two seconds at most.
    fn await_links(&self, least: u64) {
        for _ in 0..2_000 {
            if self.linked.load(Ordering::SeqCst) >= least {
                return;
            }
            sleep(self.rt, Duration::from_millis(1));
        }
    }
}

impl<R: Clock + Sync> Gate for SlowUser<'_, R> {
    fn pass(&self, who: u32, point: Point) {
        if who == 1 && point == Point::Reserved {
            let before = self.reserved.fetch_add(1, Ordering::SeqCst);
            self.await_links(before.saturating_add(1));
            sleep(self.rt, Duration::from_millis(10));
        } else if who == 2 && point == Point::Linked {
            self.linked.fetch_add(1, Ordering::SeqCst);
        }
    }
}

/// User 2 waits for FLUSHED behind each of 48 groups of user 1. While that is held, the writer, the flusher and user 2 fall
/// asleep, each for a second if it isn't woken. So a ring that wakes nobody costs up to a second for each group; else the run takes 48
/// times 10 milliseconds and a little. Where users write for themselves, user 2 has been on an errand in vain.
#[test]
fn who_waits_for_a_slow_user_is_woken(rt: HostRuntime) -> Result<(), Fail> {
    let text = lines_of(rt.alloc(), 2, "f", 48, 12)?;
    for own_writes in [false, true] {
        let way = Way {
            own_writes,
            ..LOG_ALONE
        };
        let gate = SlowUser {
            rt: &rt,
            reserved: AtomicU64::new(0),
            linked: AtomicU64::new(0),
        };
        let start = Instant::now(&rt)?;
        left_by(&rt, rt.alloc(), &text, way, &gate)?;
        let took = start.elapsed(&rt)?;
        assert!(&rt; took < Duration::from_secs(40), "{took:?}");
    }
    Ok(())
}
