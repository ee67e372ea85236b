// What the tests do where users pass, and where threads are started.
use redo_threads::{Gate, Point};
use std::sync::atomic::{AtomicU64, Ordering};
use std::thread::yield_now;

/// No thread is refused.
pub const NOBODY: (usize, usize) = (0, 0);

/// Counts how often each point is passed, and the players that ask for a thread. It may hold two users beside one another, and
/// refuse threads.
#[derive(Drop)]
pub struct Watch {
    reserved: AtomicU64,
    copied: AtomicU64,
    linked: AtomicU64,
    closed: AtomicU64,
    /// Whether user 1 is held where it has reserved its group until user 2 has linked one, and user 2 where it has
    /// reserved one until user 1 has.
    holds: bool,
    /// How often a user that was held has seen what it waited for.
    seen: AtomicU64,
    players: AtomicU64,
    /// The threads of the actors from the first number up to the second are refused.
    refused: (usize, usize),
}

/// Waits until a count is so high, for so many turns at most, and tells whether it came to that.
fn comes(count: &AtomicU64, least: u64) -> bool {
    for _ in 0..1_000_000 {
        if count.load(Ordering::SeqCst) >= least {
            return true;
        }
        yield_now();
    }
    false
}

impl Watch {
    pub fn new(holds: bool, refused: (usize, usize)) -> Watch {
        Watch {
            reserved: AtomicU64::new(0),
            copied: AtomicU64::new(0),
            linked: AtomicU64::new(0),
            closed: AtomicU64::new(0),
            holds,
            seen: AtomicU64::new(0),
            players: AtomicU64::new(0),
            refused,
        }
    }

    fn count_of(&self, point: Point) -> &AtomicU64 {
        match point {
            Point::Reserved => &self.reserved,
            Point::Copied => &self.copied,
            Point::Linked => &self.linked,
            Point::Closed => &self.closed,
        }
    }

    /// How often each point was passed: reserved, copied, linked, and closed.
    pub fn passed(&self) -> (u64, u64, u64, u64) {
        (
            self.reserved.load(Ordering::SeqCst),
            self.copied.load(Ordering::SeqCst),
            self.linked.load(Ordering::SeqCst),
            self.closed.load(Ordering::SeqCst),
        )
    }

    /// How often a user that was held has seen what it waited for.
    pub fn seen(&self) -> u64 {
        self.seen.load(Ordering::SeqCst)
    }

    /// How many players asked for a thread.
    pub fn players(&self) -> u64 {
        self.players.load(Ordering::SeqCst)
    }
}

impl Gate for Watch {
    fn pass(&self, who: u32, point: Point) {
        self.count_of(point).fetch_add(1, Ordering::SeqCst);
        if !self.holds || point != Point::Reserved {
            return;
        }
        let came = if who == 1 {
            comes(&self.linked, 1)
        } else {
            comes(&self.reserved, 2)
        };
        self.seen.fetch_add(u64::from(came), Ordering::SeqCst);
    }

    fn refuses(&self, number: usize) -> bool {
        self.players.fetch_add(1, Ordering::SeqCst);
        self.refused.0 <= number && number < self.refused.1
    }
}
