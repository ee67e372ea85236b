// Where a test may hold a user, and refuse a player its thread.
use redo_words::{Op, Word};

/// A point in each group of a user, right after the step that it is named for.
#[derive(Clone, Copy, Debug, PartialEq, Eq)]
pub enum Point {
    Reserved,
    Copied,
    Linked,
    Closed,
}

/// What a user's thread calls at each point, and the caller before it starts a thread.
pub trait Gate: Sync {
    fn pass(&self, who: u32, point: Point);

    /// Whether the player with this number gets no thread.
    fn refuses(&self, _number: usize) -> bool {
        false
    }
}

/// Holds and refuses nobody.
#[derive(Clone, Copy, Debug)]
pub struct NoGate;

impl Gate for NoGate {
    fn pass(&self, _who: u32, _point: Point) {}
}

/// The point that a user has come to by an Op, if it asks for another now.
pub(crate) fn point_after(done: Op, now: Op) -> Option<Point> {
    match (done, now) {
        (Op::Add(Word::Sn, _), _) => Some(Point::Reserved),
        (Op::Add(Word::Cell(_), _) | Op::Store(Word::First(_), _), Op::Load(Word::Wtail)) => {
            Some(Point::Copied)
        }
        // an advance stores 0 where it clears a link
        (Op::Store(Word::Wlink(_) | Word::Clink(_), 0), _) => None,
        (Op::Store(Word::Wlink(_), _), _) => Some(Point::Linked),
        (Op::Store(Word::Clink(_), _), _) => Some(Point::Closed),
        _ => None,
    }
}
