// The calls on a file with what they came to, which only clauses read.
ghost use Rattle.std.specs.Prelude.{◌≡◌, List, [], ◌∷◌};
ghost use Rattle.std.specs.Borrow.{ftrue};
ghost use Rattle.redo_memdisk.specs.Notes.{Note, note};

use std::marker::{Model, PhantomData};

/// What a call on a file came to.
#[derive(Clone, Copy)]
pub enum Event {
    /// A read from this offset on answered Ok.
    Read { at: u64 },
    /// A read answered Ok, of a file that could not be synced as it was opened.
    Unsynced,
    /// A write from this offset on answered Ok.
    Written { at: u64 },
    /// A write from this offset on failed. The system took so many of its bytes before that.
    Missed { at: u64, taken: usize },
    /// A sync answered Ok.
    Synced,
    /// A crash, at which the file was synced.
    Crashed,
    /// A crash, at which it could not be.
    Lost,
}

/// The newest call comes first. It takes no memory.
#[derive(Drop)]
pub struct Record {
    marker: PhantomData<u8>,
    pub ghost notes: { List Note },
}

impl Model for Record {
    ghost also_owns = { λ _. ftrue };
}

// It owns nothing, so it may go to another thread, and threads may share it.
unsafe impl Send for Record {}

unsafe impl Sync for Record {}

impl Record {
    pub(crate) fn new() -> Record
        ensures { result.notes ≡ [] }
    {
        Record {
            marker: PhantomData,
        }
    }

    /// Adds a call, with the bytes that it gave or was given.
    pub(crate) fn note(&mut self, _event: Event, _bytes: &[u8])
        ensures { self.new.notes ≡ note _event _bytes.now ∷ self.old.notes }
    {}
}
