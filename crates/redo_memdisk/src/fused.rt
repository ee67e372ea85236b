// A device that a fuse stops.
ghost use Rattle.std.specs.Prelude.{◌≡◌, Option, Some, None};
ghost use Rattle.redo_memdisk.specs.Arming.{armed, fresh, CrashesThrough};
ghost use Rattle.redo_memdisk.specs.declared.fuse.Stage.{Stage};
ghost use Rattle.redo_memdisk.specs.Fused.{CallsThrough, armed_at, entry_of, fuse_of, inner_of, seen_through};

use crate::Fuse;
use crate::cut::cut_write;
use crate::fuse::is_failed;
use redo_disk::{DevError, Sectors};
use std::snapshot::Snapshot;

/// A device that is stopped at a planned call. From when it is armed to the crash it passes as many calls on as its
/// limit says, and fails every later one. Of those the first, if it is a write, still reaches the device.
#[derive(Drop)]
pub struct Fused<D> {
    inner: D,
    fuse: Fuse,
    /// The device that was handed in, which only clauses read.
    entry: Snapshot<D>,
    /// The device as the arming found it, which only clauses read.
    armed_at: Option<Snapshot<D>>,
}

impl<D> Fused<D> {
    /// The device with a fuse that passes every call on until it is armed.
    pub fn plain(inner: D) -> Self
        ensures inner { inner_of result ≡ inner }
        ensures fuse { fuse_of result ≡ fresh }
        ensures armed { armed_at result ≡ None }
        ensures entry { entry_of result ≡ inner }
    {
        let entry = Snapshot::of(&inner);
        Fused {
            inner,
            fuse: Fuse::new(),
            entry,
            armed_at: None,
        }
    }

    /// The device with a fuse that is armed with this limit.
    pub fn new(inner: D, limit: Option<u64>) -> Self
        ensures inner { inner_of result ≡ inner }
        ensures fuse { fuse_of result ≡ armed limit fresh }
        ensures armed { armed_at result ≡ Some inner }
        ensures entry { entry_of result ≡ inner }
    {
        let mut fused = Fused::plain(inner);
        fused.arm(limit);
        fused
    }

    /// Begins the stop: so many more reads, writes and syncs are passed on, or all of them where there is no limit.
    pub fn arm(&mut self, limit: Option<u64>)
        requires { (fuse_of self.old).stage ≡ Stage.Before }
        ensures inner { inner_of self.new ≡ inner_of self.old }
        ensures fuse { fuse_of self.new ≡ armed limit (fuse_of self.old) }
        ensures armed { armed_at self.new ≡ Some (inner_of self.old) }
        ensures entry { entry_of self.new ≡ entry_of self.old }
    {
        self.armed_at = Some(Snapshot::of(&self.inner));
        self.fuse.arm(limit);
    }

    /// What the fuse was to do, and what it did.
    pub fn fuse(&self) -> Fuse
        ensures { result ≡ fuse_of self.now }
    {
        self.fuse
    }

    /// The device without the fuse.
    pub fn into_inner(self) -> D
        ensures { result ≡ inner_of self }
    {
        let Fused { inner, .. } = self;
        inner
    }
}

impl<D: Sectors> Sectors for Fused<D> {
    ghost use Rattle.redo_memdisk.specs.Before.{fused-before};

    ghost seen = { seen_through D.seen };

    ghost gives = { CallsThrough D.seen D.gives };

    ghost told_before = { fused-before D.seen D.gives };

    ghost crash_gives = { CrashesThrough D.seen D.crash_gives };

    fn len(&self) -> u64 {
        self.inner.len()
    }

    fn read(&mut self, at: u64, out: &mut [u8]) -> Result<(), DevError> {
        if self.fuse.fails_next() {
            self.fuse.note_call(true);
            return Err(DevError::Failed);
        }
        let answer = self.inner.read(at, out);
        self.fuse.note_call(is_failed(&answer));
        answer
    }

    fn write(&mut self, at: u64, bytes: &[u8]) -> Result<(), DevError> {
        if self.fuse.fails_next() {
            if self.fuse.own == 0 {
                cut_write(&mut self.inner, at, bytes);
            }
            self.fuse.note_change(true);
            return Err(DevError::Failed);
        }
        let answer = self.inner.write(at, bytes);
        self.fuse.note_change(is_failed(&answer));
        answer
    }

    fn sync(&mut self) -> Result<(), DevError> {
        if self.fuse.fails_next() {
            self.fuse.note_change(true);
            return Err(DevError::Failed);
        }
        let answer = self.inner.sync();
        self.fuse.note_change(is_failed(&answer));
        answer
    }

    fn crash(&mut self, pick: u64) {
        self.inner.crash(pick);
        self.fuse.note_crash(pick);
    }
}
