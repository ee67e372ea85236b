// The plan of a stop, and what came of it.
ghost use Rattle.std.specs.Prelude.{◌≡◌, ◌≤◌};
ghost use Rattle.redo_io.specs.{next_count_if};
ghost use Rattle.redo_memdisk.specs.Fused.{after_call, after_change, fails_next, is_failed, with_change};
ghost use Rattle.redo_memdisk.specs.Arming.{crashed_with, armed, fresh};

use redo_disk::DevError;

/// Where a fuse is in its run.
#[derive(Clone, Copy, Debug, PartialEq, Eq)]
pub enum Stage {
    /// Not armed yet.
    Before,
    /// Armed, and no crash since.
    Stopping,
    /// After the crash.
    Crashed,
}

/// What a fuse is to do, and what it did. Counts stand still at their last value.
#[derive(Clone, Copy, Debug, PartialEq, Eq)]
pub struct Fuse {
    pub stage: Stage,
    /// How many calls it passes from when it is armed to the crash; all of them where there is no limit.
    pub limit: Option<u64>,
    /// How many calls it has passed since it was armed, up to the crash.
    pub passed: u64,
    /// How many calls it has failed itself.
    pub own: u64,
    /// What the last crash picked.
    pub pick: Option<u64>,
    /// How many calls came before it was armed. Who knows how many calls the formatting made can tell by it that the
    /// next call came under the stop.
    pub early_calls: u64,
    /// How many calls answered `Failed` before it was armed.
    pub early: u64,
    /// How many calls answered `Failed` from then to the crash.
    pub mid: u64,
    /// How many calls answered `Failed` after the crash.
    pub late: u64,
    /// How many writes, syncs and further crashes came after the crash. Where it is 0, what the device means is what the
    /// one crash left.
    pub late_changes: u64,
    /// How many writes, syncs and crashes came at any time. Where it is 0, what the device means is what it meant at first.
    pub changes: u64,
}

/// Whether a call answered that the device failed.
pub(crate) fn is_failed(answer: &Result<(), DevError>) -> bool
    ensures { result ≡ is_failed answer.now }
{
    matches!(answer, Err(DevError::Failed))
}

/// The count after one more that counts or not.
fn next_count_if(counts: bool, count: u64) -> u64
    ensures { result ≡ next_count_if counts count }
{
    if counts {
        count.saturating_add(1)
    } else {
        count
    }
}

impl Fuse {
    /// A fuse that is not armed.
    pub(crate) fn new() -> Self
        ensures { result ≡ fresh }
    {
        Fuse {
            stage: Stage::Before,
            limit: None,
            passed: 0,
            own: 0,
            pick: None,
            early_calls: 0,
            early: 0,
            mid: 0,
            late: 0,
            late_changes: 0,
            changes: 0,
        }
    }

    /// Whether it fails the next call itself.
    pub(crate) fn fails_next(&self) -> bool
        ensures { result ≡ fails_next self.now }
    {
        match (self.stage, self.limit) {
            (Stage::Stopping, Some(limit)) => limit <= self.passed,
            _ => false,
        }
    }

    /// Begins the stop.
    pub(crate) fn arm(&mut self, limit: Option<u64>)
        requires { self.old.stage ≡ Stage.Before }
        ensures { self.new ≡ armed limit self.old }
    {
        self.stage = Stage::Stopping;
        self.limit = limit;
    }

    /// Counts a call by whether it answered that the device failed.
    pub(crate) fn note_call(&mut self, failed: bool)
        ensures after { self.new ≡ after_call self.old failed }
        ensures later { self.old.own ≤ self.new.own }
    {
        if self.fails_next() {
            self.mid = self.mid.saturating_add(1);
            self.own = self.own.saturating_add(1);
            return;
        }
        match self.stage {
            Stage::Before => {
                self.early_calls = self.early_calls.saturating_add(1);
                self.early = next_count_if(failed, self.early);
            }
            Stage::Stopping => {
                self.passed = self.passed.saturating_add(1);
                self.mid = next_count_if(failed, self.mid);
            }
            Stage::Crashed => self.late = next_count_if(failed, self.late),
        }
    }

    /// Counts what changes a device, also by itself where it comes after the crash.
    fn note_one_change(&mut self)
        ensures { self.new ≡ with_change self.old.stage self.old }
    {
        self.changes = self.changes.saturating_add(1);
        if self.stage == Stage::Crashed {
            self.late_changes = self.late_changes.saturating_add(1);
        }
    }

    /// Counts a write or a sync by whether it answered that the device failed.
    pub(crate) fn note_change(&mut self, failed: bool)
        ensures after { self.new ≡ after_change self.old failed }
        ensures later { self.old.own ≤ self.new.own }
    {
        self.note_one_change();
        self.note_call(failed);
    }

    /// Ends the stop.
    pub(crate) fn note_crash(&mut self, pick: u64)
        ensures { self.new ≡ crashed_with pick self.old }
    {
        self.note_one_change();
        self.stage = Stage::Crashed;
        self.pick = Some(pick);
    }
}
