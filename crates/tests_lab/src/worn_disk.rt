// A device whose count of faults is at its last value.
ghost use Rattle.model_base.specs.{last_count};
ghost use Rattle.redo_memdisk.specs.Memory.{mem_seen};

use redo_disk::{DevError, Sectors};
use redo_memdisk::MemDisk;

/// A device in memory that has failed so often that its count can't rise: it tells what it holds, and a call of it fails with
/// no sign of that.
#[derive(Drop)]
pub(crate) struct WornDisk {
    pub(crate) inner: MemDisk,
}

impl Sectors for WornDisk {
    ghost use Rattle.std.proofs.Common.{sym};
    ghost use Rattle.std.proofs.lemmas.Option.{none-some};

    ghost seen = { λ disk. record (mem_seen disk.inner) { faults = last_count } };

    ghost told_before = { λ old new call given told none. none-some old.inner.disk (sym none) };

    fn len(&self) -> u64 {
        self.inner.len()
    }

    fn read(&mut self, at: u64, out: &mut [u8]) -> Result<(), DevError> {
        self.inner.read(at, out)
    }

    fn write(&mut self, at: u64, bytes: &[u8]) -> Result<(), DevError> {
        self.inner.write(at, bytes)
    }

    fn sync(&mut self) -> Result<(), DevError> {
        self.inner.sync()
    }

    fn crash(&mut self, pick: u64) {
        self.inner.crash(pick);
    }
}
