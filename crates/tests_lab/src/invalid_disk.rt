// A device that tells what it holds, and isn't valid.
ghost use Rattle.std.specs.Prelude.{◌≡◌, ◌≤◌, ◌+◌, length};
ghost use Rattle.model_base.specs.{overwritten};

use crate::silent_disk::zero_sector;
use model_base::Bytes;
use model_device::Write;
use redo_disk::{DevError, Sectors};
use std::alloc::{AllocError, Global};
use std::marker::Model;
use std::snapshot::Snapshot;

/// What stood there at the last sync, the writes since, and what reads give.
#[derive(Drop)]
struct Held {
    base: Vec<u8>,
    writes: Vec<Write>,
    reads: Vec<u8>,
}

/// A device in memory. A crash leaves what stood there at the last sync. Its length need not be a number of sectors, a write need
/// not be of whole ones, and what reads give need not be an image.
#[derive(Drop)]
pub(crate) struct InvalidDisk {
    alloc: Global,
    held: Held,
    /// What the last crash found, which only clauses read.
    crashed_from: Option<Snapshot<Held>>,
}

impl Model for InvalidDisk {
    ghost use Rattle.std.specs.Prelude.{◌≡◌, length, Option};
    ghost use Rattle.std.specs.Option.{option_map};
    ghost use Rattle.model_device.specs.Disks.{Disk};

    // what it means, and what it meant just before its last crash
    ghost Value = { Disk × Option Disk };

    ghost view = { λ disk. (
      record { base = disk.held.base.items; writes = disk.held.writes.items; reads = disk.held.reads.items },
      option_map (λ found. record { base = found.value.base.items; writes = found.value.writes.items; reads = found.value.reads.items }) disk.crashed_from,
    ) };

    ghost invariant = { λ disk. length disk.held.base.items ≡ length disk.held.reads.items };
}

impl InvalidDisk {
    /// A device of so many zeros.
    pub(crate) fn new(alloc: Global, len: u64) -> Result<Self, AllocError> {
        Ok(InvalidDisk {
            alloc,
            held: Held {
                base: vec![in alloc; 0; len as usize]?,
                writes: Vec::new(alloc),
                reads: vec![in alloc; 0; len as usize]?,
            },
            crashed_from: None,
        })
    }

    /// From now on it tells of a write of three bytes since the last sync, which reads don't give.
    pub(crate) fn add_part_write(&mut self) -> Result<(), AllocError> {
        let bytes = Bytes::new(vec![in self.alloc; 7; 3]?);
        self.held.writes.push(Write { at: 100, bytes })?;
        Ok(())
    }

    /// From now on the sector at this offset held zeros at the last sync. It reads as before, and no write since is told.
    pub(crate) fn forget(&mut self, at: u64) {
        zero_sector(&mut self.held.base, at as usize);
    }
}

/// Puts bytes into the row at this offset.
fn put(row: &mut [u8], at: usize, bytes: &[u8])
    requires { at + length bytes.now ≤ length row.old }
    ensures { row.new ≡ overwritten at bytes.now row.old }
{
    row[at..at + bytes.len()].copy_from_slice(bytes);
}

impl Sectors for InvalidDisk {
    ghost use Rattle.std.specs.Prelude.{length, Some};
    ghost use Rattle.std.proofs.Common.{sym};
    ghost use Rattle.std.proofs.lemmas.Option.{none-some};

    ghost seen = { λ disk. record { size = length disk.0.reads; tells = Some disk.0; crashed_from = disk.1; faults = 0 } };

    ghost told_before = { λ old new call given told none. none-some old.0 (sym none) };

    fn len(&self) -> u64 {
        self.held.reads.len() as u64
    }

    fn read(&mut self, at: u64, out: &mut [u8]) -> Result<(), DevError> {
        let from = at as usize;
        out.copy_from_slice(&self.held.reads[from..from + out.len()]);
        Ok(())
    }

    fn write(&mut self, at: u64, bytes: &[u8]) -> Result<(), DevError> {
        let copy = Bytes::new(bytes.to_vec(self.alloc)?);
        self.held.writes.push(Write { at, bytes: copy })?;
        put(&mut self.held.reads, at as usize, bytes);
        Ok(())
    }

    fn sync(&mut self) -> Result<(), DevError> {
        self.held.base.copy_from_slice(&self.held.reads);
        self.held.writes.clear();
        Ok(())
    }

    fn crash(&mut self, _pick: u64) {
        self.crashed_from = Some(Snapshot::of(&self.held));
        self.held.reads.copy_from_slice(&self.held.base);
        self.held.writes.clear();
    }
}
