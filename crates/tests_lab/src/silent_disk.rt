// A device that tells nothing of what it holds, and of which a sector may be torn, or written by somebody else.
ghost use Rattle.std.specs.Prelude.{◌≡◌, length};

use redo_disk::{DevError, Sectors};
use std::alloc::{AllocError, Global};
use std::marker::Model;

/// Bytes of a sector, and of half of one.
const SECTOR: usize = 512;

const HALF: usize = 256;

/// What becomes of the sector at this offset in a crash. No device that tells what it holds has such a crash, since it leaves
/// no image.
#[derive(Clone, Copy)]
pub(crate) enum Harm {
    /// It is torn: its first half is what was written since the last sync.
    Torn(u64),
    /// It holds zeros, which somebody else has written there just before.
    Zeroed(u64),
}

/// A device in memory. A crash leaves what stood there at the last sync, but for the sector that comes to harm.
#[derive(Drop)]
pub(crate) struct SilentDisk {
    reads: Vec<u8>,
    synced: Vec<u8>,
    harm: Option<Harm>,
}

impl Model for SilentDisk {
    ghost use Rattle.std.specs.Prelude.{◌≡◌, ℕ, length};

    ghost Value = { ℕ };

    ghost view = { λ disk. length disk.reads.items };

    ghost invariant = { λ disk. length disk.synced.items ≡ length disk.reads.items };
}

impl SilentDisk {
    /// A device of so many zeros, of which a sector may come to harm in a crash.
    pub(crate) fn new(alloc: Global, len: u64, harm: Option<Harm>) -> Result<Self, AllocError> {
        Ok(SilentDisk {
            reads: vec![in alloc; 0; len as usize]?,
            synced: vec![in alloc; 0; len as usize]?,
            harm,
        })
    }
}

/// Copies the first half of the sector at this offset, where there is one.
fn copy_half(from: &[u8], to: &mut [u8], at: usize)
    requires { length from.now ≡ length to.old }
{
    if at < from.len() && HALF <= from.len() - at {
        to[at..at + HALF].copy_from_slice(&from[at..at + HALF]);
    }
}

/// Fills the sector at this offset with zeros, where there is one.
pub(crate) fn zero_sector(bytes: &mut [u8], at: usize) {
    if at < bytes.len() && SECTOR <= bytes.len() - at {
        bytes[at..at + SECTOR].fill(0);
    }
}

impl Sectors for SilentDisk {
    ghost use Rattle.std.specs.Prelude.{None};

    ghost seen = { λ size. record { size = size; tells = None; crashed_from = None; faults = 0 } };

    ghost told_before = { λ old new call given told. told };

    fn len(&self) -> u64 {
        self.reads.len() as u64
    }

    fn read(&mut self, at: u64, out: &mut [u8]) -> Result<(), DevError> {
        let from = at as usize;
        out.copy_from_slice(&self.reads[from..from + out.len()]);
        Ok(())
    }

    fn write(&mut self, at: u64, bytes: &[u8]) -> Result<(), DevError> {
        let from = at as usize;
        self.reads[from..from + bytes.len()].copy_from_slice(bytes);
        Ok(())
    }

    fn sync(&mut self) -> Result<(), DevError> {
        self.synced.copy_from_slice(&self.reads);
        Ok(())
    }

    fn crash(&mut self, _pick: u64) {
        match self.harm {
            Some(Harm::Torn(at)) => copy_half(&self.reads, &mut self.synced, at as usize),
            Some(Harm::Zeroed(at)) => zero_sector(&mut self.synced, at as usize),
            None => {}
        }
        self.reads.copy_from_slice(&self.synced);
    }
}
