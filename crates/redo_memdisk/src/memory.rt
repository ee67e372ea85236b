// A device in memory.
ghost use Rattle.std.specs.Prelude.{◌≡◌, ◌%◌, ◌<◌, [], length, IfOk};
ghost use Rattle.redo_disk.specs.{CrashStep, IsRange, MakesCall, Reads, ReadStep, Syncs, SyncStep, write_at, Writes, WriteStep};
ghost use Rattle.redo_memdisk.specs.Memory.{CrashesMemory, MemGives, mem_seen, new_memory};

use crate::apply::{apply_all, apply_crash, read_through};
use crate::medium::Medium;
use crate::plan::count_call;
use model_base::{BLOCK_SIZE, Bytes};
use model_device::Write;
use redo_disk::{DevError, Sectors};
use redo_io::Plan;
use std::alloc::{AllocError, Global};
use std::marker::Model;
use std::snapshot::Snapshot;

/// A device in memory. It fails the calls that it is told to fail, and a crash keeps those of the sector writes since
/// the last good sync that the pick names, and tears the others. A write that fails is pending like one that does not.
#[derive(Drop)]
pub struct MemDisk {
    alloc: Global,
    medium: Medium,
    /// How many of the first bytes of a sector's write a crash leaves where the write doesn't survive.
    cut: usize,
    /// What the last crash found, which only clauses read.
    crashed_from: Option<Snapshot<Medium>>,
    plan: Plan,
}

impl Model for MemDisk {
    ghost use Rattle.std.specs.Prelude.{◌<◌, length};
    ghost use Rattle.std.specs.Option.{option_map};
    ghost use Rattle.model_device.specs.{AreSectorWrites};
    ghost use Rattle.model_base.specs.declared.limits.TheConstants.{BLOCK_SIZE};
    ghost use Rattle.redo_memdisk.specs.Memory.{MemState, pending_disk};

    ghost Value = { MemState };

    ghost view = { λ memory. record {
      disk = pending_disk memory.medium.base.items memory.medium.pending.items;
      crashed_from = option_map (λ found. pending_disk found.value.base.items found.value.pending.items) memory.crashed_from;
      plan = memory.plan;
      cut = memory.cut;
    } };

    ghost invariant = { λ memory.
        AreSectorWrites (length memory.medium.base.items) memory.medium.pending.items × (memory.cut < BLOCK_SIZE) };
}

impl MemDisk {
    /// A device of so many zeros, which fails no call and tears no sector.
    pub fn new(alloc: Global, len: u64) -> Result<Self, AllocError>
        requires { len % BLOCK_SIZE ≡ 0 }
        ensures { IfOk result (λ memory. memory ≡ new_memory len 0 []) }
    {
        MemDisk::with(alloc, len, 0, Vec::new(alloc))
    }

    /// A device of so many zeros, which fails the calls of these numbers: reads, writes and syncs are numbered
    /// together, from 0, except for writes that find no memory.
    pub fn failing(alloc: Global, len: u64, calls: Vec<u64>) -> Result<Self, AllocError>
        requires { len % BLOCK_SIZE ≡ 0 }
        ensures { IfOk result (λ memory. memory ≡ new_memory len 0 calls.items) }
    {
        MemDisk::with(alloc, len, 0, calls)
    }

    /// A device of so many zeros, which fails no call. Of a sector's write that does not survive a crash it keeps this
    /// many of the first bytes.
    pub fn tearing(alloc: Global, len: u64, cut: usize) -> Result<Self, AllocError>
        requires len { len % BLOCK_SIZE ≡ 0 }
        requires cut { cut < BLOCK_SIZE }
        ensures { IfOk result (λ memory. memory ≡ new_memory len cut []) }
    {
        MemDisk::with(alloc, len, cut, Vec::new(alloc))
    }

    /// A device of so many zeros, which tears the sectors that a crash loses, and fails the calls of these numbers.
    pub fn tearing_and_failing(
        alloc: Global,
        len: u64,
        cut: usize,
        calls: Vec<u64>,
    ) -> Result<Self, AllocError>
        requires len { len % BLOCK_SIZE ≡ 0 }
        requires cut { cut < BLOCK_SIZE }
        ensures { IfOk result (λ memory. memory ≡ new_memory len cut calls.items) }
    {
        MemDisk::with(alloc, len, cut, calls)
    }

    fn with(alloc: Global, len: u64, cut: usize, calls: Vec<u64>) -> Result<Self, AllocError>
        requires len { len % BLOCK_SIZE ≡ 0 }
        requires cut { cut < BLOCK_SIZE }
        ensures { IfOk result (λ memory. memory ≡ new_memory len cut calls.items) }
    {
        Ok(MemDisk {
            alloc,
            medium: Medium {
                base: vec![in alloc; 0; len as usize]?,
                pending: Vec::new(alloc),
            },
            cut,
            crashed_from: None,
            plan: Plan::new(calls),
        })
    }
}

impl Sectors for MemDisk {
    ghost use Rattle.redo_memdisk.specs.Before.{mem-before};

    ghost seen = { mem_seen };

    ghost gives = { MemGives };

    ghost told_before = { mem-before };

    ghost crash_gives = { CrashesMemory };

    fn len(&self) -> u64 {
        self.medium.base.len() as u64
    }

    fn read(&mut self, at: u64, out: &mut [u8]) -> Result<(), DevError>
        requires { IsRange (length self.old.disk.base) at (length out.old) }
        ensures step { ReadStep at (length out.old) (mem_seen self.old) result out.new (mem_seen self.new) }
        ensures gives { MakesCall MemGives self.old (Reads at out.old result out.new) self.new }
    {
        count_call(&mut self.plan)?;
        read_through(&self.medium.base, &self.medium.pending, at as usize, out);
        Ok(())
    }

    fn write(&mut self, at: u64, bytes: &[u8]) -> Result<(), DevError>
        requires { IsRange (length self.old.disk.base) at (length bytes.now) }
        ensures step { WriteStep (write_at at bytes.now) (mem_seen self.old) result (mem_seen self.new) }
        ensures gives { MakesCall MemGives self.old (Writes (write_at at bytes.now) result) self.new }
    {
        let copy = Bytes::new(bytes.to_vec(self.alloc)?);
        self.medium.pending.push(Write { at, bytes: copy })?;
        count_call(&mut self.plan)
    }

    fn sync(&mut self) -> Result<(), DevError>
        ensures step { SyncStep (mem_seen self.old) result (mem_seen self.new) }
        ensures gives { MakesCall MemGives self.old (Syncs result) self.new }
    {
        count_call(&mut self.plan)?;
        apply_all(&mut self.medium.base, &self.medium.pending);
        self.medium.pending.clear();
        Ok(())
    }

    fn crash(&mut self, pick: u64)
        ensures step { CrashStep (mem_seen self.old) (mem_seen self.new) }
        ensures gives { CrashesMemory self.old pick self.new }
    {
        self.crashed_from = Some(Snapshot::of(&self.medium));
        apply_crash(&mut self.medium.base, &self.medium.pending, self.cut, pick);
        self.medium.pending.clear();
    }
}
