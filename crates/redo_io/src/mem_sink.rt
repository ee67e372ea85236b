// A sink in memory, for tests of what is above.
ghost use Rattle.std.specs.Prelude.{◌≡◌, ◌<◌, []};
ghost use Rattle.redo_io.specs.Memory.{WritesStore, store_seen};
ghost use Rattle.redo_io.specs.Plan.{unused};
ghost use Rattle.redo_io.specs.Steps.{SinkStep};

use crate::plan::Plan;
use crate::{IoFault, Sink};
use std::alloc::Global;
use std::marker::Model;

/// A sink that keeps the bytes in a vector, takes them in pieces if it was made so, and fails where it was told to. Want of
/// memory is a fault too.
#[derive(Debug, Drop)]
pub struct MemSink {
    bytes: Vec<u8>,
    piece: usize,
    plan: Plan,
}

impl Model for MemSink {
    ghost use Rattle.std.specs.Prelude.{◌<◌};
    ghost use Rattle.redo_io.specs.Memory.{Store};

    ghost Value = { Store };

    ghost view = { λ sink. record { taken = sink.bytes.items; piece = sink.piece; plan = sink.plan } };

    ghost invariant = { λ sink. 0 < sink.piece };
}

impl MemSink {
    /// An empty sink that fails only for want of memory.
    pub fn new(alloc: Global) -> Self
        ensures { result ≡ record { taken = []; piece = usize.MAX; plan = unused [] } }
    {
        MemSink::failing(alloc, Vec::new(alloc))
    }

    /// An empty sink that fails at these writes too, which are numbered from 0. A write that fails takes no byte.
    pub fn failing(alloc: Global, calls: Vec<u64>) -> Self
        ensures { result ≡ record { taken = []; piece = usize.MAX; plan = unused calls.items } }
    {
        MemSink {
            bytes: Vec::new(alloc),
            piece: usize::MAX,
            plan: Plan::new(calls),
        }
    }

    /// An empty sink that takes at most so many bytes a write, and fails only for want of memory.
    pub fn short(alloc: Global, piece: usize) -> Self
        requires { 0 < piece }
        ensures { result ≡ record { taken = []; piece = piece; plan = unused [] } }
    {
        MemSink {
            bytes: Vec::new(alloc),
            piece,
            plan: Plan::new(Vec::new(alloc)),
        }
    }

    /// The bytes taken so far.
    pub fn bytes(&self) -> &[u8]
        ensures { result.now ≡ self.now.taken }
    {
        self.bytes.as_slice()
    }
}

impl Sink for MemSink {
    ghost seen = { store_seen };

    ghost write_gives = { WritesStore };

    fn write(&mut self, bytes: &[u8]) -> Result<usize, IoFault>
        ensures step { SinkStep bytes.now (store_seen self.old) result (store_seen self.new) }
        ensures gives { WritesStore self.old bytes.now result self.new }
    {
        if self.plan.fails() {
            return Err(IoFault::Failed);
        }
        let count = bytes.len().min(self.piece);
        if self.bytes.extend_from_slice(&bytes[..count]).is_err() {
            self.plan.add_fault();
            return Err(IoFault::Failed);
        }
        Ok(count)
    }
}
