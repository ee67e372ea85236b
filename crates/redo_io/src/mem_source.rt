// A source in memory, for tests of what is above.
ghost use Rattle.std.specs.Prelude.{◌≡◌, ◌<◌, [], length};
ghost use Rattle.redo_io.specs.Memory.{ReadsSupply, supply_seen};
ghost use Rattle.redo_io.specs.Plan.{unused};
ghost use Rattle.redo_io.specs.Steps.{SourceStep};

use crate::plan::Plan;
use crate::{IoFault, Source};
use std::marker::Model;

/// A source that gives the bytes of a vector, in pieces if it was made so, and fails where it was told to.
#[derive(Debug, Drop)]
pub struct MemSource {
    bytes: Vec<u8>,
    at: usize,
    piece: usize,
    plan: Plan,
}

impl Model for MemSource {
    ghost use Rattle.std.specs.Prelude.{◌≤◌, ◌<◌, length, drop};
    ghost use Rattle.redo_io.specs.Memory.{Supply};

    ghost Value = { Supply };

    ghost view = { λ source. record {
      left = drop source.at source.bytes.items;
      piece = source.piece;
      plan = source.plan;
    } };

    ghost invariant = { λ source. (source.at ≤ length source.bytes.items) × (0 < source.piece) };
}

impl MemSource {
    /// A source that gives as many bytes as a read has room for, and doesn't fail.
    pub fn new(bytes: Vec<u8>) -> Self
        ensures { result ≡ record { left = bytes.items; piece = usize.MAX; plan = unused [] } }
    {
        let none = Vec::new(*bytes.allocator());
        MemSource::failing(bytes, none)
    }

    /// A source that fails at exactly these reads, which are numbered from 0. A read that fails takes no byte.
    pub fn failing(bytes: Vec<u8>, calls: Vec<u64>) -> Self
        ensures { result ≡ record { left = bytes.items; piece = usize.MAX; plan = unused calls.items } }
    {
        MemSource {
            bytes,
            at: 0,
            piece: usize::MAX,
            plan: Plan::new(calls),
        }
    }

    /// A source that gives at most so many bytes a read, and doesn't fail.
    pub fn short(bytes: Vec<u8>, piece: usize) -> Self
        requires { 0 < piece }
        ensures { result ≡ record { left = bytes.items; piece = piece; plan = unused [] } }
    {
        let none = Vec::new(*bytes.allocator());
        MemSource {
            bytes,
            at: 0,
            piece,
            plan: Plan::new(none),
        }
    }
}

impl Source for MemSource {
    ghost seen = { supply_seen };

    ghost read_gives = { ReadsSupply };

    fn read(&mut self, out: &mut [u8]) -> Result<usize, IoFault>
        ensures step { SourceStep (length out.old) (supply_seen self.old) result out.new (supply_seen self.new) }
        ensures gives { ReadsSupply self.old (length out.old) result out.new self.new }
    {
        if self.plan.fails() {
            return Err(IoFault::Failed);
        }
        let rest = &self.bytes[self.at..];
        let count = rest.len().min(out.len()).min(self.piece);
        out[..count].copy_from_slice(&rest[..count]);
        self.at += count;
        Ok(count)
    }
}
