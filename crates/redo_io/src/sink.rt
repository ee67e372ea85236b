// Where bytes go.
ghost use Rattle.std.specs.Prelude.{ℕ, List, Result};
ghost use Rattle.redo_io.specs.declared.fault.IoFault.{IoFault};
ghost use Rattle.redo_io.specs.Ends.{SinkSeen};
ghost use Rattle.redo_io.specs.Steps.{SinkStep};

use crate::IoFault;

/// What bytes are written to.
///
/// The ghost member `write_gives` is all that the sink's own contract says of one write. A caller that hands it on has
/// made that write, once.
pub trait Sink {
    /// What a writer to the sink sees of it. Its count of faults never falls.
    ghost seen: { Self → SinkSeen };

    /// What a write gives: the sink before, the bytes, the answer and the sink after.
    ghost write_gives: { Self → List ℕ → Result ℕ IoFault → Self → Type 0 } = { λ _ _ _ _. Unit {0} };

    /// Takes some bytes off the front, and says how many. To take none of a slice that isn't empty is a fault.
    fn write(&mut self, bytes: &[u8]) -> Result<usize, IoFault>
        ensures step { SinkStep bytes.now (seen self.old) result (seen self.new) }
        ensures gives { write_gives self.old bytes.now result self.new };
}
