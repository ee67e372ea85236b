// Where bytes come from.
ghost use Rattle.std.specs.Prelude.{ℕ, List, length, Result};
ghost use Rattle.redo_io.specs.declared.fault.IoFault.{IoFault};
ghost use Rattle.redo_io.specs.Ends.{SourceSeen};
ghost use Rattle.redo_io.specs.Steps.{SourceStep};

use crate::IoFault;

/// What bytes are read from.
///
/// The ghost member `read_gives` is all that the source's own contract says of one read. A caller that hands it on has
/// made that read, once.
pub trait Source {
    /// What a reader of the source sees of it. Its count of faults never falls.
    ghost seen: { Self → SourceSeen };

    /// What a read gives: the source before, the room in the buffer, the answer, the buffer after and the source after.
    ghost read_gives: { Self → ℕ → Result ℕ IoFault → List ℕ → Self → Type 0 } = { λ _ _ _ _ _. Unit {0} };

    /// Reads some bytes to the front of `out`, and says how many. 0 into a slice that isn't empty is the end of input.
    fn read(&mut self, out: &mut [u8]) -> Result<usize, IoFault>
        ensures step { SourceStep (length out.old) (seen self.old) result out.new (seen self.new) }
        ensures gives { read_gives self.old (length out.old) result out.new self.new };
}
