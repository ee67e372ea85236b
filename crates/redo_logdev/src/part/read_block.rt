// Reading a block of the run back.
ghost use Rattle.std.specs.Prelude.{◌≡◌, length};
ghost use Rattle.redo_disk.specs.{MakesCall, Reads, ReadStep};
ghost use Rattle.redo_logdev.specs.Part.{Stays, block_place};
ghost use Rattle.redo_logdev.specs.Holding.{KeepsHolding, GivesBlock};
ghost use Rattle.redo_logdev.specs.PartConditions.{HasMarks, MayRead};

use crate::LogPart;
use model_base::BLOCK_SIZE;
use model_log::Format;
use redo_disk::{DevError, Sectors};
use redo_lsn::{block_of, layout_of, offset_of};

impl<L: Sectors> LogPart<L> {
    /// Where the run's block at this lsn stands on the device.
    fn block_place(&self, lsn: u64) -> u64
        requires { MayRead self.now lsn }
        ensures { result ≡ block_place self.now lsn }
    {
        if lsn < block_of(self.marks.written) {
            offset_of(lsn, &layout_of(Format::Two, &self.shape))
        } else {
            BLOCK_SIZE * self.tails.newest
        }
    }

    /// Reads the run's block at this lsn from where the scan takes it, by one call of the device. If the device has no
    /// such block, `out` has what was read, for the caller to judge.
    pub fn read_block(&mut self, lsn: u64, out: &mut [u8; 512]) -> Result<(), DevError>
        requires { MayRead self.old lsn }
        ensures block { GivesBlock L.seen self.old lsn result out.new self.new }
        ensures marks { HasMarks self.new self.old.marks self.old.tails }
        ensures stays { Stays L.seen self.old result self.new }
        ensures step { ReadStep (block_place self.old lsn) (length out.old) (L.seen self.old.dev) result out.new
            (L.seen self.new.dev) }
        ensures call { MakesCall L.gives self.old.dev (Reads (block_place self.old lsn) out.old result out.new)
            self.new.dev }
        ensures holds { KeepsHolding L.seen self.old self.new }
    {
        let at = self.block_place(lsn);
        match self.dev.read(at, out) {
            Ok(()) => Ok(()),
            Err(error) => {
                self.failed = Some(error);
                Err(error)
            }
        }
    }
}
