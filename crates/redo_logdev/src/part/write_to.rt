// Writing the blocks of a run.
ghost use Rattle.std.specs.Prelude.{◌≡◌, ◌*◌, ◌%◌, ◌^◌, OnOk, OnErr};
ghost use Rattle.model_base.specs.declared.limits.TheConstants.{BLOCK_SIZE};
ghost use Rattle.model_log.specs.{block_of, other_tail, run_layout};
ghost use Rattle.model_parts.specs.{after_given, after_written, tails_written};
ghost use Rattle.redo_disk.specs.{error_of, MakesCalls, Serve};
ghost use Rattle.redo_logdev.specs.Part.{block_writes, framed_full_blocks, last_block, Stays};
ghost use Rattle.redo_logdev.specs.Holding.{KeepsWriting};
ghost use Rattle.redo_logdev.specs.PartConditions.{HasMarks, MayWrite};

use crate::LogPart;
use crate::blocks::fill_blocks;
use crate::calls::write_blocks;
use crate::tails::{other_tail, tails_written};
use model_base::BLOCK_SIZE;
use model_log::Format;
use redo_disk::{DevError, Sectors};
use redo_lsn::{block_of, layout_of};

impl<L: Sectors> LogPart<L> {
    /// Writes the blocks of a run from that of the written mark up to this mark, given their bytes and first offsets: the
    /// full ones in their places, by one write, or two where the log wraps, and then the incomplete one, if there is one,
    /// to the tail block that the last good sync left free.
    pub fn write_to(&mut self, mark: u64, bytes: &[u8], firsts: &[u32]) -> Result<(), DevError>
        requires { MayWrite self.old mark bytes.now firsts.now }
        ensures ok { OnOk result (HasMarks self.new (after_written mark self.old.marks) (tails_written mark self.old.tails)) }
        ensures err { OnErr result (HasMarks self.new (after_given mark self.old.marks) self.old.tails) }
        ensures stays { Stays L.seen self.old result self.new }
        ensures calls { MakesCalls L.gives self.old.dev self.new.dev
            (Serve (block_writes (run_layout self.old.shape) (block_of self.old.marks.written)
            (framed_full_blocks (block_of self.old.marks.written) bytes.now firsts.now (self.old.marks.number % 2 ^ 32))
            (BLOCK_SIZE * other_tail self.old.tails.tail)
            (last_block (block_of self.old.marks.written) bytes.now firsts.now))
            (error_of result)) }
        ensures holds { KeepsWriting L.seen self.old mark bytes.now firsts.now self.new }
    {
        let layout = layout_of(Format::Two, &self.shape);
        let from = block_of(self.marks.written);
        let ckpt = (self.marks.number % (1 << 32)) as u32;
        let mut block = [0; 512];
        let (full, last) = fill_blocks(&mut self.buffer, &mut block, from, bytes, firsts, ckpt);
        let free = other_tail(self.tails.tail);
        self.marks.given = mark;
        match write_blocks(
            &mut self.dev,
            &layout,
            from,
            &self.buffer[..full],
            BLOCK_SIZE * free,
            &block[..last],
        ) {
            Ok(()) => {
                self.marks.written = mark;
                self.tails = tails_written(mark, self.tails);
                Ok(())
            }
            Err(error) => {
                self.failed = Some(error);
                Err(error)
            }
        }
    }
}
