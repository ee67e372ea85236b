// The next checkpoint.
ghost use Rattle.std.specs.Prelude.{◌≡◌, None, OnOk, OnErr};
ghost use Rattle.model_log.specs.{run_layout};
ghost use Rattle.model_parts.specs.{after_asked, after_checkpoint, MayBeNext, next_number, tails_synced};
ghost use Rattle.redo_disk.specs.{error_of, MakesCalls, put_requests, Serve};
ghost use Rattle.redo_logdev.specs.Part.{checkpoint_write, Stays};
ghost use Rattle.redo_logdev.specs.Holding.{KeepsNumbered};
ghost use Rattle.redo_logdev.specs.PartConditions.{HasMarks};

use crate::LogPart;
use crate::tails::tails_synced;
use model_base::BLOCK_SIZE;
use model_log::Format;
use redo_disk::{DevError, Sectors, write_and_sync};
use redo_header::{fill_ckpt, place_of};
use redo_lsn::layout_of;

impl<L: Sectors> LogPart<L> {
    /// Writes the next checkpoint, at this lsn, and makes it stay. Its number goes round after the greatest.
    pub fn checkpoint(&mut self, lsn: u64) -> Result<(), DevError>
        requires live { self.old.failed ≡ None }
        requires next { MayBeNext self.old.marks lsn }
        ensures ok { OnOk result (HasMarks self.new
            (after_checkpoint (next_number self.old.marks.number) lsn self.old.marks)
            (tails_synced self.old.marks.written self.old.tails)) }
        ensures err { OnErr result (HasMarks self.new (after_asked lsn self.old.marks) self.old.tails) }
        ensures stays { Stays L.seen self.old result self.new }
        ensures calls { MakesCalls L.gives self.old.dev self.new.dev (Serve (put_requests
            (checkpoint_write (run_layout self.old.shape) (next_number self.old.marks.number) lsn)) (error_of result)) }
        ensures holds { KeepsNumbered L.seen self.old self.new }
    {
        let number = self.marks.number.wrapping_add(1);
        let mut block = [0; 512];
        fill_ckpt(
            &mut block,
            number,
            lsn,
            &layout_of(Format::Two, &self.shape),
        );
        let at = BLOCK_SIZE * u64::from(place_of(number));
        self.marks.asked = lsn;
        match write_and_sync(&mut self.dev, at, &block) {
            Ok(()) => {
                self.marks.number = number;
                self.marks.ckpt = lsn;
                self.tails = tails_synced(self.marks.written, self.tails);
                Ok(())
            }
            Err(error) => {
                self.failed = Some(error);
                Err(error)
            }
        }
    }
}
