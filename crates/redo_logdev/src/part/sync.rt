// Making stable what is written.
ghost use Rattle.std.specs.Prelude.{◌≡◌, [], ◌∷◌, None, OnOk, OnErr};
ghost use Rattle.model_parts.specs.{after_synced, tails_synced};
ghost use Rattle.redo_disk.specs.{error_of, MakesCalls, Serve, ToSync};
ghost use Rattle.redo_logdev.specs.Part.{Stays};
ghost use Rattle.redo_logdev.specs.Holding.{KeepsHolding};
ghost use Rattle.redo_logdev.specs.PartConditions.{HasMarks};

use crate::LogPart;
use crate::tails::tails_synced;
use redo_disk::{DevError, Sectors};

impl<L: Sectors> LogPart<L> {
    /// Makes all that is written stable.
    pub fn sync(&mut self) -> Result<(), DevError>
        requires { self.old.failed ≡ None }
        ensures ok { OnOk result (HasMarks self.new (after_synced self.old.marks)
            (tails_synced self.old.marks.written self.old.tails)) }
        ensures err { OnErr result (HasMarks self.new self.old.marks self.old.tails) }
        ensures stays { Stays L.seen self.old result self.new }
        ensures calls { MakesCalls L.gives self.old.dev self.new.dev (Serve (ToSync ∷ []) (error_of result)) }
        ensures holds { KeepsHolding L.seen self.old self.new }
    {
        match self.dev.sync() {
            Ok(()) => {
                self.marks.stable = self.marks.written;
                self.tails = tails_synced(self.marks.written, self.tails);
                Ok(())
            }
            Err(error) => {
                self.failed = Some(error);
                Err(error)
            }
        }
    }
}
