// The state of the archiver.
ghost use Rattle.std.specs.Prelude.{◌≡◌};
ghost use Rattle.model_core.specs.{new_reader};
ghost use Rattle.model_log.specs.{IsAtDataStart};

use model_base::BLOCK_SIZE;
use model_core::ReaderStep;
use model_log::{BLOCK_DATA, BLOCK_HEADER};
use std::marker::Model;

/// The archiver of a run: it reads the log back by full blocks, up to FLUSHED, asks for each to be appended to the
/// archive, and stores up to where the archive has them. Contracts see its state.
#[derive(Debug, Drop)]
pub struct Archiver {
    pub(crate) own: u64,
    pub(crate) place: u64,
    pub(crate) mark: u64,
    pub(crate) block: [u8; 512],
    // where the run starts, as an sn
    pub(crate) start: u64,
    pub(crate) lost: u32,
    pub(crate) code: u32,
    pub(crate) checks: bool,
    pub(crate) step: ReaderStep,
}

impl Model for Archiver {
    ghost use Rattle.std.specs.Prelude.{◌≡◌, ◌≤◌, ◌%◌, []};
    ghost use Rattle.model_base.specs.declared.limits.TheConstants.{BLOCK_SIZE};
    ghost use Rattle.model_core.specs.States.{ReaderState};
    ghost use Rattle.redo_archiver.specs.Rounds.{last_block};

    ghost Value = { ReaderState };

    ghost view = { λ a. record {
      number = 0;
      own = a.own;
      place = a.place;
      mark = a.mark;
      block = a.block;
      at = a.start;
      kept = [];
      texts = [];
      lost = a.lost;
      code = a.code;
      checks = a.checks;
      step = a.step;
    } };

    ghost invariant = { λ a. (a.place % BLOCK_SIZE ≡ 0) × (a.place ≤ last_block a.step) };
}

impl Archiver {
    /// The archiver of a run that starts at this lsn.
    pub fn new(start: u64) -> Archiver
        requires { IsAtDataStart start }
        ensures { result ≡ new_reader 0 start }
    {
        Archiver {
            own: start - BLOCK_HEADER,
            place: start - BLOCK_HEADER,
            mark: 0,
            block: [0; 512],
            start: start / BLOCK_SIZE * BLOCK_DATA,
            lost: 0,
            code: 0,
            checks: false,
            step: ReaderStep::LoadFlushed,
        }
    }
}
