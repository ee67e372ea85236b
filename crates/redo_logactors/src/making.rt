// The actors of the log as a run begins.
ghost use Rattle.std.specs.Prelude.{◌≡◌, ◌≤◌, ◌<◌, ◌%◌, ◌^◌, IfOk};
ghost use Rattle.model_base.specs.{IsWithinLimits};
ghost use Rattle.model_core.specs.{new_closer, new_flusher, new_writer};
ghost use Rattle.model_log.specs.{run_layout};

use crate::closer::Closer;
use crate::flusher::Flusher;
use crate::writer::{KEPT_BLOCKS, KEPT_BYTES, Writer};
use model_base::{BLOCK_SIZE, FIRST_DATA_LSN, Shape};
use model_core::{AdvanceStep, CloserStep, FlusherStep, WriterStep};
use model_log::{BLOCK_DATA, BLOCK_HEADER};
use redo_link::Advance;
use redo_lsn::{NoMemory, run_layout};
use std::alloc::Global;

impl Writer {
    /// The writer of a run that starts at this lsn. It takes the room for all that it will hold.
    pub fn new(alloc: Global, shape: &Shape, start: u64) -> Result<Writer, NoMemory>
        requires limits { IsWithinLimits shape.now }
        requires data { start % BLOCK_SIZE ≡ BLOCK_HEADER }
        requires first { FIRST_DATA_LSN ≤ start }
        requires small { start < 2 ^ 61 }
        ensures { IfOk result (λ writer. writer ≡ new_writer (run_layout shape.now).blocks start) }
    {
        let blocks = run_layout(shape).blocks;
        let kept = Vec::with_capacity(alloc, KEPT_BYTES)?;
        let firsts = Vec::with_capacity(alloc, KEPT_BLOCKS)?;
        Ok(Writer {
            blocks,
            tail: start,
            write: start,
            from: start / BLOCK_SIZE * BLOCK_DATA,
            kept,
            firsts,
            advance: Advance::new(),
            first: 0,
            word: 0,
            ckpt: 0,
            code: 0,
            checks: false,
            step: WriterStep::Advance(AdvanceStep::LoadTail),
        })
    }
}

impl Flusher {
    /// The flusher of a run that starts at this lsn.
    pub fn new(start: u64) -> Flusher
        ensures { result ≡ new_flusher start }
    {
        Flusher {
            last: start,
            write: 0,
            mark: 0,
            code: 0,
            checks: false,
            step: FlusherStep::LoadWrite,
        }
    }
}

impl Closer {
    /// The closer of a run.
    pub fn new() -> Closer
        ensures { result ≡ new_closer }
    {
        Closer {
            advance: Advance::new(),
            code: 0,
            checks: false,
            step: CloserStep::Advance(AdvanceStep::LoadTail),
        }
    }
}
