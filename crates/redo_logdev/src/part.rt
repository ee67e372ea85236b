// The log part: a device with the marks up to which a run is written and stable on it, and those of its tail blocks.
ghost use Rattle.std.specs.Prelude.{◌≡◌, ◌≤◌, ◌<◌, ◌-◌, ◌^◌, [], None, IfOk, IfSome, MatchResult};
ghost use Rattle.model_base.specs.declared.limits.TheConstants.{FIRST_DATA_LSN, MAX_LOG_BLOCKS, MIN_LOG_BLOCKS};
ghost use Rattle.model_log.specs.{IsAtDataStart, log_device_length};
ghost use Rattle.model_parts.specs.{first_marks, first_tails, IsFresh};
ghost use Rattle.redo_logdev.specs.Holding.{PartHolds};

use model_base::Shape;
use model_log::{BLOCK_HEADER, HEADER_BLOCKS};
use model_parts::{LogMarks, TailMarks};
use redo_disk::{DevError, Sectors};
use redo_lsn::NoMemory;
use std::alloc::Global;
use std::marker::Model;

mod checkpoint;
mod read_block;
mod sync;
mod write_to;

/// How many bytes of blocks one call writes at the most.
const ROOM: usize = 65_536;

/// A log device with the marks up to which a run is written and stable on it. A part whose call failed takes no more
/// calls but `failed` and `into_dev`.
#[derive(Drop)]
pub struct LogPart<L: Sectors> {
    dev: L,
    shape: Shape,
    marks: LogMarks,
    tails: TailMarks,
    failed: Option<DevError>,
    // room for the blocks of one call
    buffer: Vec<u8>,
}

impl<L: Sectors> Model for LogPart<L> {
    ghost use Rattle.std.specs.Prelude.{vec_len};
    ghost use Rattle.redo_logdev.specs.Part.{Part};
    ghost use Rattle.redo_logdev.specs.PartConditions.{IsSoundLogPart};

    ghost Value = { Part L };

    ghost view = { λ part. record {
      dev = part.dev;
      shape = part.shape;
      marks = part.marks;
      tails = part.tails;
      failed = part.failed;
    } };

    ghost invariant = { λ part. IsSoundLogPart (L.seen part.dev).size part.shape part.marks part.tails (vec_len part.buffer) };
}

impl<L: Sectors> LogPart<L> {
    /// A part that starts a run there, on a device whose newest checkpoint has this number and stands at the block of
    /// the start. It takes the room for the blocks of one call.
    pub fn new(
        alloc: Global,
        dev: L,
        shape: &Shape,
        start: u64,
        number: u64,
    ) -> Result<LogPart<L>, (NoMemory, L)>
        requires long { log_device_length shape.now ≤ (L.seen dev).size }
        requires many_blocks { MIN_LOG_BLOCKS ≤ shape.now.log_blocks }
        requires few_blocks { shape.now.log_blocks ≤ MAX_LOG_BLOCKS }
        requires place { IsAtDataStart start }
        requires first { FIRST_DATA_LSN ≤ start }
        requires small { start < 2 ^ 61 }
        ensures part { IfOk result (λ part. part
            ≡ record {
              dev = dev;
              shape = shape.now;
              marks = first_marks start number;
              tails = first_tails start;
              failed = None;
            }) }
        ensures holds { IfOk result (λ part. IfSome (L.seen dev).tells (IsFresh shape.now start number)
            → PartHolds L.seen start [] part) }
        ensures dev { MatchResult result (λ part. part.dev ≡ dev) (λ error. error.1 ≡ dev) }
    {
        match vec![in alloc; 0u8; ROOM] {
            Ok(buffer) => Ok(LogPart {
                dev,
                shape: *shape,
                marks: LogMarks {
                    stable: start,
                    written: start,
                    given: start,
                    number,
                    ckpt: start - BLOCK_HEADER,
                    asked: start - BLOCK_HEADER,
                },
                tails: TailMarks {
                    kept: start,
                    tail: HEADER_BLOCKS + 1,
                    newest: HEADER_BLOCKS + 1,
                },
                failed: None,
                buffer,
            }),
            Err(_) => Err((NoMemory, dev)),
        }
    }

    /// Up to here reads give the run.
    pub fn written(&self) -> u64
        ensures { result ≡ self.now.marks.written }
    {
        self.marks.written
    }

    /// Up to here the run survives each crash.
    pub fn stable(&self) -> u64
        ensures { result ≡ self.now.marks.stable }
    {
        self.marks.stable
    }

    /// The number of the newest checkpoint.
    pub fn number(&self) -> u64
        ensures { result ≡ self.now.marks.number }
    {
        self.marks.number
    }

    /// What the call answered that failed.
    pub fn failed(&self) -> Option<DevError>
        ensures { result ≡ self.now.failed }
    {
        self.failed
    }

    /// The device.
    pub fn into_dev(self) -> L
        ensures { result ≡ self.dev }
    {
        let LogPart { dev, .. } = self;
        dev
    }
}
