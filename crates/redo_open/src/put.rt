// Putting one block of the log device, so that it stays.
ghost use Rattle.std.specs.Prelude.{◌≡◌, ◌≤◌, ◌<◌, ◌^◌};
ghost use Rattle.model_base.specs.declared.limits.TheConstants.{START_LSN};
ghost use Rattle.model_log.specs.{checkpoint_text, head_text, IsLayout, place_of, run_format};
ghost use Rattle.model_log.specs.declared.layout.TheConstants.{HEADER_BYTES};
ghost use Rattle.redo_disk.specs.{error_of, MakesCalls, put_requests, Serve};
ghost use Rattle.redo_open.specs.Put.{block_write, end_of_block, PutStep};

use model_base::{BLOCK_SIZE, Shape};
use model_log::Layout;
use redo_disk::{DevError, Sectors, write_and_sync};
use redo_header::{fill_ckpt, fill_head, place_of};
use redo_lsn::run_format;

/// Writes these bytes into the block of this number, and makes that stay.
pub(crate) fn put_block<L: Sectors>(log: &mut L, k: u32, bytes: &[u8; 512]) -> Result<(), DevError>
    requires { end_of_block k ≤ (L.seen log.old).size }
    ensures step { PutStep k bytes.now (L.seen log.old) result (L.seen log.new) }
    ensures calls { MakesCalls L.gives log.old log.new (Serve (put_requests (block_write k bytes.now)) (error_of result)) }
{
    write_and_sync(log, BLOCK_SIZE * u64::from(k), bytes)
}

/// Puts the checkpoint of this number at this lsn, by a layout.
pub(crate) fn put_checkpoint<L: Sectors>(
    log: &mut L,
    layout: &Layout,
    number: u64,
    lsn: u64,
) -> Result<(), DevError>
    requires layout { IsLayout layout.now }
    requires long { HEADER_BYTES ≤ (L.seen log.old).size }
    requires started { START_LSN ≤ lsn }
    requires small { lsn < 2 ^ 61 }
    ensures step { PutStep (place_of number) (checkpoint_text number lsn layout.now) (L.seen log.old) result (L.seen log.new) }
    ensures calls { MakesCalls L.gives log.old log.new
        (Serve (put_requests (block_write (place_of number) (checkpoint_text number lsn layout.now))) (error_of result)) }
{
    let mut block = [0; 512];
    fill_ckpt(&mut block, number, lsn, layout);
    put_block(log, place_of(number), &block)
}

/// Puts the header of a store of this shape into a header block, by format 3 if it has the slots of that, else by format 2.
pub(crate) fn put_head<L: Sectors>(log: &mut L, k: u32, shape: &Shape) -> Result<(), DevError>
    requires { end_of_block k ≤ (L.seen log.old).size }
    ensures step { PutStep k (head_text (run_format shape.now) shape.now) (L.seen log.old) result (L.seen log.new) }
    ensures calls { MakesCalls L.gives log.old log.new
        (Serve (put_requests (block_write k (head_text (run_format shape.now) shape.now))) (error_of result)) }
{
    let mut block = [0; 512];
    fill_head(&mut block, run_format(shape), shape);
    put_block(log, k, &block)
}
