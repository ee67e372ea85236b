// The steps of formatting.
ghost use Rattle.std.specs.Prelude.{◌≡◌, ◌≤◌, OnOk, OnErr};
ghost use Rattle.model_base.specs.{IsWithinLimits};
ghost use Rattle.model_base.specs.declared.limits.TheConstants.{BLOCK_SIZE};
ghost use Rattle.model_device.specs.{IsWithin};
ghost use Rattle.model_log.specs.{log_device_length};
ghost use Rattle.model_log.specs.declared.layout.TheConstants.{HEADER_BYTES};
ghost use Rattle.model_page.specs.{data_device_length};
ghost use Rattle.redo_disk.specs.{error_of, HasCause, HasSize, MakesCalls, OnTold};
ghost use Rattle.redo_open.specs.Blank.{HasBlankPages, HasNewLog, HasNoBlocks, IsHeadless, LosesHead, LostHead, MayBeNewLog};
ghost use Rattle.redo_open.specs.Puts.{PutsWhere};

use crate::put::{put_block, put_checkpoint, put_head};
use crate::zeros::{erase, erase_and_sync};
use model_base::{BLOCK_SIZE, START_LSN, Shape};
use redo_disk::{DevError, Sectors};
use redo_lsn::{log_device_length, run_layout};

/// Takes the header away, for good. The block that stands in for the first one goes first, so that never a header is read
/// that wasn't before. Whatever was pending stays.
pub(crate) fn clear_heads<L: Sectors>(log: &mut L) -> Result<(), DevError>
    requires { HEADER_BYTES ≤ (L.seen log.old).size }
    ensures loses { OnTold (L.seen log.old).tells (L.seen log.new).tells
        (λ old new. HasSize (L.seen log.old).size old → LosesHead old new) }
    ensures ok { OnOk result (OnTold (L.seen log.old).tells (L.seen log.new).tells
        (λ old new. HasSize (L.seen log.old).size old → LostHead (L.seen log.old).size new)) }
    ensures size { (L.seen log.new).size ≡ (L.seen log.old).size }
    ensures cause { HasCause (L.seen log.old).faults (L.seen log.new).faults result }
    ensures calls { MakesCalls L.gives log.old log.new (PutsWhere (IsWithin HEADER_BYTES) (error_of result)) }
{
    let zeros = [0; 512];
    log.sync()?;
    put_block(log, 2, &zeros)?;
    put_block(log, 0, &zeros)
}

/// Fills all blocks from the second header block on with zeros, for good.
pub(crate) fn clear_blocks<L: Sectors>(log: &mut L, shape: &Shape) -> Result<(), DevError>
    requires limits { IsWithinLimits shape.now }
    requires long { log_device_length shape.now ≤ (L.seen log.old).size }
    ensures headless { OnTold (L.seen log.old).tells (L.seen log.new).tells
        (λ old new. LostHead (L.seen log.old).size old → IsHeadless new) }
    ensures ok { OnOk result (OnTold (L.seen log.old).tells (L.seen log.new).tells
        (λ old new. LostHead (L.seen log.old).size old → HasNoBlocks shape.now new)) }
    ensures size { (L.seen log.new).size ≡ (L.seen log.old).size }
    ensures cause { HasCause (L.seen log.old).faults (L.seen log.new).faults result }
    ensures calls { MakesCalls L.gives log.old log.new (PutsWhere (IsWithin (log_device_length shape.now)) (error_of result)) }
{
    erase_and_sync(log, 2 * BLOCK_SIZE, log_device_length(shape))
}

/// Fills all slots and places with zeros, for good.
pub(crate) fn clear_pages<D: Sectors>(device: &mut D, shape: &Shape) -> Result<(), DevError>
    requires limits { IsWithinLimits shape.now }
    requires long { data_device_length shape.now ≤ (D.seen device.old).size }
    ensures told { OnTold (D.seen device.old).tells (D.seen device.new).tells (λ _ _. Unit {0}) }
    ensures ok { OnOk result (OnTold (D.seen device.old).tells (D.seen device.new).tells
        (λ old new. HasSize (D.seen device.old).size old → HasBlankPages shape.now new)) }
    ensures size { (D.seen device.new).size ≡ (D.seen device.old).size }
    ensures cause { HasCause (D.seen device.old).faults (D.seen device.new).faults result }
    ensures calls { MakesCalls D.gives device.old device.new (PutsWhere (IsWithin (data_device_length shape.now)) (error_of result)) }
{
    let data_end = u64::from(shape.slots + shape.pages) * u64::from(shape.page_size);
    erase(device, 0, data_end)?;
    device.sync()
}

/// Puts the first checkpoint, and then the header into its two blocks.
pub(crate) fn put_new_log<L: Sectors>(log: &mut L, shape: &Shape) -> Result<(), DevError>
    requires limits { IsWithinLimits shape.now }
    requires long { log_device_length shape.now ≤ (L.seen log.old).size }
    ensures keeps { OnTold (L.seen log.old).tells (L.seen log.new).tells (λ old new. HasNoBlocks shape.now old → MayBeNewLog shape.now new) }
    ensures ok { OnOk result (OnTold (L.seen log.old).tells (L.seen log.new).tells
        (λ old new. HasNoBlocks shape.now old → HasNewLog shape.now new)) }
    ensures size { (L.seen log.new).size ≡ (L.seen log.old).size }
    ensures cause { HasCause (L.seen log.old).faults (L.seen log.new).faults result }
    ensures calls { MakesCalls L.gives log.old log.new (PutsWhere (IsWithin (log_device_length shape.now)) (error_of result)) }
{
    put_checkpoint(log, &run_layout(shape), 0, START_LSN)?;
    put_head(log, 0, shape)?;
    put_head(log, 2, shape)
}
