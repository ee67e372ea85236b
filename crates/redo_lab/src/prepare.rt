// The devices before a run: formatted, where the log device is unused.
ghost use Rattle.std.specs.Prelude.{◌≡◌, ◌≤◌, ◌↔◌, IsTrue, IfOk, IfSome, replicate};
ghost use Rattle.model_base.specs.declared.limits.TheConstants.{BLOCK_SIZE};
ghost use Rattle.model_log.specs.declared.layout.TheConstants.{HEADER_BYTES};
ghost use Rattle.model_store.specs.{IsUnused};
ghost use Rattle.redo_disk.specs.{MakesCalls, error_of};
ghost use Rattle.redo_lab.specs.Devices.{IsFirstRead};
ghost use Rattle.redo_lab.specs.Call.{AreOf, call_on, Handed};
ghost use Rattle.redo_lab.specs.Runs.{Prepares};
ghost use Rattle.redo_memdisk.specs.{entry_of, fresh, fuse_of, inner_of};

use crate::laws::laws;
use model_base::Shape;
use model_log::HEADER_BYTES;
use redo_disk::{DevError, Sectors};
use redo_memdisk::Fused;
use redo_open::format;
use redo_recover::{RecFault, log_fault};

/// How many bytes the header blocks have, the first and the second, with a checkpoint's between them.
const HEADS: usize = 1_536;

/// Whether a block is all zero.
fn is_blank(block: &[u8]) -> bool
    ensures { IsTrue result ↔ block.now ≡ replicate BLOCK_SIZE 0 }
{
    block == [0; 512].as_slice()
}

/// Whether both header blocks are all zero.
fn are_blank(blocks: &[u8; HEADS]) -> bool
    ensures { IsTrue result ↔ IsUnused blocks.now }
{
    is_blank(&blocks[..512]) && is_blank(&blocks[1_024..])
}

/// Whether the log device is unused: its two header blocks are all zero. One read gives both.
fn is_unused<L: Sectors>(log: &mut L) -> Result<bool, DevError>
    requires { HEADER_BYTES ≤ (L.seen log.old).size }
    ensures unused { IfOk result (λ unused. IfSome (L.seen log.new).tells (λ disk. IsTrue unused ↔ IsUnused disk.reads)) }
    ensures calls { MakesCalls L.gives log.old log.new (IsFirstRead (error_of result)) }
{
    let mut blocks = [0; HEADS];
    match log.read(0, &mut blocks) {
        Ok(()) => Ok(are_blank(&blocks)),
        Err(error) => Err(error),
    }
}

/// Formats both devices with the default sizes, where the log device is unused. It needs room for a header to be judged.
pub(crate) fn prepare<L: Sectors, D: Sectors>(
    log: &mut Fused<L>,
    store: &mut Fused<D>,
) -> Result<(), RecFault>
    requires log_fresh { fuse_of log.old ≡ fresh }
    requires data_fresh { fuse_of store.old ≡ fresh }
    ensures prepares { (handed : Handed)
        → Prepares (call_on L.seen L.gives D.seen D.gives handed (inner_of log.old) (inner_of store.old) log.new store.new) result }
    ensures entered { AreOf (entry_of log.old) (entry_of store.old) log.new store.new }
{
    laws();
    if log.len() < HEADER_BYTES {
        return Err(RecFault::SmallLog(HEADER_BYTES));
    }
    match is_unused(log) {
        Ok(true) => match format(log, store, &Shape::default_shape()) {
            Ok(()) => Ok(()),
            Err(fault) => Err(fault),
        },
        Ok(false) => Ok(()),
        Err(error) => Err(log_fault(error)),
    }
}
