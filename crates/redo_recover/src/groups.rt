// The groups in the data of a log.
ghost use Rattle.std.specs.Prelude.{◌≡◌, ◌+◌, ◌-◌, ◌≤◌, ◌<◌, ◌*◌, ◌%◌, length, drop, IfOk, IfErr};
ghost use Rattle.model_base.specs.{IsWithinLimits};
ghost use Rattle.model_base.specs.declared.limits.TheConstants.{LSN_LIMIT, MAX_LOG_BLOCKS};
ghost use Rattle.model_log.specs.{sn_of};
ghost use Rattle.model_log.specs.declared.layout.Layout.{Layout};
ghost use Rattle.model_store.specs.{groups_start};
ghost use Rattle.redo_recover.specs.Blocks.{AreBounded};
ghost use Rattle.redo_recover.specs.Groups.{GivesStorable, EndAt, IsBreakFault, AreParsed, IsEndOf, IsParseFault};
ghost use Rattle.redo_recover.specs.Runs.{IsFrontRun};

use crate::RecFault;
use crate::blocks::{Blocks, groups_start};
use crate::replay::Replay;
use crate::run::Run;
use model_base::{BLOCK_SIZE, Shape};
use model_log::{BLOCK_HEADER, Whole};
use redo_lsn::{NoMemory, lsn_and_sn, lsn_of, sn_of};
use redo_num::Got;
use redo_record::{Fits, Group, decode, one_group};
use std::alloc::Global;

/// Reads a group that fits the store off the front of the bytes.
pub fn read_storable(alloc: Global, bytes: &[u8], shape: &Shape) -> Result<Got<Group>, NoMemory>
    ensures { IfOk result (GivesStorable shape.now bytes.now) }
{
    one_group();
    match decode(alloc, bytes)? {
        Got::Value(group, taken) => {
            if group.fits(shape) {
                Ok(Got::Value(group, taken))
            } else {
                Ok(Got::Bad)
            }
        }
        Got::Short => Ok(Got::Short),
        Got::Bad => Ok(Got::Bad),
    }
}

/// The groups that fit the store from the lsn `start` on, one after another, and the lsn at which they end; or the lsn
/// at which stands neither one more nor less than a whole one. Some of them, in front, are read already.
pub(crate) fn scan_groups(
    alloc: Global,
    front: Run,
    bytes: &[u8],
    start: u64,
    shape: &Shape,
) -> Result<(Vec<Whole>, u64), RecFault>
    requires room { sn_of start + length bytes.now < 2 * LSN_LIMIT }
    requires front { IsFrontRun shape.now bytes.now start front }
    ensures groups { IfOk result (λ found. EndAt shape.now bytes.now start found.0.items found.1) }
    ensures fault { IfErr result (IsBreakFault shape.now bytes.now start) }
{
    lsn_and_sn();
    let mut rest = &bytes[front.to..];
    let mut end = front.end;
    let mut wholes = front.wholes;
    'groups: loop {
        match read_storable(alloc, rest, shape)? {
            Got::Value(group, taken) => {
                let next = lsn_of(sn_of(end) + taken as u64);
                wholes.push(Whole {
                    group,
                    start: end,
                    end: next,
                })?;
                end = next;
                rest = &rest[taken..];
            }
            Got::Short => return Ok((wholes, end)),
            Got::Bad => return Err(RecFault::BadRecord(end)),
        }
    }
}

/// Of data that begins in the block at the lsn `ckpt`, what stands from the lsn `start` on.
fn data_from(bytes: &[u8], ckpt: u64, start: u64) -> &[u8]
    ensures { result.now ≡ drop (sn_of start - sn_of ckpt) bytes.now }
{
    let from = sn_of(start).saturating_sub(sn_of(ckpt)) as usize;
    &bytes[from.min(bytes.len())..]
}

/// The groups in the data of blocks from the checkpoint on, and the lsn at which the log ends.
pub(crate) fn parse<P: Replay>(
    alloc: Global,
    blocks: &Blocks,
    shape: &Shape,
    ckpt: u64,
    replay: &P,
) -> Result<(Vec<Whole>, u64), RecFault>
    requires ready { P.is_ready replay.now }
    requires limits { IsWithinLimits shape.now }
    requires bounded { AreBounded MAX_LOG_BLOCKS blocks.now.views.items blocks.now.joined.items }
    requires aligned { ckpt % BLOCK_SIZE ≡ 0 }
    requires small { ckpt < LSN_LIMIT }
    ensures parsed { IfOk result (λ found. AreParsed ckpt (length blocks.now.views.items) shape.now blocks.now.joined.items
        (groups_start ckpt blocks.now.views.items) found.0.items found.1) }
    ensures end { (layout : Layout) → length blocks.now.views.items ≤ layout.blocks → IfOk result (λ found. IsEndOf layout ckpt found.0.items found.1) }
    ensures fault { IfErr result (IsParseFault ckpt shape.now blocks.now.joined.items (groups_start ckpt blocks.now.views.items)) }
{
    let Some(start) = groups_start(ckpt, blocks.views.as_slice()) else {
        let end = ckpt + BLOCK_SIZE * blocks.views.len() as u64 + BLOCK_HEADER;
        return Ok((Vec::new(alloc), end));
    };
    let bytes = data_from(blocks.joined.as_slice(), ckpt, start);
    let front = replay.read_front(alloc, blocks, bytes, start, shape)?;
    scan_groups(alloc, front, bytes, start, shape)
}
