// The data of a log, cut into stretches whose groups are read side by side by several workers.
ghost use Rattle.std.specs.Prelude.{ℕ, List, ◌≤◌, ◌<◌, ◌+◌, ◌*◌, length, All, IfOk};
ghost use Rattle.model_base.specs.declared.limits.TheConstants.{LSN_LIMIT, MAX_LOG_BLOCKS};
ghost use Rattle.model_base.specs.declared.shape.Shape.{Shape};
ghost use Rattle.model_log.specs.{sn_of};
ghost use Rattle.redo_recover.specs.Runs.{HasRunGroups, IsFrontRun};

use crate::blocks::Blocks;
use crate::run::{Run, read_run};
use model_base::Shape;
use model_log::{BLOCK_DATA, BLOCK_HEADER, BlockView};
use rayon::prelude::*;
use redo_lsn::{NoMemory, lsn_and_sn, lsn_of, sn_of};
use std::alloc::Global;
use std::thread::Threads;

/// A stretch of the data: the byte with which it begins, and the first one after it.
#[derive(Clone, Copy, Debug, PartialEq, Eq)]
pub(crate) struct Stretch {
    pub(crate) from: usize,
    pub(crate) to: usize,
}

/// Where in the joined data of the blocks the first group starts that starts in this block or after it, as they say.
fn group_start(views: &[BlockView], block: usize) -> Option<usize>
    requires { length views.now ≤ MAX_LOG_BLOCKS }
{
    for i in block..views.len() {
        let first = u64::from(views[i].first);
        if BLOCK_HEADER <= first {
            return Some((BLOCK_DATA * i as u64 + first - BLOCK_HEADER) as usize);
        }
    }
    None
}

/// The data, of this length, cut into so many stretches or fewer. Each begins with a group, if the blocks are right about
/// where groups start; what is read doesn't rest on that.
fn stretches_of(
    alloc: Global,
    blocks: &Blocks,
    data_length: usize,
    count: u32,
) -> Result<Vec<Stretch>, NoMemory>
    requires few { length blocks.now.views.items ≤ MAX_LOG_BLOCKS }
    requires some { 1 ≤ count }
    ensures { IfOk result (λ stretches. All (λ stretch. stretch.from ≤ data_length) stretches.items) }
{
    let step = blocks.views.len() / count as usize;
    let skipped = blocks.joined.len().saturating_sub(data_length);
    let mut stretches = Vec::with_capacity(alloc, count as usize)?;
    let mut from = 0;
    for number in 1..count {
        let block = step.saturating_mul(number as usize);
        if let Some(at) = group_start(blocks.views.as_slice(), block) {
            let to = at.saturating_sub(skipped).min(data_length);
            stretches.push(Stretch { from, to })?;
            from = to;
        }
    }
    stretches.push(Stretch {
        from,
        to: data_length,
    })?;
    Ok(stretches)
}

/// The groups of a stretch of data that starts at this lsn.
fn read_stretch(
    alloc: Global,
    bytes: &[u8],
    start: u64,
    stretch: &Stretch,
    shape: &Shape,
) -> Result<Run, NoMemory>
    requires within { stretch.now.from ≤ length bytes.now }
    requires room { sn_of start + length bytes.now < 2 * LSN_LIMIT }
    ensures { IfOk result (HasRunGroups shape.now bytes.now) }
{
    lsn_and_sn();
    let Stretch { from, to } = *stretch;
    if from == 0 {
        return read_run(alloc, bytes, 0, start, to, shape);
    }
    let at = lsn_of(sn_of(start) + from as u64);
    read_run(alloc, bytes, from, at, to, shape)
}

/// The groups of the stretches, each of which is read by a worker of its own.
fn read_stretches(
    rt: &(impl Threads + Sync),
    alloc: Global,
    bytes: &[u8],
    start: u64,
    stretches: &[Stretch],
    shape: &Shape,
) -> Result<Vec<Run>, NoMemory>
    requires within { All (λ stretch. stretch.from ≤ length bytes.now) stretches.now }
    requires room { sn_of start + length bytes.now < 2 * LSN_LIMIT }
    ensures { IfOk result (λ runs. All (HasRunGroups shape.now bytes.now) runs.items) }
{
    let runs = stretches
        .par_iter()
        .with_min_len(1)
        .map(
            |stretch: &Stretch| -> Result<Run, NoMemory>
                requires { (stretch.now.from ≤ length bytes.now) × (sn_of start + length bytes.now < 2 * LSN_LIMIT) }
                ensures { IfOk result (HasRunGroups shape.entry.now bytes.entry.now) }
            { read_stretch(alloc, bytes, start, stretch, shape) },
        )
        .collect::<Result<Vec<Run>, NoMemory>>(rt, alloc)?;
    runs
}

/// The runs joined, as far as each begins where the one before it ends.
fn joined(alloc: Global, runs: Vec<Run>, start: u64) -> Result<Run, NoMemory>
    ensures { IfOk result (λ all. (shape : Shape) (bytes : List ℕ) → All (HasRunGroups shape bytes) runs.items → IsFrontRun shape bytes start all) }
{
    let mut all = Run::none(alloc, start);
    for run in runs {
        all.join(run)?;
    }
    Ok(all)
}

/// The groups in front of the data, read by so many workers.
pub(crate) fn read_by_all(
    rt: &(impl Threads + Sync),
    alloc: Global,
    blocks: &Blocks,
    bytes: &[u8],
    start: u64,
    shape: &Shape,
    count: u32,
) -> Result<Run, NoMemory>
    requires few { length blocks.now.views.items ≤ MAX_LOG_BLOCKS }
    requires room { sn_of start + length bytes.now < 2 * LSN_LIMIT }
    requires some { 1 ≤ count }
    ensures { IfOk result (IsFrontRun shape.now bytes.now start) }
{
    let stretches = stretches_of(alloc, blocks, bytes.len(), count)?;
    let runs = read_stretches(rt, alloc, bytes, start, stretches.as_slice(), shape)?;
    joined(alloc, runs, start)
}
