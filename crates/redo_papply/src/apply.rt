// The groups of a log, applied to all pages by several workers.
ghost use Rattle.std.specs.Prelude.{◌≡◌, ◌≤◌, ◌<◌, length, IfOk};
ghost use Rattle.std.specs.List.{AllZip, range_with_len};
ghost use Rattle.model_base.specs.declared.shape.Shape.{Shape};
ghost use Rattle.model_base.specs.declared.limits.TheConstants.{MAX_PAGES};
ghost use Rattle.rayon.specs.Lists.{chunks_of};
ghost use Rattle.redo_apply.specs.{ArePagesOf, AreReplayed};
ghost use Rattle.redo_papply.specs.Fits.{FitPages};
ghost use Rattle.redo_papply.specs.Frames.{IsFrameOf};
ghost use Rattle.redo_papply.specs.Runs.{AreNumbersOf};

use crate::frame::Frame;
use crate::merge::{joined, put_frames};
use crate::run::apply_run;
use model_log::Whole;
use rayon::prelude::*;
use redo_apply::Pages;
use redo_lsn::NoMemory;
use std::alloc::Global;
use std::thread::Threads;

/// The greatest number of workers.
pub const MAX_WORKERS: u32 = 16;

/// The numbers of the pages.
fn numbers_of(alloc: Global, pages: &Pages) -> Result<Vec<u32>, NoMemory>
    requires { length pages.now ≤ MAX_PAGES }
    ensures { IfOk result (λ numbers. numbers.items ≡ range_with_len 0 (length pages.now)) }
{
    let mut numbers = Vec::with_capacity(alloc, pages.len())?;
    for number in 0..pages.len() as u32 {
        numbers.push(number)?;
    }
    Ok(numbers)
}

/// Applies the groups to all pages, whose numbers these are; each run of `size` of them is one worker's.
fn apply_runs(
    rt: &(impl Threads + Sync),
    alloc: Global,
    pages: &Pages,
    groups: &[Whole],
    numbers: &[u32],
    size: usize,
) -> Result<Vec<Vec<Frame>>, NoMemory>
    requires numbers { numbers.now ≡ range_with_len 0 (length pages.now) }
    requires size { 0 < size }
    requires fit { FitPages groups.now pages.now }
    ensures { IfOk result (λ runs. AllZip (λ run frames. AllZip (IsFrameOf groups.now pages.now) run frames.items)
        (chunks_of size numbers.now) runs.items) }
{
    let runs = numbers
        .par_chunks(size)
        .with_min_len(1)
        .map(
            |run: &[u32]| -> Result<Vec<Frame>, NoMemory>
                requires { AreNumbersOf pages.now run.now × FitPages groups.now pages.now }
                ensures { IfOk result (λ frames. AllZip (IsFrameOf groups.entry.now pages.entry.now) run.now frames.items) }
            { apply_run(alloc, pages, groups, run) },
        )
        .collect::<Result<Vec<Vec<Frame>>, NoMemory>>(rt, alloc)?;
    runs
}

/// Applies to each page each of these groups that starts at or above the page's lsn, in order. The pages are cut into as many
/// runs as there are workers, each as long as the others but for the last, and each worker goes over all groups for its own.
pub fn apply_all(
    rt: &(impl Threads + Sync),
    alloc: Global,
    pages: &Pages,
    groups: &[Whole],
    workers: u32,
) -> Result<Pages, NoMemory>
    requires workers { (1 ≤ workers) × (workers ≤ MAX_WORKERS) }
    requires fit { FitPages groups.now pages.now }
    ensures replayed { IfOk result (AreReplayed groups.now pages.now) }
    ensures its_pages { IfOk result (λ after. (shape : Shape) → ArePagesOf shape pages.now → ArePagesOf shape after) }
{
    let numbers = numbers_of(alloc, pages)?;
    let size = pages.len().div_ceil(workers as usize);
    let runs = apply_runs(rt, alloc, pages, groups, numbers.as_slice(), size)?;
    let frames = joined(alloc, runs)?;
    let mut after = pages.copy(alloc)?;
    put_frames(&mut after, frames.as_slice());
    Ok(after)
}
