// What one worker does: it applies the groups to a run of pages that stand side by side.
ghost use Rattle.std.specs.Prelude.{◌∷◌, [], IfOk};
ghost use Rattle.std.specs.List.{AllZip};
ghost use Rattle.redo_papply.specs.Fits.{FitFrames, FitPages};
ghost use Rattle.redo_papply.specs.Frames.{AreAfterGroup, IsFrameOf};
ghost use Rattle.redo_papply.specs.Runs.{AreNumbersOf};

use crate::frame::Frame;
use model_log::{Group, Rec, Whole};
use redo_apply::{Pages, page_of};
use redo_lsn::NoMemory;
use std::alloc::Global;

/// Applies a record of a group with this start and this end to the pages from `first` on, which these frames have: to the one
/// that it is on, if that is among them and the group may be applied to it.
fn apply_record(frames: &mut [Frame], first: u32, rec: &Rec, start: u64, end: u64)
    requires { FitFrames (rec.now ∷ []) frames.old }
    ensures { AreAfterGroup first (rec.now ∷ []) start end frames.old frames.new }
{
    let page = page_of(rec);
    if page < first {
        return;
    }
    let at = (page - first) as usize;
    if at < frames.len() {
        frames[at].apply(rec, start, end);
    }
}

/// Applies a group with this start and this end to those of the pages from `first` on, which these frames have, to which it
/// may be applied.
fn apply_group(frames: &mut [Frame], first: u32, group: &Group, start: u64, end: u64)
    requires { FitFrames group.now frames.old }
    ensures { AreAfterGroup first group.now start end frames.old frames.new }
{
    for rec in group.0.iter() {
        apply_record(frames, first, rec, start, end);
    }
}

/// The pages of these numbers, to which no group was applied.
fn frames_of(alloc: Global, pages: &Pages, numbers: &[u32]) -> Result<Vec<Frame>, NoMemory>
    requires { AreNumbersOf pages.now numbers.now }
    ensures { IfOk result (λ frames. AllZip (IsFrameOf [] pages.now) numbers.now frames.items) }
{
    let mut frames = Vec::with_capacity(alloc, numbers.len())?;
    for number in numbers {
        frames.push(Frame::of(alloc, pages, *number)?)?;
    }
    Ok(frames)
}

/// The pages of these numbers, with each of the groups applied that starts at or above the page's lsn.
pub(crate) fn apply_run(
    alloc: Global,
    pages: &Pages,
    groups: &[Whole],
    numbers: &[u32],
) -> Result<Vec<Frame>, NoMemory>
    requires run { AreNumbersOf pages.now numbers.now }
    requires fit { FitPages groups.now pages.now }
    ensures { IfOk result (λ frames. AllZip (IsFrameOf groups.now pages.now) numbers.now frames.items) }
{
    let mut frames = frames_of(alloc, pages, numbers)?;
    for whole in groups {
        apply_group(
            frames.as_mut_slice(),
            numbers[0],
            &whole.group,
            whole.start,
            whole.end,
        );
    }
    Ok(frames)
}
