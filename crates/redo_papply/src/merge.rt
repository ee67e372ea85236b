// The pages of all workers, put together.
ghost use Rattle.std.specs.Prelude.{◌≡◌, ◌≤◌, length, map, IfOk};
ghost use Rattle.std.specs.List.{flat_map};
ghost use Rattle.model_base.specs.declared.limits.TheConstants.{MAX_PAGES};
ghost use Rattle.redo_papply.specs.Frames.{content_of};
ghost use Rattle.redo_papply.specs.Runs.{HaveSizes};

use crate::frame::Frame;
use redo_apply::Pages;
use redo_lsn::NoMemory;
use std::alloc::Global;

/// The frames of all runs, one run after another.
pub(crate) fn joined(alloc: Global, runs: Vec<Vec<Frame>>) -> Result<Vec<Frame>, NoMemory>
    ensures { IfOk result (λ frames. frames.items ≡ flat_map (λ run. run.items) runs.items) }
{
    let mut frames = Vec::new(alloc);
    for mut run in runs {
        frames.append(&mut run)?;
    }
    Ok(frames)
}

/// Gives each page the content that its frame has.
pub(crate) fn put_frames(pages: &mut Pages, frames: &[Frame])
    requires few { length pages.old ≤ MAX_PAGES }
    requires count { length frames.now ≡ length pages.old }
    requires sizes { HaveSizes frames.now pages.old }
    ensures { pages.new ≡ map content_of frames.now }
{
    for number in 0..pages.len() as u32 {
        let frame = &frames[number as usize];
        pages.put(number, frame.lsn, frame.user.as_slice());
    }
}
