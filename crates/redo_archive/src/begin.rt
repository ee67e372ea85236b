// Beginning an archive.
ghost use Rattle.std.specs.Prelude.{IfErr, IfOk};
ghost use Rattle.model_archive.specs.{IsRunStart};
ghost use Rattle.model_base.specs.{IsWithinLimits};
ghost use Rattle.redo_apply.specs.{ArePagesOf};
ghost use Rattle.redo_archive.specs.Part.{IsBegun, IsNotBegun};

use crate::places::pages_end;
use crate::puts::put_archive;
use crate::{ArchPart, BeginFault};
use model_archive::ArchMarks;
use model_base::Shape;
use redo_apply::Pages;
use redo_disk::{DevError, Sectors};
use std::alloc::Global;

impl<A: Sectors> ArchPart<A> {
    /// Begins the archive of a run that starts there with these pages. It zeroes the head and the marks, then writes
    /// the pages, one by one, and the first mark, then the head, and syncs the device after each of the three. An archive
    /// that stood on the device can't be restored from the first sync on.
    ///
    /// It fails with `Small` where the device is shorter than the head, the marks and the pages, which is judged before
    /// any call, so that the device comes back as it was; with `Dev` where the device fails, and with `NoMemory`. After
    /// the latter two nothing is promised of what stands on the device. It takes memory for one page.
    pub fn begin(
        alloc: Global,
        dev: A,
        shape: &Shape,
        start: u64,
        pages: &Pages,
    ) -> Result<ArchPart<A>, (BeginFault, A)>
        requires limits { IsWithinLimits shape.now }
        requires run_start { IsRunStart start }
        requires its_pages { ArePagesOf shape.now pages.now }
        ensures begun { IfOk result (IsBegun A.seen A.gives shape.now start pages.now dev) }
        ensures fault { IfErr result (λ error. IsNotBegun A.seen shape.now dev error.0 error.1) }
    {
        let asked = pages_end(shape);
        if dev.len() < asked {
            return Err((BeginFault::Small(asked), dev));
        }
        let mut dev = dev;
        match put_archive(alloc, &mut dev, shape, start, pages) {
            Ok(()) => Ok(ArchPart {
                dev,
                shape: *shape,
                start,
                marks: ArchMarks {
                    number: 0,
                    mark: start,
                    asked: start,
                },
                failed: None,
            }),
            Err(DevError::Failed) => Err((BeginFault::Dev, dev)),
            Err(DevError::NoMemory) => Err((BeginFault::NoMemory, dev)),
        }
    }
}
