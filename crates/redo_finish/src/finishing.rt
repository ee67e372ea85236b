// After a run: what its archive lacks.
ghost use Rattle.std.specs.Prelude.{◌≡◌, ◌≤◌, ◌<◌, None, false, true};
ghost use Rattle.model_base.specs.declared.limits.TheConstants.{START_LSN};
ghost use Rattle.redo_archiver.specs.{IsToFinish};
ghost use Rattle.redo_finish.specs.{Finishes};

use model_archive::boundary_block_archived;
use model_base::BLOCK_SIZE;
use redo_archive::ArchPart;
use redo_archiver::{append_block, archive_finishes};
use redo_disk::Sectors;
use redo_drive::call_read;
use redo_logdev::LogPart;
use redo_lsn::block_of;

/// Appends one more block of what an archive lacks, where neither part has failed. It tells if it did.
fn append_next<L: Sectors, A: Sectors>(
    log: &mut LogPart<L>,
    part: &mut ArchPart<A>,
    flushed: u64,
) -> bool
    requires finish { IsToFinish A.seen flushed part.old }
    requires started { START_LSN ≤ part.old.start }
    requires lacks { part.old.marks.mark < flushed }
    ensures finishes { Finishes L.seen L.gives A.seen A.gives flushed log.old log.new part.old part.new }
    ensures on { result ≡ true → part.old.marks.mark < part.new.marks.mark }
    ensures ends { result ≡ false → log.new.failed ≡ None → part.new.failed ≡ None → ⊥ }
{
    archive_finishes::<A>();
    boundary_block_archived();
    if log.failed().is_some() || part.failed().is_some() {
        return false;
    }
    let mut block = [0; 512];
    let from = part.mark();
    if call_read(log, block_of(from), &mut block).is_err() {
        return false;
    }
    let mark = (from + BLOCK_SIZE).min(flushed);
    let _ = append_block(part, &block, mark);
    part.failed().is_none()
}

/// Appends to an archive what it lacks of a run's log, block by block, the last with FLUSHED as its mark. Where the log part
/// or the archive part has failed it does nothing, and with a call that fails it ends; the parts tell of that.
pub fn finish_archive<L: Sectors, A: Sectors>(
    log: &mut LogPart<L>,
    part: &mut ArchPart<A>,
    flushed: u64,
)
    requires finish { IsToFinish A.seen flushed part.old }
    requires started { START_LSN ≤ part.old.start }
    ensures done { log.new.failed ≡ None → part.new.failed ≡ None → part.new.marks.mark ≡ flushed }
    ensures finishes { Finishes L.seen L.gives A.seen A.gives flushed log.old log.new part.old part.new }
{
    while part.mark() < flushed {
        if !append_next(log, part, flushed) {
            return;
        }
    }
}
