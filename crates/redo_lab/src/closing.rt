// What comes after a run's drive: what its archive lacks is appended, and all of it is given back.
ghost use Rattle.std.specs.Prelude.{◌≡◌, ◌≤◌, IfErr, IfOk, IfSome};
ghost use Rattle.model_base.specs.declared.limits.TheConstants.{START_LSN};
ghost use Rattle.redo_archiver.specs.{IsToFinish};
ghost use Rattle.redo_lab.specs.Begun.{IsClosedBy, IsUnrun};
ghost use Rattle.redo_lab.specs.Runs.{course_done, course_of, ended_by, played_of};

use crate::archiving::{device_of, failed_of, finish_run};
use crate::fitted::unplayed;
use crate::following::told_of;
use crate::playing::{Course, Played, Ran};
use model_report::{Fault, Followed};
use redo_archive::ArchPart;
use redo_disk::{DevError, Sectors};
use redo_drive::{Actor, Driven, RunEnd};
use redo_follow::Tally;
use redo_lsn::NoMemory;
use redo_memdisk::Fused;

/// What a drive leaves: the run, the actors, the followers among them, and the archive; or both devices as they were, and the
/// archive, where there was no memory.
pub(crate) type AfterDrive<L, D, A> = Result<
    (
        Driven<Fused<L>, Fused<D>>,
        Vec<Actor<Tally>>,
        Option<ArchPart<A>>,
    ),
    (NoMemory, Fused<L>, Fused<D>, Option<ArchPart<A>>),
>;

/// Why a run that all users ended comes to no text, or with a fault after it, by what a call of each device answered that
/// failed: a log fault goes before a data fault, both before the archive's, and all before want of memory.
fn ended_by(
    log: Option<DevError>,
    store: Option<DevError>,
    archive: Option<DevError>,
) -> Option<Fault>
    ensures { result ≡ ended_by log store archive }
{
    match (log, store, archive) {
        (Some(DevError::Failed), _, _) => Some(Fault::LogDevice),
        (_, Some(DevError::Failed), _) => Some(Fault::DataDevice),
        (_, _, Some(DevError::Failed)) => Some(Fault::ArchiveDevice),
        (None, None, None) => None,
        _ => Some(Fault::Memory),
    }
}

/// What a run comes to that all users ended.
fn course_done(played: Played, fault: Option<Fault>) -> Course
    ensures { result ≡ course_done played fault }
{
    match fault {
        Some(Fault::Memory) => Course::Ended(Fault::Memory),
        fault => Course::Played(played, fault),
    }
}

/// What a run comes to that was driven, by what a call of its archive's device answered that failed, too.
fn close<L: Sectors, D: Sectors>(
    start: u64,
    driven: Driven<Fused<L>, Fused<D>>,
    archive: Option<DevError>,
    follows: Vec<Followed>,
) -> Ran<L, D>
    ensures course { result.course ≡ course_of driven.ended (played_of start driven.closed follows)
        (ended_by driven.closed.log.failed driven.closed.store.failed archive) }
    ensures log { result.log ≡ driven.closed.log.dev }
    ensures store { result.store ≡ driven.closed.store.dev }
{
    let Driven { ended, closed } = driven;
    let fault = ended_by(closed.log.failed(), closed.store.failed(), archive);
    let played = Played {
        start,
        history: closed.history,
        marks: closed.marks,
        follows,
    };
    let course = match ended {
        RunEnd::Spent { turns, user } => Course::Ended(Fault::Turns(turns, user)),
        RunEnd::Done => course_done(played, fault),
    };
    Ran {
        course,
        log: closed.log.into_dev(),
        store: closed.store.into_dev(),
    }
}

/// Closes a run that started at this lsn: its archive has the rest appended, what is told of its followers is put into `follows`, and
/// the devices are given back, and the archive's.
pub(crate) fn close_run<L: Sectors, D: Sectors, A: Sectors>(
    start: u64,
    after: AfterDrive<L, D, A>,
    follows: Vec<Followed>,
) -> (Ran<L, D>, Option<A>)
    requires finish { IfOk after (λ left. IfSome left.2 (IsToFinish A.seen left.0.closed.marks.flushed)) }
    requires started { IfOk after (λ left. IfSome left.2 (λ part. START_LSN ≤ part.start)) }
    ensures closed { IfOk after (λ left. IsClosedBy L.seen L.gives A.seen A.gives start follows left.0 left.1.items
        left.2 result.0 result.1) }
    ensures unrun { IfErr after (λ error. IsUnrun error.1 error.2 error.3 result.0 result.1) }
{
    match after {
        Ok((driven, actors, archive)) => {
            let (driven, archive) = finish_run(driven, archive);
            let follows = told_of(follows, actors.as_slice());
            let ran = close(start, driven, failed_of(&archive), follows);
            (ran, device_of(archive))
        }
        Err((_, log, store, archive)) => {
            (unplayed(Fault::Memory, log, store), device_of(archive))
        }
    }
}
