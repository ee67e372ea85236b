// The archive of a run.
ghost use Rattle.std.specs.Prelude.{◌≡◌, ◌≤◌, IfErr, IfOk, IfSome, None, Some, if◌then◌else◌, is_some, not, option_map};
ghost use Rattle.model_archive.specs.{IsRunStart, pages_end};
ghost use Rattle.model_base.specs.declared.limits.TheConstants.{START_LSN};
ghost use Rattle.redo_archive.specs.{IsBegun};
ghost use Rattle.redo_archiver.specs.{IsToFinish};
ghost use Rattle.redo_lab.specs.Archiving.{AreBegun, AreUnbegunBy, HasFinished, HaveFinished, IsUnbegunBy, device_of, failed_of};
ghost use Rattle.redo_store.specs.{IsRunnable};

use model_report::Fault;
use redo_archive::{ArchPart, BeginFault};
use redo_disk::{DevError, Sectors};
use redo_drive::{Driven, RunEnd};
use redo_finish::finish_archive;
use redo_store::Opened;
use std::alloc::Global;

/// How many bytes the device has on which a run is to be archived, if it is.
pub(crate) fn room_on<A: Sectors>(arch: &Option<A>) -> Option<u64>
    ensures { result ≡ option_map (λ device. (A.seen device).size) arch.now }
{
    match arch {
        Some(arch) => Some(arch.len()),
        None => None,
    }
}

/// The archive's device, handed on where a run is archived, and kept where it isn't.
pub(crate) fn hand_on<A>(archived: bool, arch: A) -> (Option<A>, Option<A>)
    ensures on { result.0 ≡ (if archived then Some arch else None) }
    ensures kept { result.1 ≡ (if archived then None else Some arch) }
{
    if archived {
        (Some(arch), None)
    } else {
        (None, Some(arch))
    }
}

/// The device again: given back, or kept.
pub(crate) fn take_back<A>(left: Option<A>, kept: Option<A>) -> A
    requires one { is_some left ≡ not (is_some kept) }
    ensures left { IfSome left (λ device. result ≡ device) }
    ensures kept { IfSome kept (λ device. result ≡ device) }
{
    match (left, kept) {
        (Some(arch), None) | (None, Some(arch)) => arch,
        (Some(_given), Some(_kept)) => unreachable!(),
        (None, None) => unreachable!(),
    }
}

/// Begins the archive of a run on the opened store, on a device that has room for its pages. A device that fails ends the run before
/// its first line.
fn begin_archive<L: Sectors, D: Sectors, A: Sectors>(
    alloc: Global,
    opened: &Opened<L, D>,
    arch: A,
) -> Result<ArchPart<A>, (Fault, A)>
    requires runnable { IsRunnable opened.now }
    requires start { IsRunStart opened.now.start }
    requires room { pages_end opened.now.shape ≤ (A.seen arch).size }
    ensures begun { IfOk result (IsBegun A.seen A.gives opened.now.shape opened.now.start opened.now.pages arch) }
    ensures fault { IfErr result (λ error. IsUnbegunBy A.seen arch error.0 error.1) }
{
    match ArchPart::begin(alloc, arch, &opened.shape, opened.start, &opened.pages) {
        Ok(part) => Ok(part),
        Err((BeginFault::Dev, arch)) => Err((Fault::ArchiveDevice, arch)),
        Err((_, arch)) => Err((Fault::Memory, arch)),
    }
}

/// The same, if a device was handed on for it.
pub(crate) fn begin_on<L: Sectors, D: Sectors, A: Sectors>(
    alloc: Global,
    opened: &Opened<L, D>,
    arch: Option<A>,
) -> Result<Option<ArchPart<A>>, (Fault, A)>
    requires runnable { IsRunnable opened.now }
    requires start { IsRunStart opened.now.start }
    requires room { IfSome arch (λ device. pages_end opened.now.shape ≤ (A.seen device).size) }
    ensures begun { IfOk result (AreBegun A.seen A.gives opened.now arch) }
    ensures fault { IfErr result (λ error. AreUnbegunBy A.seen arch error.0 error.1) }
{
    match arch {
        Some(arch) => match begin_archive(alloc, opened, arch) {
            Ok(part) => Ok(Some(part)),
            Err(error) => Err(error),
        },
        None => Ok(None),
    }
}

/// Appends what the archive of a run lacks.
fn append_rest<L: Sectors, D: Sectors, A: Sectors>(
    driven: Driven<L, D>,
    part: ArchPart<A>,
) -> (Driven<L, D>, ArchPart<A>)
    requires finish { IsToFinish A.seen driven.closed.marks.flushed part }
    requires started { START_LSN ≤ part.start }
    ensures { HasFinished L.seen L.gives A.seen A.gives driven result.0 part result.1 }
{
    let Driven { ended, mut closed } = driven;
    let mut part = part;
    finish_archive(&mut closed.log, &mut part, closed.marks.flushed);
    (Driven { ended, closed }, part)
}

/// The same, if there is an archive and all users have ended.
pub(crate) fn finish_run<L: Sectors, D: Sectors, A: Sectors>(
    driven: Driven<L, D>,
    archive: Option<ArchPart<A>>,
) -> (Driven<L, D>, Option<ArchPart<A>>)
    requires finish { IfSome archive (IsToFinish A.seen driven.closed.marks.flushed) }
    requires started { IfSome archive (λ part. START_LSN ≤ part.start) }
    ensures { HaveFinished L.seen L.gives A.seen A.gives driven result.0 archive result.1 }
{
    match archive {
        Some(part) => match driven.ended {
            RunEnd::Done => {
                let (driven, part) = append_rest(driven, part);
                (driven, Some(part))
            }
            RunEnd::Spent { .. } => (driven, Some(part)),
        },
        None => (driven, None),
    }
}

/// What a call of the archive's device answered that failed.
pub(crate) fn failed_of<A: Sectors>(archive: &Option<ArchPart<A>>) -> Option<DevError>
    ensures { result ≡ failed_of archive.now }
{
    match archive {
        Some(part) => part.failed(),
        None => None,
    }
}

/// The archive's device.
pub(crate) fn device_of<A: Sectors>(archive: Option<ArchPart<A>>) -> Option<A>
    ensures { result ≡ device_of archive }
{
    match archive {
        Some(part) => Some(part.into_dev()),
        None => None,
    }
}
