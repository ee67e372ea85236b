// What comes before a run's drive: the store is opened and the script judged, its followers are made, and its archive is begun.
ghost use Rattle.std.specs.Prelude.{◌≡◌, ◌≤◌, IfErr, IfOk, is_some, true};
ghost use Rattle.std.specs.List.{AllByRecursion};
ghost use Rattle.model_script.specs.{IsScriptLine};
ghost use Rattle.model_script.specs.declared.asked.Command.{Command};
ghost use Rattle.model_script.specs.declared.asked.Command.TheVariants.{Run};
ghost use Rattle.model_script.specs.declared.words.TheConstants.{MAX_FOLLOWERS};
ghost use Rattle.redo_lab.specs.declared.playing.Course.TheVariants as ended;
ghost use Rattle.redo_lab.specs.Begun.{AreBegunOr, AreGivenOn, HasBegun};
ghost use Rattle.redo_lab.specs.Call.{call_on, Handed};
ghost use Rattle.redo_lab.specs.Runs.{AreWellCalled, CommandRuns, IsGivenBack, SparedBy};

use crate::archiving::{begin_on, room_on};
use crate::fitted::{ready, unplayed};
use crate::following::make_followers;
use crate::laws::laws;
use crate::playing::{Ran, Stops};
use model_report::{Fault, Followed};
use model_script::{Drive, Script};
use redo_archive::ArchPart;
use redo_disk::Sectors;
use redo_follow::{Follower, Tally};
use redo_memdisk::Fused;
use redo_store::Opened;
use std::alloc::Global;

/// A run that stands ready for its drive: its store, the archive that was begun for it, if it has one, its followers, and room for
/// what is to be told of them.
pub(crate) struct Begun<L: Sectors, D: Sectors, A: Sectors> {
    pub(crate) opened: Opened<Fused<L>, Fused<D>>,
    pub(crate) archive: Option<ArchPart<A>>,
    pub(crate) followers: Vec<Follower<Tally>>,
    pub(crate) follows: Vec<Followed>,
}

/// A run on an opened store that ended so before its first line.
fn unbegun<L: Sectors, D: Sectors>(fault: Fault, opened: Opened<Fused<L>, Fused<D>>) -> Ran<L, D>
    ensures course { result.course ≡ ended.Ended fault }
    ensures log { result.log ≡ opened.log.dev }
    ensures store { result.store ≡ opened.store.dev }
{
    unplayed(fault, opened.log.into_dev(), opened.store.into_dev())
}

/// Makes both devices ready for the run of a script by this drive, with these stops once their fuses are armed, and begins the run's
/// archive where a device is handed on for it.
pub(crate) fn begin_run<L: Sectors, D: Sectors, A: Sectors>(
    alloc: Global,
    script: &Script,
    drive: &Drive,
    stops: Stops,
    log: L,
    store: D,
    arch: Option<A>,
) -> Result<Begun<L, D, A>, (Ran<L, D>, Option<A>)>
    requires lines { AllByRecursion IsScriptLine script.now }
    requires few { drive.now.followers ≤ MAX_FOLLOWERS }
    requires archives { is_some arch ≡ drive.now.archive }
    ensures begun { IfOk result (HasBegun A.seen A.gives drive.now script.now arch) }
    ensures ready { (handed : Handed) (command : Command)
        → CommandRuns handed.source handed.source_now command drive.now script.now → (drive.now.archive ≡ true → command ≡ Run drive.now)
        → AreBegunOr L.seen D.seen A.seen (call_on L.seen L.gives D.seen D.gives handed log store)
        command drive.now stops script.now arch result }
    ensures given_back { IfErr result (λ left. IsGivenBack A.seen (SparedBy left.0.course) arch left.1) }
    ensures well { IfErr result (λ left. AreWellCalled A.gives left.0.course arch left.1) }
    ensures entered { AreGivenOn log store result }
{
    laws();
    let room = room_on(&arch);
    let opened = match ready(alloc, script, drive.log_only, room, stops, log, store) {
        Ok(opened) => opened,
        Err(ran) => return Err((ran, arch)),
    };
    let start = opened.start;
    let Ok((followers, follows)) = make_followers(alloc, drive.followers, start) else {
        return Err((unbegun(Fault::Memory, opened), arch));
    };
    match begin_on(alloc, &opened, arch) {
        Ok(archive) => Ok(Begun {
            opened,
            archive,
            followers,
            follows,
        }),
        Err((fault, arch)) => Err((unbegun(fault, opened), Some(arch))),
    }
}
