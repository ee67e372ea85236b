// The drive of a run: in threads, or by turns, and then beside a writer and a flusher, or of users that write for themselves.
ghost use Rattle.std.specs.Prelude.{◌≡◌, IfErr, IfOk, IfSome, None, is_some, length, true};
ghost use Rattle.redo_drive.specs.{Owes, HaveArchived, AreNewFollowers, IsNewArchive, MayBegin, views_of};
ghost use Rattle.redo_drive.specs.Drive.{ReadsToMarks};
ghost use Rattle.redo_drive.specs.Followed.{HaveFollowed};
ghost use Rattle.redo_follow.specs.{HasTally};
ghost use Rattle.redo_memdisk.specs.{CallsThrough, seen_through};
ghost use Rattle.redo_lab.specs.Call.{turns_of, TellsOf};

use crate::closing::AfterDrive;
use model_script::{Drive, Script};
use redo_archive::ArchPart;
use redo_disk::Sectors;
use redo_follow::{Follower, Tally};
use redo_machine::{Turns, run_by_turns};
use redo_memdisk::Fused;
use redo_ownmachine::run_own_by_turns;
use redo_store::Opened;
use redo_threads::{Gate, drive_in_threads};
use std::alloc::Global;
use std::sync::Wait;
use std::thread::Threads;

/// The turns of a drive.
fn turns_of(drive: &Drive) -> Turns
    ensures { result ≡ turns_of drive.now }
{
    Turns {
        seed: drive.seed,
        max: drive.max,
        log_only: drive.log_only,
    }
}

/// Runs the lines of a script on an opened store by this drive, with this archive or none, and with these followers. A gate may
/// hold the users of a run in threads.
pub(crate) fn run_drive<
    R: Threads + Wait + Sync,
    L: Sectors + Send,
    D: Sectors + Send,
    A: Sectors + Send,
    G: Gate,
>(
    rt: &R,
    alloc: Global,
    opened: Opened<Fused<L>, Fused<D>>,
    script: &Script,
    drive: &Drive,
    archive: Option<ArchPart<A>>,
    followers: Vec<Follower<Tally>>,
    gate: &G,
) -> AfterDrive<L, D, A>
    requires may { MayBegin opened script.now drive.now.log_only }
    requires archive { IfSome archive (IsNewArchive A.seen opened script.now) }
    requires new { AreNewFollowers opened.start followers.items }
    ensures err { IfErr result (λ error. (error.1 ≡ opened.log.dev) × (error.2 ≡ opened.store.dev) × (error.3 ≡ archive)) }
    ensures owed { IfOk result (λ left. Owes (seen_through L.seen) (CallsThrough L.seen L.gives) (seen_through D.seen) (CallsThrough D.seen D.gives)
        opened script.now left.0) }
    ensures followed { IfOk result (λ left. HaveFollowed (seen_through L.seen) (seen_through D.seen) HasTally opened script.now followers.items left.1.items left.0.closed) }
    ensures archived { IfOk result (λ left. HaveArchived (seen_through L.seen) (seen_through D.seen) A.seen A.gives
        opened script.now left.0.closed (views_of left.1.items) archive left.2) }
    ensures tells { length followers.items ≡ drive.now.followers → is_some archive ≡ drive.now.archive
        → IfOk result (λ left. TellsOf drive.now.threads drive.now.own_writes L.seen L.gives D.seen D.gives drive.now opened script.now (views_of left.1.items) left.0) }
    ensures reads { drive.now.threads ≡ true → IfOk result (λ left. left.0.closed.lost ≡ None
        → ReadsToMarks (seen_through L.seen) (seen_through D.seen) opened script.now left.0.closed) }
{
    let turns = turns_of(drive);
    if drive.threads {
        let log_only = drive.log_only;
        let own_writes = drive.own_writes;
        drive_in_threads(
            rt, alloc, opened, script, log_only, own_writes, archive, followers, gate,
        )
    } else if drive.own_writes {
        run_own_by_turns(alloc, opened, script, &turns, archive, followers)
    } else {
        run_by_turns(alloc, opened, script, &turns, archive, followers)
    }
}
