// The drive in threads.
ghost use Rattle.std.specs.Prelude.{IfErr, IfOk, IfSome, None, ◌≡◌};
ghost use Rattle.redo_drive.specs.{HaveArchived, AreNewFollowers, IsNewArchive, MayBegin, views_of};
ghost use Rattle.redo_drive.specs.Drive.{Owes, ReadsToMarks};
ghost use Rattle.redo_drive.specs.Followed.{HaveFollowed};
ghost use Rattle.redo_rule.specs.Failing.{CodeHasCause};
ghost use Rattle.redo_threads.specs.InThreads.{RunsInThreads};

use crate::gate::Gate;
use crate::run::run_threads;
use model_script::Script;
use redo_archive::ArchPart;
use redo_disk::Sectors;
use redo_drive::{Actor, Driven, Plan, RunEnd};
use redo_follow::{Follower, Receiver};
use redo_lsn::NoMemory;
use redo_ownrule::Shared;
use redo_store::Opened;
use std::alloc::Global;
use std::sync::Wait;
use std::thread::Threads;

/// Runs a script on an opened store in threads, one for each player, the archiver's the caller's, with the log alone or with the
/// pages, with this archive or none, and with these followers. Where `own_writes` is set, users write for themselves, and there is no thread of a writer and
/// none of a flusher. With what the run leaves it gives the actors back, the followers among them, and the archive. Where there
/// is no memory it gives both devices back as they were, and the archive.
pub fn drive_in_threads<
    R: Threads + Wait + Sync,
    L: Sectors + Send,
    D: Sectors + Send,
    A: Sectors + Send,
    F: Receiver + Drop + Send,
    G: Gate,
>(
    rt: &R,
    alloc: Global,
    opened: Opened<L, D>,
    script: &Script,
    log_only: bool,
    own_writes: bool,
    archive: Option<ArchPart<A>>,
    followers: Vec<Follower<F>>,
    gate: &G,
) -> Result<
    (Driven<L, D>, Vec<Actor<F>>, Option<ArchPart<A>>),
    (NoMemory, L, D, Option<ArchPart<A>>),
>
    requires may { MayBegin opened script.now log_only }
    requires archive { IfSome archive (IsNewArchive A.seen opened script.now) }
    requires new { AreNewFollowers opened.start followers.items }
    ensures err { IfErr result (λ error. (error.1 ≡ opened.log.dev) × (error.2 ≡ opened.store.dev) × (error.3 ≡ archive)) }
    ensures owed { IfOk result (λ left. Owes L.seen L.gives D.seen D.gives opened script.now left.0) }
    ensures says { IfOk result (λ left. RunsInThreads opened script.now log_only (views_of left.1.items) left.0) }
    ensures reads { IfOk result (λ left. left.0.closed.lost ≡ None → ReadsToMarks L.seen D.seen opened script.now left.0.closed) }
    ensures cause { IfOk result (λ left. CodeHasCause L.seen D.seen left.0.closed.code opened.log left.0.closed.log opened.store left.0.closed.store left.0.closed.lost) }
    ensures followed { IfOk result (λ left. HaveFollowed L.seen D.seen F.stands_for opened script.now followers.items left.1.items left.0.closed) }
    ensures archived { IfOk result (λ left. HaveArchived L.seen D.seen A.seen A.gives opened script.now left.0.closed
        (views_of left.1.items) archive left.2) }
{
    let plan = Plan {
        log_only,
        archive: archive.is_some(),
        followers: followers.len() as u64,
    };
    let (shared, players) = match Shared::new(alloc, opened, script, plan, own_writes, followers) {
        Ok(made) => made,
        Err((none, log, data)) => return Err((none, log, data, archive)),
    };
    let (closed, actors, archive) = run_threads(rt, shared, players, archive, gate);
    let driven = Driven {
        ended: RunEnd::Done,
        closed,
    };
    Ok((driven, actors, archive))
}
