// The drive by turns.
ghost use Rattle.std.specs.Prelude.{◌≡◌, IfErr, IfOk, IfSome, false};
ghost use Rattle.redo_drive.specs.{HaveArchived, AreNewFollowers, IsNewArchive, MayBegin, plan_with, views_of};
ghost use Rattle.redo_drive.specs.Drive.{Owes};
ghost use Rattle.redo_drive.specs.Followed.{HaveFollowed};
ghost use Rattle.redo_machine.specs.ByTurns.{RunsByTurns};

use crate::machine::Machine;
use model_script::Script;
use redo_archive::ArchPart;
use redo_disk::Sectors;
use redo_drive::{Actor, Driven};
use redo_follow::{Follower, Receiver};
use redo_lsn::NoMemory;
use redo_store::Opened;
use std::alloc::Global;

/// The drive by turns: those of this seed, at most so many, until each user has ended, with the log alone or with the pages.
#[derive(Clone, Copy, Debug, PartialEq, Eq)]
pub struct Turns {
    pub seed: u64,
    pub max: u64,
    pub log_only: bool,
}

/// Runs a script on an opened store by turns, with this archive or none, and with these followers. With what the run leaves it
/// gives the actors back, the followers among them, and the archive. Where there is no memory it gives both devices back as they
/// were, and the archive.
pub fn run_by_turns<L: Sectors, D: Sectors, A: Sectors, R: Receiver + Drop>(
    alloc: Global,
    opened: Opened<L, D>,
    script: &Script,
    turns: &Turns,
    archive: Option<ArchPart<A>>,
    followers: Vec<Follower<R>>,
) -> Result<
    (Driven<L, D>, Vec<Actor<R>>, Option<ArchPart<A>>),
    (NoMemory, L, D, Option<ArchPart<A>>),
>
    requires may { MayBegin opened script.now turns.now.log_only }
    requires archive { IfSome archive (IsNewArchive A.seen opened script.now) }
    requires new { AreNewFollowers opened.start followers.items }
    ensures err { IfErr result (λ error. (error.1 ≡ opened.log.dev) × (error.2 ≡ opened.store.dev) × (error.3 ≡ archive)) }
    ensures owed { IfOk result (λ left. Owes L.seen L.gives D.seen D.gives opened script.now left.0) }
    ensures turns { IfOk result (λ left. RunsByTurns L.seen L.gives D.seen D.gives false opened script.now turns.now (plan_with turns.now.log_only archive followers.items) (views_of left.1.items) left.0) }
    ensures followed { IfOk result (λ left. HaveFollowed L.seen D.seen R.stands_for opened script.now followers.items left.1.items left.0.closed) }
    ensures archived { IfOk result (λ left. HaveArchived L.seen D.seen A.seen A.gives opened script.now left.0.closed
        (views_of left.1.items) archive left.2) }
{
    let mut machine = Machine::new(alloc, opened, script, turns.log_only, archive, followers)?;
    let ended = machine.run(turns.seed, turns.max);
    let (closed, actors, archive) = machine.finish();
    Ok((Driven { ended, closed }, actors, archive))
}
