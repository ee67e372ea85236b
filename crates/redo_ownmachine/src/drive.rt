// The drive by turns, where users write for themselves.
ghost use Rattle.std.specs.Prelude.{◌≡◌, IfErr, IfOk, IfSome, true};
ghost use Rattle.redo_drive.specs.{HaveArchived, AreNewFollowers, IsNewArchive, MayBegin, plan_with, views_of};
ghost use Rattle.redo_drive.specs.Drive.{Owes};
ghost use Rattle.redo_drive.specs.Followed.{HaveFollowed};
ghost use Rattle.redo_machine.specs.ByTurns.{RunsByTurns};

use crate::machine::OwnMachine;
use model_script::Script;
use redo_archive::ArchPart;
use redo_disk::Sectors;
use redo_drive::{Actor, Driven};
use redo_follow::{Follower, Receiver};
use redo_lsn::NoMemory;
use redo_machine::Turns;
use redo_store::Opened;
use std::alloc::Global;

/// Runs a script on an opened store by turns, as `run_by_turns` does, but its users write for themselves.
pub fn run_own_by_turns<L: Sectors, D: Sectors, A: Sectors, R: Receiver + Drop>(
    alloc: Global,
    opened: Opened<L, D>,
    script: &Script,
    turns: &Turns,
    archive: Option<ArchPart<A>>,
    followers: Vec<Follower<R>>,
) -> Result<
    (Driven<L, D>, Vec<Actor<R>>, Option<ArchPart<A>>),
    (NoMemory, L, D, Option<ArchPart<A>>),
>
    requires may { MayBegin opened script.now turns.now.log_only }
    requires archive { IfSome archive (IsNewArchive A.seen opened script.now) }
    requires new { AreNewFollowers opened.start followers.items }
    ensures err { IfErr result (λ error. (error.1 ≡ opened.log.dev) × (error.2 ≡ opened.store.dev) × (error.3 ≡ archive)) }
    ensures owed { IfOk result (λ left. Owes L.seen L.gives D.seen D.gives opened script.now left.0) }
    ensures turns { IfOk result (λ left. RunsByTurns L.seen L.gives D.seen D.gives true opened script.now turns.now (plan_with turns.now.log_only archive followers.items) (views_of left.1.items) left.0) }
    ensures followed { IfOk result (λ left. HaveFollowed L.seen D.seen R.stands_for opened script.now followers.items left.1.items left.0.closed) }
    ensures archived { IfOk result (λ left. HaveArchived L.seen D.seen A.seen A.gives opened script.now left.0.closed
        (views_of left.1.items) archive left.2) }
{
    let mut machine = OwnMachine::new(alloc, opened, script, turns.log_only, archive, followers)?;
    let ended = machine.run(turns.seed, turns.max);
    let (closed, actors, archive) = machine.finish();
    Ok((Driven { ended, closed }, actors, archive))
}
