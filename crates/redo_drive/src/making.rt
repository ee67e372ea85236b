// A run as it begins.
ghost use Rattle.std.specs.Prelude.{◌≡◌, IfErr, IfOk, length};
ghost use Rattle.redo_drive.specs.Startable.{AreNewFollowers, HasNewFollowers, MayBegin};
ghost use Rattle.redo_drive.specs.Begins.{BeginsRun, BeginsWith, BeginsSo, IsOwnOf};
ghost use Rattle.redo_drive.specs.Setups.{seated_actors};

use crate::actor::Actor;
use crate::memory::{Own, make_own};
use crate::parts::Parts;
use crate::plan::Plan;
use crate::users::seat_users;
use model_report::Entry;
use model_script::Script;
use redo_disk::Sectors;
use redo_follow::{Follower, Receiver};
use redo_lsn::NoMemory;
use redo_store::Opened;
use std::alloc::Global;

/// Takes all the memory of the run of a script by this plan.
fn make_own_of<L: Sectors, D: Sectors, R: Receiver + Drop>(
    alloc: Global,
    opened: &Opened<L, D>,
    script: &Script,
    plan: Plan,
    followers: Vec<Follower<R>>,
) -> Result<Own<R>, NoMemory>
    requires may { MayBegin opened.now script.now plan.log_only }
    requires new { HasNewFollowers plan opened.now.start followers.items }
    ensures { IfOk result (IsOwnOf opened.now.shape opened.now.pages opened.now.start (seated_actors opened.now.shape script.now opened.now.start plan) plan.archive followers.items (length script.now)) }
{
    let lines = script.0.as_slice();
    let users = seat_users(alloc, lines, &opened.shape, plan)?;
    make_own(
        alloc,
        &opened.shape,
        &opened.pages,
        opened.start,
        users,
        plan,
        followers,
        lines.len(),
    )
}

/// A run as it begins: what its actors share, the actors in their seats, and room for an entry of each line. The users that
/// have lines come first, by their numbers, then the writer and the flusher, then, unless the log runs alone, the closer, the
/// cleaner and the checkpointer, and at last the readers of the log: the archiver, if the run is archived, and the followers.
#[derive(Drop)]
pub struct Beginning<L: Sectors, D: Sectors, R: Receiver> {
    pub parts: Parts<L, D>,
    pub actors: Vec<Actor<R>>,
    pub entries: Vec<Entry>,
}

/// The run as it begins with that, or both devices as they were, where there was no memory for it.
pub fn begin_on<L: Sectors, D: Sectors, R: Receiver + Drop>(
    opened: Opened<L, D>,
    own: Result<Own<R>, NoMemory>,
) -> Result<Beginning<L, D, R>, (NoMemory, L, D)>
    ensures err { IfErr result (λ error. (error.1 ≡ opened.log.dev) × (error.2 ≡ opened.store.dev)) }
    ensures so { IfOk result (BeginsSo opened own) }
{
    let Opened { log, store, .. } = opened;
    match own {
        Err(_) => Err((NoMemory, log.into_dev(), store.into_dev())),
        Ok(own) => {
            let Own {
                words,
                lists,
                actors,
                entries,
            } = own;
            let parts = Parts {
                words,
                log,
                store,
                lists,
            };
            Ok(Beginning {
                parts,
                actors,
                entries,
            })
        }
    }
}

/// The run of a script as it begins on an opened store, with the log alone or with the pages, and with these followers. It takes
/// all memory; where there is none it gives both devices back as they were.
pub fn begin_run<L: Sectors, D: Sectors, R: Receiver + Drop>(
    alloc: Global,
    opened: Opened<L, D>,
    script: &Script,
    log_only: bool,
    followers: Vec<Follower<R>>,
) -> Result<Beginning<L, D, R>, (NoMemory, L, D)>
    requires may { MayBegin opened script.now log_only }
    requires new { AreNewFollowers opened.start followers.items }
    ensures err { IfErr result (λ error. (error.1 ≡ opened.log.dev) × (error.2 ≡ opened.store.dev)) }
    ensures begins { IfOk result (BeginsRun L.seen D.seen R.stands_for opened script.now log_only followers.items) }
{
    let plan = Plan {
        log_only,
        archive: false,
        followers: followers.len() as u64,
    };
    begin_run_with(alloc, opened, script, plan, followers)
}

/// The same by a plan, with an archiver or without.
pub fn begin_run_with<L: Sectors, D: Sectors, R: Receiver + Drop>(
    alloc: Global,
    opened: Opened<L, D>,
    script: &Script,
    plan: Plan,
    followers: Vec<Follower<R>>,
) -> Result<Beginning<L, D, R>, (NoMemory, L, D)>
    requires may { MayBegin opened script.now plan.log_only }
    requires new { HasNewFollowers plan opened.start followers.items }
    ensures err { IfErr result (λ error. (error.1 ≡ opened.log.dev) × (error.2 ≡ opened.store.dev)) }
    ensures begins { IfOk result (BeginsWith L.seen D.seen R.stands_for opened script.now plan followers.items) }
{
    let own = make_own_of(alloc, &opened, script, plan, followers);
    begin_on(opened, own)
}
