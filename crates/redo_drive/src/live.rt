// A live run as it begins.
ghost use Rattle.std.specs.Prelude.{◌≡◌, ◌≤◌, ◌<◌, IfErr, IfOk, [], false};
ghost use Rattle.model_base.specs.declared.limits.TheConstants.{LSN_LIMIT};
ghost use Rattle.model_script.specs.declared.misfit.TheConstants.{MAX_USERS};
ghost use Rattle.redo_drive.specs.Begins.{BeginsLive, IsOwnOf};
ghost use Rattle.redo_drive.specs.LiveActors.{live_actors, live_plan};
ghost use Rattle.redo_store.specs.{IsRunnable};

use crate::making::{Beginning, begin_on};
use crate::memory::{Own, make_own};
use crate::plan::Plan;
use crate::users::seat_idle;
use redo_disk::Sectors;
use redo_follow::Receiver;
use redo_lsn::NoMemory;
use redo_store::Opened;
use std::alloc::Global;

/// Takes all the memory of a live run, which has no followers.
fn make_own_live<L: Sectors, D: Sectors, R: Receiver + Drop>(
    alloc: Global,
    opened: &Opened<L, D>,
    users: u32,
    log_only: bool,
) -> Result<Own<R>, NoMemory>
    requires runnable { IsRunnable opened.now }
    requires most { users ≤ MAX_USERS }
    ensures { IfOk result (IsOwnOf opened.now.shape opened.now.pages opened.now.start (live_actors opened.now.shape users opened.now.start (live_plan log_only)) false [] 0) }
{
    let plan = Plan {
        log_only,
        archive: false,
        followers: 0,
    };
    let idle = seat_idle(alloc, users, &opened.shape, log_only)?;
    let followers = Vec::new(alloc);
    make_own(
        alloc,
        &opened.shape,
        &opened.pages,
        opened.start,
        idle,
        plan,
        followers,
        0,
    )
}

/// A live run as it begins on an opened store: so many users, which have no lines yet, and the log alone or the pages too. It
/// takes all memory; where there is none it gives both devices back as they were.
pub fn begin_live<L: Sectors, D: Sectors, R: Receiver + Drop>(
    alloc: Global,
    opened: Opened<L, D>,
    users: u32,
    log_only: bool,
) -> Result<Beginning<L, D, R>, (NoMemory, L, D)>
    requires runnable { IsRunnable opened }
    requires below { opened.start < LSN_LIMIT }
    requires some { 0 < users }
    requires most { users ≤ MAX_USERS }
    ensures err { IfErr result (λ error. (error.1 ≡ opened.log.dev) × (error.2 ≡ opened.store.dev)) }
    ensures begins { IfOk result (BeginsLive L.seen D.seen R.stands_for opened users log_only) }
{
    let own = make_own_live(alloc, &opened, users, log_only);
    begin_on(opened, own)
}
