// How many bytes the groups of each user may have together.
ghost use Rattle.std.specs.Prelude.{◌≡◌, ◌≤◌, ◌<◌, ◌+◌, ◌*◌, ℕ, false, length};
ghost use Rattle.model_base.specs.{IsWithinLimits};
ghost use Rattle.model_base.specs.declared.limits.TheConstants.{LSN_LIMIT};
ghost use Rattle.model_log.specs.{IsAtDataStart, sn_of};
ghost use Rattle.model_log.specs.declared.layout.TheConstants.{BLOCK_HEADER};
ghost use Rattle.model_script.specs.declared.misfit.TheConstants.{MAX_USERS};
ghost use Rattle.redo_drive.specs.LiveActors.{live_actors, live_plan};
ghost use Rattle.redo_live.specs.Quota.{last_sn, share_of};

use model_base::{LSN_LIMIT, Shape};
use model_log::BLOCK_HEADER;
use model_script::MARGIN;
use redo_lsn::{round_of, run_layout, sn_of};

/// The greatest sn of which the lsn is below the limit of the lsns.
const LAST_SN: u64 = 1_116_892_707_587_883_007;

/// How many actors the run of so many users has: beside them the writer and the flusher, and unless the log runs alone the
/// closer, the cleaner and the checkpointer.
pub(crate) fn actor_count(users: u32, log_only: bool) -> u32
    requires { users ≤ MAX_USERS }
    ensures count { (shape : Shape) (start : ℕ) → result ≡ length (live_actors shape users start (live_plan log_only)) }
    ensures some { 0 < result }
{
    if log_only { users + 2 } else { users + 5 }
}

/// Up to which sn groups may come. With the log alone no checkpoint frees it, and they may come as far as a script's may: for
/// one round from the checkpoint on, without a margin.
fn last_sn(shape: &Shape, start: u64, log_only: bool) -> u64
    requires limits { IsWithinLimits shape.now }
    requires header { BLOCK_HEADER ≤ start }
    requires below { start < LSN_LIMIT }
    ensures is { result ≡ last_sn shape.now start log_only }
    ensures low { result ≤ LAST_SN }
{
    if !log_only {
        return LAST_SN;
    }
    let round = round_of(&run_layout(shape));
    let end = (start - BLOCK_HEADER + round).saturating_sub(MARGIN);
    sn_of(end).min(LAST_SN)
}

/// How many bytes the groups of each user may have together, in a run of so many actors that starts at this lsn.
pub(crate) fn quota_of(shape: &Shape, start: u64, log_only: bool, actors: u32) -> u64
    requires limits { IsWithinLimits shape.now }
    requires place { IsAtDataStart start }
    requires below { start < LSN_LIMIT }
    requires some { 0 < actors }
    ensures is { result ≡ share_of shape.now start log_only actors }
    ensures low { sn_of start + actors * result ≤ LAST_SN }
{
    last_sn(shape, start, log_only).saturating_sub(sn_of(start)) / u64::from(actors)
}
