// What a run takes memory for.
ghost use Rattle.std.specs.Prelude.{◌≤◌, ◌<◌, ◌+◌, ◌^◌, IfOk};
ghost use Rattle.model_base.specs.{IsWithinLimits};
ghost use Rattle.model_base.specs.declared.limits.TheConstants.{START_LSN};
ghost use Rattle.model_log.specs.{IsAtDataStart};
ghost use Rattle.model_log.specs.declared.layout.TheConstants.{BLOCK_HEADER};
ghost use Rattle.redo_apply.specs.{ArePagesOf};
ghost use Rattle.redo_drive.specs.Begins.{IsOwnOf};
ghost use Rattle.redo_drive.specs.Setups.{with_others};
ghost use Rattle.redo_drive.specs.Startable.{HasNewFollowers};
ghost use Rattle.redo_drive.specs.History.{views_of};

use crate::actor::Actor;
use crate::lists::FlushLists;
use crate::plan::Plan;
use crate::seating::seat_behind;
use crate::start_words::start_words;
use model_base::Shape;
use model_report::Entry;
use redo_apply::Pages;
use redo_follow::{Follower, Receiver};
use redo_lsn::NoMemory;
use redo_words::PlainWords;
use std::alloc::Global;

/// All that a run has beside its devices.
#[derive(Drop)]
pub struct Own<R: Receiver> {
    pub words: PlainWords,
    pub lists: FlushLists,
    pub actors: Vec<Actor<R>>,
    pub entries: Vec<Entry>,
}

/// Takes all the memory of a run of these users by this plan, with room for so many entries.
pub fn make_own<R: Receiver + Drop>(
    alloc: Global,
    shape: &Shape,
    pages: &Pages,
    start: u64,
    users: Vec<Actor<R>>,
    plan: Plan,
    followers: Vec<Follower<R>>,
    lines: usize,
) -> Result<Own<R>, NoMemory>
    requires limits { IsWithinLimits shape.now }
    requires its_pages { ArePagesOf shape.now pages.now }
    requires place { IsAtDataStart start }
    requires first { START_LSN + BLOCK_HEADER ≤ start }
    requires small { start < 2 ^ 61 }
    requires new { HasNewFollowers plan start followers.items }
    ensures { IfOk result (IsOwnOf shape.now pages.now start (with_others (views_of users.items) shape.now start plan) plan.archive followers.items lines) }
{
    let words = start_words(alloc, shape, pages, start)?;
    let lists = FlushLists::new(alloc, shape.pages)?;
    let actors = seat_behind(alloc, users, shape, start, plan, followers)?;
    let entries = Vec::with_capacity(alloc, lines)?;
    Ok(Own {
        words,
        lists,
        actors,
        entries,
    })
}
