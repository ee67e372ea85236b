// A live store that its players share.
ghost use Rattle.std.specs.Prelude.{◌≡◌, ◌≤◌, ◌<◌, ◌+◌, ◌*◌, IfErr, IfOk, length};
ghost use Rattle.model_base.specs.declared.limits.TheConstants.{LSN_LIMIT};
ghost use Rattle.model_core.specs.{lsn};
ghost use Rattle.model_log.specs.{sn_of};
ghost use Rattle.model_script.specs.declared.misfit.TheConstants.{MAX_USERS};
ghost use Rattle.redo_drive.specs.LiveActors.{live_actors, live_plan};
ghost use Rattle.redo_ownrule.specs.LiveSharing.{IsNewlyLive};
ghost use Rattle.redo_store.specs.{IsRunnable};

use crate::player::Player;
use crate::shared::Shared;
use crate::staffing::{Staff, take_plain};
use model_script::Script;
use redo_disk::Sectors;
use redo_drive::{Beginning, Parts, Plan, begin_live};
use redo_follow::Receiver;
use redo_lsn::NoMemory;
use redo_rule::{About, Live, lay_out, make_board, parts_in};
use redo_store::Opened;
use redo_words::Layout;
use std::alloc::Global;
use std::snapshot::Snapshot;

impl<L: Sectors, D: Sectors, R: Receiver + Drop> Shared<L, D, R> {
    /// The store as a live run begins, with the log alone or with the pages, and its players, none of which has a seat yet: so
    /// many users, which have no lines, and then the other actors. Each user's groups may have so many bytes together. It
    /// takes all memory but that of the lines; where there is none it gives both devices back as they were.
    pub fn new_live(
        alloc: Global,
        opened: Opened<L, D>,
        users: u32,
        quota: u64,
        log_only: bool,
    ) -> Result<(Shared<L, D, R>, Vec<Player<R>>), (NoMemory, L, D)>
        requires runnable { IsRunnable opened }
        requires below { opened.start < LSN_LIMIT }
        requires some { 0 < users }
        requires most { users ≤ MAX_USERS }
        requires short { lsn (sn_of opened.start + length (live_actors opened.shape users opened.start (live_plan log_only)) * quota) < LSN_LIMIT }
        ensures err { IfErr result (λ error. (error.1 ≡ opened.log.dev) × (error.2 ≡ opened.store.dev)) }
        ensures new { IfOk result (λ made. IsNewlyLive opened (record { users = users; quota = quota }) log_only made.0 made.1.items) }
    {
        let plan = Plan {
            log_only,
            archive: false,
            followers: 0,
        };
        let layout = Layout {
            pages: opened.shape.pages,
            page_size: opened.shape.page_size,
        };
        let opened_is = Snapshot::of(&opened);
        let Beginning {
            parts,
            actors,
            entries,
        } = begin_live(alloc, opened, users, log_only)?;
        let no_lines = Script(Vec::new(alloc));
        let about = About {
            opened: opened_is,
            script: Snapshot::of(&no_lines),
            live: Some(Live { users, quota }),
            plan,
            own_writes: false,
        };
        let Parts {
            words,
            log,
            store,
            lists,
        } = parts;
        let Ok(Staff { players, room, .. }) = take_plain(alloc, actors) else {
            return Err((NoMemory, log.into_dev(), store.into_dev()));
        };
        match lay_out(alloc, players.len(), log, store, lists, None) {
            Err((log, store)) => Err((NoMemory, log.into_dev(), store.into_dev())),
            Ok((seats, slots)) => match make_board(alloc, words.as_slice(), slots, &about) {
                Ok((board, first)) => {
                    let shared = Shared {
                        board,
                        first,
                        layout,
                        seats: Some(seats),
                        actors: room,
                        entries,
                    };
                    Ok((shared, players))
                }
                Err(slots) => {
                    let (log, store) = parts_in(slots);
                    Err((NoMemory, log.into_dev(), store.into_dev()))
                }
            },
        }
    }
}
