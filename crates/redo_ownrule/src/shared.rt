// A store that its players share, each in a thread of its own.
ghost use Rattle.std.specs.Prelude.{◌≡◌, IfErr, IfOk};
ghost use Rattle.redo_drive.specs.{HasNewFollowers, MayBegin};
ghost use Rattle.redo_ownrule.specs.Sharing.{IsNewlyShared};

use crate::player::Player;
use crate::staffing::{Staff, take_staff};
use model_report::Entry;
use model_script::Script;
use redo_disk::Sectors;
use redo_drive::{Actor, Beginning, Parts, Plan, begin_run_with};
use redo_follow::{Follower, Receiver};
use redo_lsn::NoMemory;
use redo_rule::{About, Board, Ring, Seat, lay_out, make_board, parts_in};
use redo_store::Opened;
use redo_words::Layout;
use std::alloc::Global;
use std::snapshot::Snapshot;

/// A store that its players share.
pub struct Shared<L: Sectors, D: Sectors, R: Receiver> {
    pub(crate) board: Board<L, D>,
    // the seat of all players that have none of their own
    pub(crate) first: Seat<L, D>,
    // which words there are
    pub(crate) layout: Layout,
    // room for a seat of each player, until they have theirs
    pub(crate) seats: Option<Vec<Seat<L, D>>>,
    // room for the actors that the run leaves
    pub(crate) actors: Vec<Actor<R>>,
    // room for an entry of each line
    pub(crate) entries: Vec<Entry>,
}

impl<L: Sectors, D: Sectors, R: Receiver + Drop> Shared<L, D, R> {
    /// The store as the run of a script begins, by this plan, and its players, an archiver, if it is archived, and these followers
    /// among them, none of which has a seat yet. Where `own_writes` is set its users write for themselves. It takes all memory;
    /// where there is none it gives both devices back as they were.
    pub fn new(
        alloc: Global,
        opened: Opened<L, D>,
        script: &Script,
        plan: Plan,
        own_writes: bool,
        followers: Vec<Follower<R>>,
    ) -> Result<(Shared<L, D, R>, Vec<Player<R>>), (NoMemory, L, D)>
        requires may { MayBegin opened script.now plan.log_only }
        requires new { HasNewFollowers plan opened.start followers.items }
        ensures err { IfErr result (λ error. (error.1 ≡ opened.log.dev) × (error.2 ≡ opened.store.dev)) }
        ensures new { IfOk result (λ made. IsNewlyShared opened script.now plan own_writes followers.items made.0 made.1.items) }
    {
        let layout = Layout {
            pages: opened.shape.pages,
            page_size: opened.shape.page_size,
        };
        let opened_is = Snapshot::of(&opened);
        let Beginning {
            parts,
            actors,
            entries,
        } = begin_run_with(alloc, opened, script, plan, followers)?;
        let about = About {
            opened: opened_is,
            script: Snapshot::of(script),
            live: None,
            plan,
            own_writes,
        };
        let Parts {
            words,
            log,
            store,
            lists,
        } = parts;
        let Ok(
            Staff {
                players,
                work,
                room,
            },
        ) = take_staff(alloc, actors, own_writes)
        else {
            return Err((NoMemory, log.into_dev(), store.into_dev()));
        };
        match lay_out(alloc, players.len(), log, store, lists, work) {
            Err((log, store)) => Err((NoMemory, log.into_dev(), store.into_dev())),
            Ok((seats, slots)) => match make_board(alloc, words.as_slice(), slots, &about) {
                Ok((board, first)) => {
                    let shared = Shared {
                        board,
                        first,
                        layout,
                        seats: Some(seats),
                        actors: room,
                        entries,
                    };
                    Ok((shared, players))
                }
                Err(slots) => {
                    let (log, store) = parts_in(slots);
                    Err((NoMemory, log.into_dev(), store.into_dev()))
                }
            },
        }
    }

    /// Which words there are: each seat has them so.
    pub fn layout(&self) -> Layout
        ensures { result ≡ self.now.layout }
    {
        self.layout
    }

    /// The words and slots, which threads may be lent.
    pub fn ring(&self) -> &Ring<L, D>
        ensures { result.now ≡ self.now.board.shared }
    {
        &self.board.shared
    }
}
