// A running store whose users write for themselves.
ghost use Rattle.std.specs.Prelude.{◌≡◌, IfErr, IfOk, IfSome};
ghost use Rattle.redo_drive.specs.{AreNewFollowers, IsNewArchive, MayBegin, plan_with};
ghost use Rattle.redo_ownmachine.specs.OwnStore.{OwnBeginsRun, OwnIsOnRun};

use crate::seats::{Seats, take_seats};
use model_report::Entry;
use model_script::Script;
use redo_archive::ArchPart;
use redo_disk::Sectors;
use redo_drive::{Actor, Beginning, Parts, Plan, begin_run_with};
use redo_follow::{Follower, Receiver};
use redo_lsn::NoMemory;
use redo_ownuser::{LogWork, OwnUser};
use redo_store::Opened;
use std::alloc::Global;

/// A running store whose users write for themselves, and whose actors take turns: users that have lines, by their numbers,
/// then, unless the log runs alone, the closer, the cleaner and the checkpointer, and at last the readers of the log: the
/// archiver, where there is an archive, and the followers.
#[derive(Drop)]
pub struct OwnMachine<L: Sectors, D: Sectors, A: Sectors, R: Receiver> {
    pub(crate) parts: Parts<L, D>,
    /// The log's work lies here also while a user has it in hand, as the log part lies in `parts`.
    pub(crate) work: LogWork,
    pub(crate) users: Vec<OwnUser>,
    pub(crate) others: Vec<Actor<R>>,
    /// Room for an entry of each line.
    pub(crate) entries: Vec<Entry>,
    /// Room for the actors that the run leaves.
    pub(crate) room: Vec<Actor<R>>,
    /// Where the run is archived, if it is.
    pub(crate) archive: Option<ArchPart<A>>,
}

impl<L: Sectors, D: Sectors, A: Sectors, R: Receiver + Drop> OwnMachine<L, D, A, R> {
    /// The store as the run of a script begins, with the log alone or with the pages, with this archive or none, and with these
    /// followers. It takes all memory; where there is none it gives both devices back as they were, and the archive.
    pub fn new(
        alloc: Global,
        opened: Opened<L, D>,
        script: &Script,
        log_only: bool,
        archive: Option<ArchPart<A>>,
        followers: Vec<Follower<R>>,
    ) -> Result<OwnMachine<L, D, A, R>, (NoMemory, L, D, Option<ArchPart<A>>)>
        requires may { MayBegin opened script.now log_only }
        requires archive { IfSome archive (IsNewArchive A.seen opened script.now) }
        requires new { AreNewFollowers opened.start followers.items }
        ensures err { IfErr result (λ error. (error.1 ≡ opened.log.dev) × (error.2 ≡ opened.store.dev) × (error.3 ≡ archive)) }
        ensures begins { IfOk result (OwnBeginsRun L.seen D.seen R.stands_for opened script.now (plan_with log_only archive followers.items) followers.items) }
        ensures archive { IfOk result (λ machine. machine.archive ≡ archive) }
        ensures on_run { IfOk result (OwnIsOnRun L.seen D.seen A.seen) }
    {
        let plan = Plan {
            log_only,
            archive: archive.is_some(),
            followers: followers.len() as u64,
        };
        let begun = match begin_run_with(alloc, opened, script, plan, followers) {
            Err((error, log, store)) => return Err((error, log, store, archive)),
            Ok(begun) => begun,
        };
        let Beginning {
            parts,
            actors,
            entries,
        } = begun;
        match take_seats(alloc, actors) {
            Err(_) => Err((
                NoMemory,
                parts.log.into_dev(),
                parts.store.into_dev(),
                archive,
            )),
            Ok(
                Seats {
                    users,
                    work,
                    others,
                    room,
                },
            ) => Ok(OwnMachine {
                parts,
                work,
                users,
                others,
                entries,
                room,
                archive,
            }),
        }
    }
}
