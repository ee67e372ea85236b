// A running store.
ghost use Rattle.std.specs.Prelude.{◌≡◌, IfErr, IfOk, IfSome};
ghost use Rattle.redo_drive.specs.{AreNewFollowers, IsNewArchive, MayBegin, plan_with};
ghost use Rattle.redo_drive.specs.Begins.{BeginsWith};
ghost use Rattle.redo_machine.specs.Reading.{IsOnRun};

use model_report::Entry;
use model_script::Script;
use redo_archive::ArchPart;
use redo_disk::Sectors;
use redo_drive::{Actor, Beginning, Parts, Plan, begin_run_with};
use redo_follow::{Follower, Receiver};
use redo_lsn::NoMemory;
use redo_store::Opened;
use std::alloc::Global;

/// A running store whose actors take turns: users that have lines, by their numbers, then the writer and the flusher, then,
/// unless the log runs alone, the closer, the cleaner and the checkpointer, and at last the readers of the log: the archiver,
/// where there is an archive, and the followers.
#[derive(Drop)]
pub struct Machine<L: Sectors, D: Sectors, A: Sectors, R: Receiver> {
    pub parts: Parts<L, D>,
    pub actors: Vec<Actor<R>>,
    /// Room for an entry of each line.
    pub entries: Vec<Entry>,
    /// Where the run is archived, if it is.
    pub archive: Option<ArchPart<A>>,
}

impl<L: Sectors, D: Sectors, A: Sectors, R: Receiver + Drop> Machine<L, D, A, R> {
    /// The store as the run of a script begins, with the log alone or with the pages, with this archive or none, and with these
    /// followers. It takes all memory; where there is none it gives both devices back as they were, and the archive.
    pub fn new(
        alloc: Global,
        opened: Opened<L, D>,
        script: &Script,
        log_only: bool,
        archive: Option<ArchPart<A>>,
        followers: Vec<Follower<R>>,
    ) -> Result<Machine<L, D, A, R>, (NoMemory, L, D, Option<ArchPart<A>>)>
        requires may { MayBegin opened script.now log_only }
        requires archive { IfSome archive (IsNewArchive A.seen opened script.now) }
        requires new { AreNewFollowers opened.start followers.items }
        ensures err { IfErr result (λ error. (error.1 ≡ opened.log.dev) × (error.2 ≡ opened.store.dev) × (error.3 ≡ archive)) }
        ensures begins { IfOk result (λ machine. BeginsWith L.seen D.seen R.stands_for opened script.now (plan_with log_only archive followers.items) followers.items
            (record { parts = machine.parts; actors = machine.actors; entries = machine.entries })) }
        ensures archive { IfOk result (λ machine. machine.archive ≡ archive) }
        ensures on_run { IfOk result (λ machine. IsOnRun L.seen D.seen A.seen machine) }
    {
        let plan = Plan {
            log_only,
            archive: archive.is_some(),
            followers: followers.len() as u64,
        };
        match begin_run_with(alloc, opened, script, plan, followers) {
            Err((error, log, store)) => Err((error, log, store, archive)),
            Ok(
                Beginning {
                    parts,
                    actors,
                    entries,
                },
            ) => Ok(Machine {
                parts,
                actors,
                entries,
                archive,
            }),
        }
    }
}
