// A run of all players, and what is left at its end.
ghost use Rattle.std.specs.Prelude.{IfSome, None, Option, false, is_some, true, ℕ, ◌≡◌};
ghost use lib.ListN.{get_elem?};
ghost use mathlib.Core.Option.{some};
ghost use Rattle.model_own.specs.{LogWork};
ghost use Rattle.redo_archive.specs.Part.{Part};
ghost use Rattle.redo_drive.specs.{HaveArchived, IsNewArchive, views_of};
ghost use Rattle.redo_drive.specs.Drive.{ReadsToMarks};
ghost use Rattle.redo_drive.specs.Leaving.{LeavesWith};
ghost use Rattle.redo_ownrule.specs.Players.{crew};
ghost use Rattle.redo_ownrule.specs.Sharing.{IsFixed, IsUnseated, opened_of, own_of, shared_script};
ghost use Rattle.redo_ownrule.specs.declared.player.Player.{Player as ThePlayer};
ghost use Rattle.redo_rule.specs.Closing.{IsOwedRun};
ghost use Rattle.redo_rule.specs.Failing.{CodeHasCause};
ghost use Rattle.redo_rule.specs.Reached.{ReachesAll};
ghost use Rattle.redo_rule.specs.Sharing.{AreLaidOut};
ghost use Rattle.redo_rule.specs.declared.law.About.{About};
ghost use Rattle.redo_threads.specs.Archiving.{BeginsWithReaders, IsArchiving, LeavesArchive, MayBeArchived, lost_of};
ghost use Rattle.redo_threads.specs.Ended.{HaveRun};
ghost use Rattle.redo_threads.specs.Working.{AreAtEnd, AreSeated, KeepOn};

use crate::bells::Bells;
use crate::crew::{Crew, Seated, Worker};
use crate::gate::Gate;
use crate::starting::play_all;
use crate::work::user_of;
use redo_archive::ArchPart;
use redo_disk::{DevError, Sectors};
use redo_drive::{Actor, Closed};
use redo_follow::Receiver;
use redo_ownrule::{Player, Shared};
use redo_rule::Ring;
use redo_words::Layout;
use std::sync::Wait;
use std::thread::{Threads, available_parallelism};

/// Whether a player is a user that hasn't ended.
fn is_open<F: Receiver>(player: &Player<F>) -> bool {
    match user_of(player) {
        Some(user) => !user.has_ended(),
        None => false,
    }
}

/// How many users haven't ended: each of these is counted down by its last Op.
fn open_users<F: Receiver>(players: &[Player<F>]) -> u64 {
    players.iter().filter(|player| is_open(player)).count() as u64
}

/// Whether users write for themselves.
fn write_for_themselves<F: Receiver>(players: &[Player<F>]) -> bool {
    players
        .iter()
        .any(|player| matches!(player, Player::Own(_)))
}

/// How many processors threads may use, at least.
pub(crate) fn processors<R: Threads>(rt: &R) -> u64 {
    match available_parallelism(rt) {
        Ok(count) => count.get() as u64,
        Err(_) => 1,
    }
}

/// Whether a player is the archiver.
fn is_archiver<F: Receiver>(player: &Player<F>) -> bool
    ensures is { result ≡ true → IsArchiving player.now }
    ensures other { result ≡ false → IsArchiving player.now → ⊥ }
{
    match player {
        Player::Plain(Actor::Archiver(_)) => true,
        _ => false,
    }
}

/// The place of the archiver among these players.
fn archiver_at<F: Receiver>(players: &[Player<F>]) -> usize
    requires { (i : ℕ) × (p : ThePlayer F) × (get_elem? players.now i ≡ some p) × IsArchiving p }
    ensures { (p : ThePlayer F) × (get_elem? players.now result ≡ some p) × IsArchiving p }
{
    for place in 0..players.len() {
        if is_archiver(&players[place]) {
            return place;
        }
    }
    unreachable!()
}

/// Plays the players of a table up to their ends, the archiver among them with this archive, if there is one.
fn play_crew<
    R: Threads + Wait + Sync,
    L: Sectors + Send,
    D: Sectors + Send,
    A: Sectors,
    F: Receiver + Drop + Send,
    G: Gate,
>(
    rt: &R,
    table: &Ring<L, D>,
    layout: Layout,
    bells: &Bells,
    gate: &G,
    mut crew: Crew<L, D, F>,
    archive: Option<ArchPart<A>>,
) -> (Crew<L, D, F>, Option<ArchPart<A>>)
    requires seated { AreSeated table.now.table_id crew.seats.items crew.players.items }
    requires laid { AreLaidOut layout crew.seats.items }
    requires archive { IfSome archive (λ part. (about : About L D) × (before : Part A) × MayBeArchived A.seen A.gives
        about before crew part) }
    ensures goes_on { KeepOn F.stands_for table.now.table_id crew result.0 }
    ensures at_end { AreAtEnd result.0.players.items }
    ensures archive { LeavesArchive A.seen A.gives crew archive result.0 result.1 }
{
    let Some(part) = archive else {
        let (crew, nobody) = play_all::<R, L, D, A, F, G>(
            rt, table, layout, bells, gate, crew, None,
        );
        match nobody {
            None => return (crew, None),
            Some(_worker) => unreachable!(),
        }
    };
    let place = archiver_at(crew.players.as_slice());
    let Seated { seat, player } = crew.take_out(place);
    let worker = Worker {
        seat,
        player,
        archive: Some(part),
    };
    let (mut played, archiver) = play_all(rt, table, layout, bells, gate, crew, Some(worker));
    let Some(worker) = archiver else {
        unreachable!()
    };
    let Worker {
        seat,
        player,
        archive,
    } = worker;
    played.put_back(place, Seated { seat, player });
    (played, archive)
}

/// What an archive has met that failed, if there is one.
fn lost_by<A: Sectors>(archive: &Option<ArchPart<A>>) -> Option<DevError>
    ensures { result ≡ lost_of archive.now }
{
    match archive {
        Some(part) => part.failed(),
        None => None,
    }
}

/// Plays the players of a store that they share for the run of a script, each in a thread of its own where one can be started,
/// until each user has ended and nobody else holds a turn or a tail; the archiver among them, if the run is archived, with this
/// archive, in the caller's thread, which the archive's device never leaves. It takes no memory. With what the run leaves it
/// gives its actors back, with the writer and the flusher as far as users that wrote for themselves have brought them, and the
/// archive.
pub fn run_threads<
    R: Threads + Wait + Sync,
    L: Sectors + Send,
    D: Sectors + Send,
    A: Sectors + Send,
    F: Receiver + Drop + Send,
    G: Gate,
>(
    rt: &R,
    mut shared: Shared<L, D, F>,
    players: Vec<Player<F>>,
    archive: Option<ArchPart<A>>,
    gate: &G,
) -> (Closed<L, D>, Vec<Actor<F>>, Option<ArchPart<A>>)
    requires unseated { IsUnseated shared players.items }
    requires fixed { IsFixed shared }
    requires readers { BeginsWithReaders shared players.items }
    requires is_archived { shared.board.shared.key.plan.archive ≡ is_some archive }
    requires archive { IfSome archive (IsNewArchive A.seen (opened_of shared) (shared_script shared)) }
    ensures run { (work : Option LogWork) → is_some work ≡ own_of shared
        → HaveRun (views_of (crew work players.items)) (views_of result.1.items) result.0 }
    ensures leaves { (work : Option LogWork) → is_some work ≡ own_of shared
        → LeavesWith L.seen L.gives D.seen D.gives F.stands_for (opened_of shared) (shared_script shared)
        shared.board.shared.key.plan (crew work players.items) result.1.items result.0 }
    ensures owed { IsOwedRun L.seen L.gives D.seen D.gives (opened_of shared) (shared_script shared) (views_of result.1.items) result.0 }
    ensures reads { result.0.lost ≡ None → ReadsToMarks L.seen D.seen (opened_of shared) (shared_script shared) result.0 }
    ensures reaches { ReachesAll (views_of result.1.items) result.0 }
    ensures cause { CodeHasCause L.seen D.seen result.0.code (opened_of shared).log result.0.log (opened_of shared).store result.0.store result.0.lost }
    ensures archived { HaveArchived L.seen D.seen A.seen A.gives (opened_of shared) (shared_script shared) result.0
        (views_of result.1.items) archive result.2 }
{
    let users = open_users(players.as_slice());
    let own_writes = write_for_themselves(players.as_slice());
    let bells = Bells::new(users, own_writes, processors(rt));
    let seats = shared.seats(players.as_slice());
    let layout = shared.layout();
    let crew = Crew { seats, players };
    let (crew, archive) = play_crew(rt, shared.ring(), layout, &bells, gate, crew, archive);
    let Crew { seats, players } = crew;
    let lost = lost_by(&archive);
    let (closed, actors) = shared.finish(seats, players, lost);
    (closed, actors, archive)
}
