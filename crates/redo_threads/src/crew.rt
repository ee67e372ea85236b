// Players with their seats, in their order.
ghost use Rattle.std.specs.Prelude.{length, ◌<◌, ◌≡◌};
ghost use Rattle.redo_rule.specs.Sharing.{AreLaidOut};
ghost use Rattle.redo_threads.specs.Archiving.{AtItsEnd, IsLaidOut, MayWork, WorksOn};
ghost use Rattle.redo_threads.specs.Working.{AreAtEnd, AreSeated, HasPlace, IsPutBack, IsTakenOut, KeepOn};

use crate::bells::{Bells, Call};
use crate::gate::Gate;
use crate::pace::Pace;
use crate::work::{stint, stint_alone, work, work_alone};
use redo_archive::ArchPart;
use redo_disk::Sectors;
use redo_follow::Receiver;
use redo_ownrule::Player;
use redo_rule::{Ring, Seat};
use redo_words::Layout;
use std::sync::Wait;

/// A player in its seat.
#[derive(Drop)]
pub(crate) struct Seated<L: Sectors, D: Sectors, F: Receiver> {
    pub(crate) seat: Seat<L, D>,
    pub(crate) player: Player<F>,
}

/// A player in its seat; and its archive, if it is the archiver. Who has it gives the archive's device back.
pub(crate) struct Worker<L: Sectors, D: Sectors, A: Sectors, F: Receiver> {
    pub(crate) seat: Seat<L, D>,
    pub(crate) player: Player<F>,
    pub(crate) archive: Option<ArchPart<A>>,
}

/// Players with their seats, in their order.
#[derive(Drop)]
pub(crate) struct Crew<L: Sectors, D: Sectors, F: Receiver> {
    pub(crate) seats: Vec<Seat<L, D>>,
    pub(crate) players: Vec<Player<F>>,
}

impl<L: Sectors, D: Sectors, F: Receiver + Drop> Crew<L, D, F> {
    /// Takes out the player at a place, in its seat.
    pub(crate) fn take_out(&mut self, at: usize) -> Seated<L, D, F>
        requires seated { length self.old.seats.items ≡ length self.old.players.items }
        requires there { at < length self.old.players.items }
        ensures { IsTakenOut self.old at result.seat result.player self.new }
    {
        let player = self.players.remove(at);
        let seat = self.seats.remove(at);
        Seated { seat, player }
    }

    /// Puts a player in its seat back at its place.
    pub(crate) fn put_back(&mut self, at: usize, seated: Seated<L, D, F>)
        requires { HasPlace self.old at }
        ensures { IsPutBack self.old at seated.seat seated.player self.new }
    {
        let Seated { seat, player } = seated;
        let (Ok(()), Ok(())) = (self.seats.insert(at, seat), self.players.insert(at, player)) else {
            unreachable!()
        };
    }
}

/// Plays each of the players that haven't come to their end until it waits. `None` where there are none; else whether
/// one of them has gone on.
fn round<L: Sectors, D: Sectors, F: Receiver, G: Gate>(
    table: &Ring<L, D>,
    layout: Layout,
    bells: &Bells,
    gate: &G,
    crew: &mut Crew<L, D, F>,
) -> Option<bool>
    requires seated { AreSeated table.now.table_id crew.old.seats.items crew.old.players.items }
    requires laid { AreLaidOut layout crew.old.seats.items }
    ensures { KeepOn F.stands_for table.now.table_id crew.old crew.new }
{
    let mut open = None;
    for k in 0..crew.players.len() {
        let went_on = stint_alone(
            table,
            layout,
            bells,
            gate,
            &mut crew.seats[k],
            &mut crew.players[k],
        );
        open = either(open, went_on);
    }
    open
}

/// Whether one of two has gone on, if one isn't at its end.
fn either(one: Option<bool>, other: Option<bool>) -> Option<bool> {
    match (one, other) {
        (Some(one), Some(other)) => Some(one || other),
        (None, open) => open,
        (open, None) => open,
    }
}

/// Lets the archiver play for a stint, if there is one, as a player of `round`.
fn archiver_round<L: Sectors, D: Sectors, A: Sectors, F: Receiver, G: Gate>(
    table: &Ring<L, D>,
    layout: Layout,
    bells: &Bells,
    gate: &G,
    archiver: &mut Option<Worker<L, D, A, F>>,
) -> Option<bool>
    requires archiver { MayWork A.seen A.gives table.now.table_id archiver.old }
    requires its { IsLaidOut layout archiver.old }
    ensures { WorksOn A.seen A.gives F.stands_for table.now.table_id archiver.old archiver.new }
{
    match archiver {
        Some(worker) => stint(
            table,
            layout,
            bells,
            gate,
            &mut worker.seat,
            &mut worker.player,
            &mut worker.archive,
        ),
        None => None,
    }
}

/// The archiver, if there is one, plays up to its end, at which it stands already where it was played in turn.
pub(crate) fn archiver_to_end<R: Wait, L: Sectors, D: Sectors, A: Sectors, F: Receiver, G: Gate>(
    rt: &R,
    table: &Ring<L, D>,
    layout: Layout,
    bells: &Bells,
    gate: &G,
    archiver: &mut Option<Worker<L, D, A, F>>,
)
    requires archiver { MayWork A.seen A.gives table.now.table_id archiver.old }
    requires its { IsLaidOut layout archiver.old }
    ensures goes_on { WorksOn A.seen A.gives F.stands_for table.now.table_id archiver.old archiver.new }
    ensures at_end { AtItsEnd archiver.new }
{
    if let Some(worker) = archiver {
        work(
            rt,
            table,
            layout,
            bells,
            gate,
            &mut worker.seat,
            &mut worker.player,
            &mut worker.archive,
        );
    }
}

/// Plays players up to their ends, each until it waits, in turn, the archiver among them, if there is one. It waits itself only
/// where none of them has gone on. An archiver that is alone plays as in a thread of its own.
pub(crate) fn play_here<R: Wait, L: Sectors, D: Sectors, A: Sectors, F: Receiver, G: Gate>(
    rt: &R,
    table: &Ring<L, D>,
    layout: Layout,
    bells: &Bells,
    gate: &G,
    crew: &mut Crew<L, D, F>,
    archiver: &mut Option<Worker<L, D, A, F>>,
)
    requires seated { AreSeated table.now.table_id crew.old.seats.items crew.old.players.items }
    requires laid { AreLaidOut layout crew.old.seats.items }
    requires archiver { MayWork A.seen A.gives table.now.table_id archiver.old }
    requires its { IsLaidOut layout archiver.old }
    ensures crew { KeepOn F.stands_for table.now.table_id crew.old crew.new }
    ensures archiver { WorksOn A.seen A.gives F.stands_for table.now.table_id archiver.old archiver.new }
{
    if crew.players.is_empty() {
        archiver_to_end(rt, table, layout, bells, gate, archiver);
        return;
    }
    bells.stand_in();
    let mut pace = Pace::of_many(bells);
    for _ in rt.forever() {
        let others = round(table, layout, bells, gate, crew);
        let its = archiver_round(table, layout, bells, gate, archiver);
        match either(others, its) {
            None => {
                pace.leave(bells);
                return;
            }
            Some(true) => pace.goes_on(bells),
            Some(false) => pace.waits(rt, bells, Call::Any),
        }
    }
    unreachable!()
}

/// Lets each player play up to its end, at which it stands already where it was played in a thread or in turn.
pub(crate) fn to_ends<R: Wait, L: Sectors, D: Sectors, F: Receiver, G: Gate>(
    rt: &R,
    table: &Ring<L, D>,
    layout: Layout,
    bells: &Bells,
    gate: &G,
    crew: &mut Crew<L, D, F>,
)
    requires seated { AreSeated table.now.table_id crew.old.seats.items crew.old.players.items }
    requires laid { AreLaidOut layout crew.old.seats.items }
    ensures goes_on { KeepOn F.stands_for table.now.table_id crew.old crew.new }
    ensures at_end { AreAtEnd crew.new.players.items }
{
    for number in 0..crew.players.len() {
        work_alone(
            rt,
            table,
            layout,
            bells,
            gate,
            &mut crew.seats[number],
            &mut crew.players[number],
        );
    }
}
