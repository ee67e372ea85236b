// A thread for each player, where one can be started.
ghost use Rattle.std.specs.Prelude.{IfErr, IfOk, length, ◌≡◌, ◌≤◌};
ghost use Rattle.redo_ownrule.specs.Playing.{IsPlayerSeat};
ghost use Rattle.redo_rule.specs.Sharing.{AreLaidOut};
ghost use Rattle.redo_threads.specs.Archiving.{AtItsEnd, IsLaidOut, MayWork, WorksOn};
ghost use Rattle.redo_threads.specs.Working.{AreAtEnd, AreSeated, GoesOn, KeepOn};

use crate::bells::Bells;
use crate::crew::{Crew, Seated, Worker, archiver_to_end, play_here, to_ends};
use crate::gate::Gate;
use crate::work::work_alone;
use redo_disk::Sectors;
use redo_follow::Receiver;
use redo_rule::Ring;
use redo_words::Layout;
use std::snapshot::Snapshot;
use std::sync::Wait;
use std::sync::atomic::{AtomicU64, Ordering};
use std::thread::{Promise, PromisedHandle, Scope, Threads, scope, scope_env};

/// No player's number.
const NOBODY: u64 = u64::MAX;

/// The promise of a player's thread: what it gives back has gone on from what it was given.
#[derive(Drop)]
pub(crate) struct FromSeated<L: Sectors, D: Sectors, F: Receiver>(Snapshot<Seated<L, D, F>>);

impl<L: Sectors, D: Sectors, F: Receiver> Promise<Seated<L, D, F>> for FromSeated<L, D, F> {
    ghost use Rattle.redo_threads.specs.Working.{GoesOn};

    ghost kept_by = { λ p r. GoesOn F.stands_for p.0.value.seat.table_id p.0.value.seat p.0.value.player r.seat r.player };
}

/// What a thread does: it lets its player play up to the end. Where the thread couldn't be started, the caller has noted its
/// number and calls this itself, to get the player back as it was.
fn work_or_return<R: Wait, L: Sectors, D: Sectors, F: Receiver, G: Gate>(
    rt: &R,
    table: &Ring<L, D>,
    layout: Layout,
    bells: &Bells,
    refused: &AtomicU64,
    gate: &G,
    number: u64,
    mut seated: Seated<L, D, F>,
) -> Seated<L, D, F>
    requires layout { seated.seat.me.0.layout ≡ layout }
    requires seat { IsPlayerSeat table.now.table_id seated.seat seated.player }
    ensures { GoesOn F.stands_for table.now.table_id seated.seat seated.player result.seat result.player }
{
    if refused.load(Ordering::SeqCst) != number {
        work_alone(
            rt,
            table,
            layout,
            bells,
            gate,
            &mut seated.seat,
            &mut seated.player,
        );
    }
    seated
}

/// Starts a thread for the player with this number. Where it can't be started, or the gate refuses it, the player
/// comes back.
fn start_one<
    's,
    E,
    R: Threads + Wait + Sync,
    L: Sectors + Send,
    D: Sectors + Send,
    F: Receiver + Drop + Send + 's,
    G: Gate,
>(
    scope: &'s Scope<'s, E>,
    rt: &'s R,
    table: &'s Ring<L, D>,
    layout: Layout,
    bells: &'s Bells,
    refused: &'s AtomicU64,
    gate: &'s G,
    number: usize,
    seated: Seated<L, D, F>,
) -> Result<PromisedHandle<Seated<L, D, F>, FromSeated<L, D, F>>, Seated<L, D, F>>
    requires layout { seated.seat.me.0.layout ≡ layout }
    requires seat { IsPlayerSeat table.now.table_id seated.seat seated.player }
    ensures ok { IfOk result (λ handle. handle.promise.0.value ≡ seated) }
    ensures err { IfErr result (λ back. GoesOn F.stands_for table.now.table_id seated.seat seated.player back.seat
        back.player) }
{
    if gate.refuses(number) {
        return Err(seated);
    }
    let number = number as u64;
    let promise = FromSeated(Snapshot::of(&seated));
    match scope.spawn_with(
        promise,
        move || -> Seated<L, D, F>
            requires layout { seated.seat.me.0.layout ≡ layout }
            requires seat { IsPlayerSeat table.now.table_id seated.seat seated.player }
            ensures { GoesOn F.stands_for table.entry.now.table_id seated.seat seated.player result.seat
                result.player }
        { work_or_return(rt, table, layout, bells, refused, gate, number, seated) },
    ) {
        Ok(handle) => Ok(handle),
        Err(error) => {
            refused.store(number, Ordering::SeqCst);
            Err((error.value)())
        }
    }
}

/// Starts threads for the first players, as many as are left, the last of them first, and joins them. Who gets no
/// thread stays behind those that are left: it plays these itself, and the archiver, if there is one, once each of the others
/// has been tried. The archiver's device is the caller's, and no thread takes it.
fn start<
    's,
    E,
    R: Threads + Wait + Sync,
    L: Sectors + Send,
    D: Sectors + Send,
    A: Sectors,
    F: Receiver + Drop + Send + 's,
    G: Gate,
>(
    scope: &'s Scope<'s, E>,
    rt: &'s R,
    table: &'s Ring<L, D>,
    layout: Layout,
    bells: &'s Bells,
    refused: &'s AtomicU64,
    gate: &'s G,
    left: usize,
    mut crew: Crew<L, D, F>,
    archiver: &mut Option<Worker<L, D, A, F>>,
) -> Crew<L, D, F>
    requires seated { AreSeated table.now.table_id crew.seats.items crew.players.items }
    requires laid { AreLaidOut layout crew.seats.items }
    requires archiver { MayWork A.seen A.gives table.now.table_id archiver.old }
    requires its { IsLaidOut layout archiver.old }
    requires left { left ≤ length crew.players.items }
    ensures crew { KeepOn F.stands_for table.now.table_id crew result }
    ensures archiver { WorksOn A.seen A.gives F.stands_for table.now.table_id archiver.old archiver.new }
{
    if left == 0 {
        play_here(rt, table, layout, bells, gate, &mut crew, archiver);
        return crew;
    }
    let number = left - 1;
    let seated = crew.take_out(number);
    match start_one(
        scope, rt, table, layout, bells, refused, gate, number, seated,
    ) {
        Ok(handle) => {
            let mut crew = start(
                scope, rt, table, layout, bells, refused, gate, number, crew, archiver,
            );
            crew.put_back(number, handle.join(rt));
            crew
        }
        Err(seated) => {
            crew.put_back(number, seated);
            start(
                scope, rt, table, layout, bells, refused, gate, number, crew, archiver,
            )
        }
    }
}

/// The same for all players.
fn start_all<
    's,
    E,
    R: Threads + Wait + Sync,
    L: Sectors + Send,
    D: Sectors + Send,
    A: Sectors,
    F: Receiver + Drop + Send + 's,
    G: Gate,
>(
    scope: &'s Scope<'s, E>,
    rt: &'s R,
    table: &'s Ring<L, D>,
    layout: Layout,
    bells: &'s Bells,
    refused: &'s AtomicU64,
    gate: &'s G,
    crew: Crew<L, D, F>,
    archiver: &mut Option<Worker<L, D, A, F>>,
) -> Crew<L, D, F>
    requires seated { AreSeated table.now.table_id crew.seats.items crew.players.items }
    requires laid { AreLaidOut layout crew.seats.items }
    requires archiver { MayWork A.seen A.gives table.now.table_id archiver.old }
    requires its { IsLaidOut layout archiver.old }
    ensures crew { KeepOn F.stands_for table.now.table_id crew result }
    ensures archiver { WorksOn A.seen A.gives F.stands_for table.now.table_id archiver.old archiver.new }
{
    let left = crew.players.len();
    start(
        scope, rt, table, layout, bells, refused, gate, left, crew, archiver,
    )
}

/// Ends a loan: what stands there is what the borrower has left.
fn take_back<T>(lent: &mut T)
    ensures { lent.new ≡ lent.old }
{}

/// Lets all players play at once, in threads of a scope, the archiver, if there is one, in the caller's.
fn play_at_once<
    R: Threads + Wait + Sync,
    L: Sectors + Send,
    D: Sectors + Send,
    A: Sectors,
    F: Receiver + Drop + Send,
    G: Gate,
>(
    rt: &R,
    table: &Ring<L, D>,
    layout: Layout,
    bells: &Bells,
    gate: &G,
    crew: Crew<L, D, F>,
    archiver: &mut Option<Worker<L, D, A, F>>,
) -> Crew<L, D, F>
    requires seated { AreSeated table.now.table_id crew.seats.items crew.players.items }
    requires laid { AreLaidOut layout crew.seats.items }
    requires archiver { MayWork A.seen A.gives table.now.table_id archiver.old }
    requires its { IsLaidOut layout archiver.old }
    ensures crew { KeepOn F.stands_for table.now.table_id crew result }
    ensures archiver { WorksOn A.seen A.gives F.stands_for table.now.table_id archiver.old archiver.new }
{
    let refused = AtomicU64::new(NOBODY);
    let refused_at = &refused;
    let (played, back) = scope(
        scope_env(),
        rt,
        |all| -> (Crew<L, D, F>, &mut Option<Worker<L, D, A, F>>)
            requires seated { AreSeated table.now.table_id crew.seats.items crew.players.items }
            requires laid { AreLaidOut layout crew.seats.items }
            requires archiver { MayWork A.seen A.gives table.now.table_id archiver.now }
            requires its { IsLaidOut layout archiver.now }
            ensures crew { KeepOn F.stands_for table.entry.now.table_id crew result.0 }
            ensures archiver { WorksOn A.seen A.gives F.stands_for table.entry.now.table_id archiver.entry.now result.1.now }
            ensures same { result.1.ghost_name ≡ archiver.entry.ghost_name }
        {
            let played = start_all(
                all, rt, table, layout, bells, refused_at, gate, crew, archiver,
            );
            (played, archiver)
        },
    );
    take_back(back);
    played
}

/// All players play at once, up to their ends, the archiver, if there is one, apart from the others.
pub(crate) fn play_all<
    R: Threads + Wait + Sync,
    L: Sectors + Send,
    D: Sectors + Send,
    A: Sectors,
    F: Receiver + Drop + Send,
    G: Gate,
>(
    rt: &R,
    table: &Ring<L, D>,
    layout: Layout,
    bells: &Bells,
    gate: &G,
    crew: Crew<L, D, F>,
    mut archiver: Option<Worker<L, D, A, F>>,
) -> (Crew<L, D, F>, Option<Worker<L, D, A, F>>)
    requires seated { AreSeated table.now.table_id crew.seats.items crew.players.items }
    requires laid { AreLaidOut layout crew.seats.items }
    requires archiver { MayWork A.seen A.gives table.now.table_id archiver }
    requires its { IsLaidOut layout archiver }
    ensures goes_on { KeepOn F.stands_for table.now.table_id crew result.0 }
    ensures at_end { AreAtEnd result.0.players.items }
    ensures archiver { WorksOn A.seen A.gives F.stands_for table.now.table_id archiver result.1 }
    ensures its_end { AtItsEnd result.1 }
{
    let mut played = play_at_once(rt, table, layout, bells, gate, crew, &mut archiver);
    to_ends(rt, table, layout, bells, gate, &mut played);
    archiver_to_end(rt, table, layout, bells, gate, &mut archiver);
    (played, archiver)
}
