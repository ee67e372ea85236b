// One player in its seat, which plays up to its end.
ghost use Rattle.std.specs.Prelude.{MatchOption, None, true, ◌≡◌};
ghost use Rattle.model_running.specs.Schedule.{HasEnded};
ghost use Rattle.redo_ownrule.specs.Players.{MayRest};
ghost use Rattle.redo_ownrule.specs.Playing.{IsPlayerSeat, PlayerAsks};
ghost use Rattle.redo_threads.specs.Archiving.{GoesOnWith, MayArchive};
ghost use Rattle.redo_threads.specs.Working.{AtEnd, GoesOn, IsOver};

use crate::archiving::play_with;
use crate::bells::{Bells, call_of};
use crate::gate::{Gate, point_after};
use crate::pace::{Pace, has_gone_on, steps_in_vain};
use redo_archive::ArchPart;
use redo_disk::Sectors;
use redo_drive::Actor;
use redo_follow::Receiver;
use redo_ownrule::{Player, ask, is_at_rest};
use redo_rule::{Ring, Seat};
use redo_useractor::UserActor;
use redo_words::{Layout, Op, Step, Word};
use std::sync::Wait;

/// How many Ops of a player the caller plays at most before it turns to the next one. One that threads keep busy may never
/// wait, and the next one would never have its turn. It is more than any plays in vain.
const STINT: u64 = 1_024;

/// The user that plays, if it is one.
pub(crate) fn user_of<F: Receiver>(player: &Player<F>) -> Option<&UserActor>
    ensures { MatchOption result (IsOver player.now) (λ user. HasEnded user.now → IsOver player.now) }
{
    match player {
        Player::Plain(actor) => actor.user(),
        Player::Own(own) => Some(own.user()),
    }
}

/// Whether a user has ended.
fn is_over(user: &UserActor) -> bool
    ensures { result ≡ true → HasEnded user.now }
{
    user.has_ended()
}

/// Whether a player has come to its end that asks for this Op: a user has ended, and any other holds nothing, and has failed
/// or no user runs.
fn is_at_end<F: Receiver>(player: &Player<F>, op: Op, bells: &Bells) -> bool
    requires { MayRest player.now }
    ensures { result ≡ true → AtEnd player.now }
{
    let is_over = match user_of(player) {
        Some(user) => is_over(user),
        None => !bells.has_users() || matches!(op, Op::Rest),
    };
    is_over && is_at_rest(player)
}

/// What follows an Op of a user: it passes the gate where it has come to a point, and is counted down by its last Op.
fn leave<G: Gate>(user: &UserActor, done: Op, now: Op, bells: &Bells, gate: &G) {
    if let Some(point) = point_after(done, now) {
        gate.pass(user.number(), point);
    }
    if user.has_ended() {
        bells.user_ended();
    }
}

/// What follows an Op of a player: it wakes those that wait for what that has done. A writer that idles has freed a tail from which
/// no link led on, and waits for that itself. A user rings where it idles too: the writer may have found held the tail that it has
/// freed, and the link is stored meanwhile.
fn tell<F: Receiver, G: Gate>(
    player: &Player<F>,
    done: Op,
    step: Step,
    now: Op,
    bells: &Bells,
    gate: &G,
) {
    if let Some(user) = user_of(player) {
        bells.ring_after(done);
        leave(user, done, now, bells, gate);
    } else if step != Step::Idle {
        bells.ring_after(done);
    }
}

/// Whether the cleaner has come to the end of a batch by an Op: it has freed the last latch, and begins a round anew.
fn has_cleaned<F: Receiver>(player: &Player<F>, done: Op, now: Op) -> bool {
    matches!(player, Player::Plain(Actor::Cleaner(_)))
        && matches!(
            (done, now),
            (Op::Store(Word::Latch(_), 0), Op::Load(Word::Flushed))
        )
}

/// The pace of a player whose step has ended so.
fn follow<R: Wait, F: Receiver>(
    rt: &R,
    bells: &Bells,
    pace: &mut Pace,
    player: &Player<F>,
    done: Op,
    step: Step,
    now: Op,
) {
    if step == Step::Idle {
        pace.waits(rt, bells, call_of(player, done));
        return;
    }
    pace.steps_on(bells, done);
    if has_cleaned(player, done, now) {
        pace.rests(rt, bells);
    }
}

/// A player that hasn't come to its end plays the Op that it asks for. Answers how its step ended, and the Op that it asks for now.
fn turn<L: Sectors, D: Sectors, A: Sectors, F: Receiver, G: Gate>(
    table: &Ring<L, D>,
    layout: Layout,
    bells: &Bells,
    gate: &G,
    seat: &mut Seat<L, D>,
    player: &mut Player<F>,
    archive: &mut Option<ArchPart<A>>,
    op: Op,
) -> (Step, Op)
    requires layout { seat.old.me.0.layout ≡ layout }
    requires seat { IsPlayerSeat table.now.table_id seat.old player.old }
    requires asks { PlayerAsks seat.old.me.0 player.old op }
    requires archive { MayArchive A.seen A.gives seat.old.me.0 player.old archive.old }
    ensures goes_on { GoesOnWith A.seen A.gives F.stands_for table.now.table_id seat.old player.old archive.old seat.new
        player.new archive.new }
    ensures asks { PlayerAsks seat.new.me.0 player.new result.1 }
{
    let step = play_with(table, layout, seat, player, archive, op);
    let now = ask(table, seat, &*player);
    tell(&*player, op, step, now, bells, gate);
    (step, now)
}

/// Plays until the player waits or has come to its end, or for a stint. `None` where it is at its end already; else
/// whether it has gone on, and not only looked in vain.
pub(crate) fn stint<L: Sectors, D: Sectors, A: Sectors, F: Receiver, G: Gate>(
    table: &Ring<L, D>,
    layout: Layout,
    bells: &Bells,
    gate: &G,
    seat: &mut Seat<L, D>,
    player: &mut Player<F>,
    archive: &mut Option<ArchPart<A>>,
) -> Option<bool>
    requires layout { seat.old.me.0.layout ≡ layout }
    requires seat { IsPlayerSeat table.now.table_id seat.old player.old }
    requires archive { MayArchive A.seen A.gives seat.old.me.0 player.old archive.old }
    ensures { GoesOnWith A.seen A.gives F.stands_for table.now.table_id seat.old player.old archive.old seat.new
        player.new archive.new }
{
    let mut op = ask(table, seat, &*player);
    if is_at_end(&*player, op, bells) {
        return None;
    }
    let in_vain = steps_in_vain(&*player);
    let mut went_on = false;
    for steps in 0..STINT {
        let (step, now) = turn(table, layout, bells, gate, seat, player, archive, op);
        match step {
            Step::Moved => {
                went_on = went_on | has_gone_on(op, steps, in_vain);
                op = now;
            }
            Step::Idle => return Some(went_on),
            Step::Ended | Step::Failed(_) => return Some(true),
        }
    }
    Some(true)
}

/// Plays until the player has come to its end. One that is no user looks at least once whether there is something to do, also where
/// the run has ended before.
pub(crate) fn work<R: Wait, L: Sectors, D: Sectors, A: Sectors, F: Receiver, G: Gate>(
    rt: &R,
    table: &Ring<L, D>,
    layout: Layout,
    bells: &Bells,
    gate: &G,
    seat: &mut Seat<L, D>,
    player: &mut Player<F>,
    archive: &mut Option<ArchPart<A>>,
)
    requires layout { seat.old.me.0.layout ≡ layout }
    requires seat { IsPlayerSeat table.now.table_id seat.old player.old }
    requires archive { MayArchive A.seen A.gives seat.old.me.0 player.old archive.old }
    ensures goes_on { GoesOnWith A.seen A.gives F.stands_for table.now.table_id seat.old player.old archive.old seat.new
        player.new archive.new }
    ensures at_end { AtEnd player.new }
{
    let mut pace = Pace::new(&*player, bells);
    let mut op = ask(table, seat, &*player);
    let mut moved = user_of(&*player).is_none();
    for _ in rt.forever() {
        if !moved && is_at_end(&*player, op, bells) {
            pace.leave(bells);
            return;
        }
        let (step, now) = turn(table, layout, bells, gate, seat, player, archive, op);
        moved = step == Step::Moved;
        follow(rt, bells, &mut pace, &*player, op, step, now);
        op = now;
    }
    unreachable!()
}

/// Lets go of an archive that isn't there.
fn let_go<A: Sectors>(none: Option<ArchPart<A>>)
    requires { none ≡ None }
{
    match none {
        None => (),
        Some(_part) => unreachable!(),
    }
}

/// `stint` of a player that has no archive.
pub(crate) fn stint_alone<L: Sectors, D: Sectors, F: Receiver, G: Gate>(
    table: &Ring<L, D>,
    layout: Layout,
    bells: &Bells,
    gate: &G,
    seat: &mut Seat<L, D>,
    player: &mut Player<F>,
) -> Option<bool>
    requires layout { seat.old.me.0.layout ≡ layout }
    requires seat { IsPlayerSeat table.now.table_id seat.old player.old }
    ensures { GoesOn F.stands_for table.now.table_id seat.old player.old seat.new player.new }
{
    let mut none: Option<ArchPart<L>> = None;
    let went_on = stint(table, layout, bells, gate, seat, player, &mut none);
    let_go(none);
    went_on
}

/// `work` of a player that has no archive.
pub(crate) fn work_alone<R: Wait, L: Sectors, D: Sectors, F: Receiver, G: Gate>(
    rt: &R,
    table: &Ring<L, D>,
    layout: Layout,
    bells: &Bells,
    gate: &G,
    seat: &mut Seat<L, D>,
    player: &mut Player<F>,
)
    requires layout { seat.old.me.0.layout ≡ layout }
    requires seat { IsPlayerSeat table.now.table_id seat.old player.old }
    ensures goes_on { GoesOn F.stands_for table.now.table_id seat.old player.old seat.new player.new }
    ensures at_end { AtEnd player.new }
{
    let mut none: Option<ArchPart<L>> = None;
    work(rt, table, layout, bells, gate, seat, player, &mut none);
    let_go(none);
}
