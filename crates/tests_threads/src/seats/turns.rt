// Turns that are given by hand, and what they leave of a store.
ghost use Rattle.std.specs.Prelude.{length, ◌<◌, ◌≡◌};
ghost use Rattle.redo_ownrule.specs.Players.{IsSamePlayer};
ghost use Rattle.redo_ownrule.specs.Playing.{IsPlayerSeat};
ghost use Rattle.redo_ownrule.specs.Sharing.{AllAtRest};
ghost use Rattle.redo_rule.specs.Mine.{number_of};
ghost use Rattle.tests_threads.specs.Playing.{AllMayRest, ArePlaying};

use super::store::{Playing, begin};
use crate::store::{Device, PAGES, Way};
use crate::told::{see_told, told_of};
use model_base::{PAGE_SIZE, SLOTS};
use redo_disk::{DevError, Sectors};
use redo_drive::Closed;
use redo_follow::Tally;
use redo_ownrule::{Player, ask, is_at_rest, play};
use redo_rule::{Ring, Seat};
use redo_words::{Layout, Step};
use std::alloc::Global;
use std::process::Abort;
use std::test::Fail;

/// A run of a script on a new store.
#[derive(Clone, Copy)]
pub struct Run<'a> {
    pub text: &'a str,
    pub way: Way,
    /// The turns that come first, as `SEAT COUNT LAST, ..`: so many turns of the player at a seat, and how the last
    /// of them ends.
    /// Each one before it moves the player on.
    pub turns: &'a str,
    /// How many rounds come then. In a round each player goes on until it doesn't move, the first one last.
    pub rounds: u64,
    /// Pages and offsets whose bytes on the data device are told.
    pub places: &'a [(u32, usize)],
}

/// A run of no turns, with the pages.
pub const NO_TURNS: Run<'static> = Run {
    text: "",
    way: PAGES,
    turns: "",
    rounds: 0,
    places: &[],
};

/// Plays the next Op of a player in its seat.
fn turn<L: Sectors, D: Sectors>(
    table: &Ring<L, D>,
    layout: Layout,
    seat: &mut Seat<L, D>,
    player: &mut Player<Tally>,
) -> Step
    requires seat { IsPlayerSeat table.now.table_id seat.old player.old }
    requires layout { seat.old.me.0.layout ≡ layout }
    ensures seat { IsPlayerSeat table.now.table_id seat.new player.new }
    ensures number { number_of seat.new.me.0 ≡ number_of seat.old.me.0 }
    ensures layout { seat.new.me.0.layout ≡ seat.old.me.0.layout }
    ensures same { IsSamePlayer player.old player.new }
{
    let op = ask(table, seat, player);
    play(table, seat, player, layout, op)
}

/// Plays the next Op of the player at a seat.
fn turn_at<L: Sectors, D: Sectors>(
    table: &Ring<L, D>,
    layout: Layout,
    seats: &mut Vec<Seat<L, D>>,
    players: &mut Vec<Player<Tally>>,
    seat: usize,
) -> Step
    requires plays { ArePlaying table.now.table_id layout seats.old.items players.old.items }
    requires there { seat < length players.old.items }
    ensures plays { ArePlaying table.now.table_id layout seats.new.items players.new.items }
    ensures count { length players.new.items ≡ length players.old.items }
{
    turn(table, layout, &mut seats[seat], &mut players[seat])
}

/// Gives the player at a seat turns until one doesn't move it on, at most so many. Answers how many, and how the last
/// ends.
fn take_turns<L: Sectors, D: Sectors>(
    table: &Ring<L, D>,
    layout: Layout,
    seats: &mut Vec<Seat<L, D>>,
    players: &mut Vec<Player<Tally>>,
    seat: usize,
    most: u64,
) -> (u64, Step)
    requires plays { ArePlaying table.now.table_id layout seats.old.items players.old.items }
    requires there { seat < length players.old.items }
    ensures plays { ArePlaying table.now.table_id layout seats.new.items players.new.items }
    ensures count { length players.new.items ≡ length players.old.items }
{
    for taken in 0..most {
        let step = turn_at(table, layout, seats, players, seat);
        if step != Step::Moved {
            return (taken + 1, step);
        }
    }
    (most, Step::Moved)
}

/// Gives each player turns until it doesn't move, the first one last.
fn play_round<L: Sectors, D: Sectors>(
    table: &Ring<L, D>,
    layout: Layout,
    seats: &mut Vec<Seat<L, D>>,
    players: &mut Vec<Player<Tally>>,
)
    requires { ArePlaying table.now.table_id layout seats.old.items players.old.items }
    ensures plays { ArePlaying table.now.table_id layout seats.new.items players.new.items }
    ensures count { length players.new.items ≡ length players.old.items }
{
    let count = players.len();
    for seat in 1..count {
        take_turns(table, layout, seats, players, seat, u64::MAX);
    }
    if 0 < count {
        take_turns(table, layout, seats, players, 0, u64::MAX);
    }
}

/// The step of this name. A failure is one of the log device.
fn step_of(name: &str) -> Option<Step> {
    match name {
        "Moved" => Some(Step::Moved),
        "Idle" => Some(Step::Idle),
        "Ended" => Some(Step::Ended),
        "Failed" => Some(Step::Failed(1)),
        _ => None,
    }
}

/// The seat of a row, how many turns it has, and how the last of them ends. No player is at the seat of a row that
/// can't be read.
fn turns_of(row: &str) -> (usize, u64, Option<Step>) {
    let (seat, rest) = row.split_once(' ').unwrap_or(("", row));
    let (count, last) = rest.split_once(' ').unwrap_or(("", rest));
    let seat = seat.parse::<usize>().unwrap_or(usize::MAX);
    (seat, count.parse::<u64>().unwrap_or(0), step_of(last))
}

/// Gives the turns of a row, and sees that they go as it says.
fn see_turns<L: Sectors, D: Sectors>(
    rt: &impl Abort,
    table: &Ring<L, D>,
    layout: Layout,
    seats: &mut Vec<Seat<L, D>>,
    players: &mut Vec<Player<Tally>>,
    row: &str,
)
    requires { ArePlaying table.now.table_id layout seats.old.items players.old.items }
    ensures plays { ArePlaying table.now.table_id layout seats.new.items players.new.items }
    ensures count { length players.new.items ≡ length players.old.items }
{
    let (seat, count, last) = turns_of(row);
    assert!(rt; seat < players.len());
    let (taken, step) = take_turns(table, layout, seats, players, seat, count);
    assert!(rt;
        taken == count && Some(step) == last,
        "{row}: {step:?} after {taken}"
    );
}

/// Gives the turns of a run.
fn play_all<L: Sectors, D: Sectors>(
    rt: &impl Abort,
    table: &Ring<L, D>,
    layout: Layout,
    seats: &mut Vec<Seat<L, D>>,
    players: &mut Vec<Player<Tally>>,
    run: &Run,
)
    requires { ArePlaying table.now.table_id layout seats.old.items players.old.items }
    ensures plays { ArePlaying table.now.table_id layout seats.new.items players.new.items }
    ensures count { length players.new.items ≡ length players.old.items }
{
    for row in run.turns.split_terminator(", ") {
        see_turns(rt, table, layout, seats, players, row);
    }
    for _ in 0..run.rounds {
        play_round(table, layout, seats, players);
    }
}

/// Sees that each of these is at rest.
fn see_rest(rt: &impl Abort, players: &[Player<Tally>])
    requires { AllMayRest players.now }
    ensures { AllAtRest players.now }
{
    for seat in 0..players.len() {
        assert!(rt; is_at_rest(&players[seat]));
    }
}

/// What the store of a script leaves after these turns.
fn left_by(rt: &impl Abort, alloc: Global, run: &Run) -> Result<Closed<Device, Device>, Fail> {
    let Playing {
        shared,
        mut seats,
        mut players,
    } = begin(alloc, run.text.as_bytes(), run.way)?;
    let layout = shared.layout();
    play_all(rt, shared.ring(), layout, &mut seats, &mut players, run);
    see_rest(rt, players.as_slice());
    let (closed, _actors) = shared.finish(seats, players, None);
    Ok(closed)
}

/// A byte of a page's place on the data device.
fn byte_at(store: &mut Device, page: u32, at: usize) -> Result<u8, DevError> {
    let mut bytes = [0; PAGE_SIZE as usize];
    let start = (u64::from(SLOTS) + u64::from(page)) * u64::from(PAGE_SIZE);
    if start + u64::from(PAGE_SIZE) <= store.len() {
        store.read(start, &mut bytes)?;
    }
    bytes.get(at).copied().ok_or(DevError::Failed)
}

/// The bytes at these places.
fn bytes_of(
    alloc: Global,
    store: &mut Device,
    places: &[(u32, usize)],
) -> Result<String, DevError> {
    let mut text = String::new(alloc);
    for (page, at) in places {
        let byte = byte_at(store, *page, *at)?;
        text.push_str(&format!(in alloc; " {byte}")?)?;
    }
    Ok(text)
}

/// Sees that all of these are told of a run: of what it leaves, and of its places.
pub fn see(rt: &(impl Abort + AllocGlobal), run: &Run, wants: &[&str]) -> Result<(), Fail> {
    let closed = left_by(rt, rt.alloc(), run)?;
    let left = told_of(rt.alloc(), &closed)?;
    let mut store = closed.store.into_dev();
    let bytes = bytes_of(rt.alloc(), &mut store, run.places)?;
    let told = format!(in rt.alloc(); "{left} places{bytes}")?;
    see_told(rt, &told, wants);
    Ok(())
}
