// The history of a run.
ghost use Rattle.std.specs.Prelude.{ℕ, [], ◌++◌, ◌+◌, ◌≡◌, ◌<◌, ◌≤◌, if◌then◌else◌, length, nat_lt, slice_index, slice_index_or, true, vec_capacity};
ghost use Rattle.model_report.specs.{state_by};
ghost use Rattle.model_report.specs.declared.entry.State.TheVariants as state;
ghost use Rattle.redo_drive.specs.History.{ListsInOrder, all_listed, listed, listed_from, view_of, views_of};
ghost use Rattle.redo_drive.specs.Reserved.{HasGroups, HasReserved, KeepsAll, listed_group};

use crate::actor::Actor;
use model_report::{Entry, History, Marks, State};
use redo_follow::Receiver;
use redo_lsn::lsn_of;
use redo_useractor::UserActor;

/// How a commit that is answered stands by the marks.
fn state_by(marks: &Marks, end: u64) -> State
    ensures { result ≡ state_by marks.now end }
{
    if end <= marks.flushed {
        State::Flushed
    } else if end <= marks.write {
        State::Written
    } else {
        State::Copied
    }
}

/// How the commit of a user's group stands, which ends at this lsn. One that isn't answered is lost.
fn state_of(user: &UserActor, k: usize, marks: &Marks, end: u64) -> State
    requires { user.now.keeps ≡ true }
    ensures { result ≡ (if nat_lt k user.now.k then state_by marks.now end else state.Lost) }
{
    if k < user.answered_count() {
        state_by(marks, end)
    } else {
        State::Lost
    }
}

/// A group of a user, as the history has it.
fn entry_of(user: &UserActor, k: usize, marks: &Marks) -> Entry
    requires keeps { user.now.keeps ≡ true }
    requires reserved { HasReserved user.now k }
    ensures { result ≡ listed_group marks.now user.now k (slice_index user.now.starts k) }
{
    let start = user.group_start(k);
    let end = lsn_of(start + user.group_length(k) as u64);
    Entry {
        user: user.number(),
        k: k as u64,
        start: lsn_of(start),
        end,
        state: state_of(user, k, marks, end),
    }
}

/// Adds the groups of a user, as far as there is room.
fn add_user(entries: &mut Vec<Entry>, user: &UserActor, marks: &Marks)
    requires keeps { user.now.keeps ≡ true }
    requires reserved { (k : ℕ) → k < length user.now.starts → HasReserved user.now k }
    ensures capacity { vec_capacity entries.new ≡ vec_capacity entries.old }
    ensures added { length entries.old.items + length user.now.starts ≤ vec_capacity entries.old
        → entries.new.items ≡ entries.old.items ++ listed_from marks.now user.now 0 user.now.starts }
{
    for k in 0..user.group_count() {
        if entries.len() < entries.capacity() {
            entries.push_reserved(entry_of(user, k, marks));
        }
    }
}

/// Adds the groups of an actor, as far as there is room, unless it is a user that can't tell them all.
fn add_actor<R: Receiver>(entries: &mut Vec<Entry>, actor: &Actor<R>, marks: &Marks)
    requires { HasGroups (view_of actor.now) }
    ensures capacity { vec_capacity entries.new ≡ vec_capacity entries.old }
    ensures added { KeepsAll (view_of actor.now) → length entries.old.items + length (listed marks.now (view_of actor.now)) ≤ vec_capacity entries.old
        → entries.new.items ≡ entries.old.items ++ listed marks.now (view_of actor.now) }
{
    match actor.user() {
        Some(user) if user.keeps_all() => add_user(entries, user, marks),
        _ => {}
    }
}

/// The groups of all actors in lsn order, in a vector that has room for them. A user that can't tell all its groups adds none.
pub fn history_of<R: Receiver>(
    mut entries: Vec<Entry>,
    actors: &[Actor<R>],
    marks: &Marks,
) -> History
    requires { (seat : ℕ) (actor : Actor R) → seat < length actors.now → HasGroups (view_of (slice_index_or actors.now seat actor)) }
    ensures { ((seat : ℕ) (actor : Actor R) → seat < length actors.now → KeepsAll (view_of (slice_index_or actors.now seat actor)))
        → entries.items ≡ [] → length (all_listed marks.now (views_of actors.now)) ≤ vec_capacity entries
        → ListsInOrder marks.now (views_of actors.now) result }
{
    for actor in actors {
        add_actor(&mut entries, actor, marks);
    }
    entries.sort_unstable_by_key(|entry| entry.start);
    History(entries)
}
