// Which user of a run hasn't ended.
ghost use Rattle.std.specs.Prelude.{◌≡◌, MatchOption};
ghost use Rattle.model_running.specs.{HasEnded, HaveEnded};
ghost use Rattle.redo_machine.specs.OpenUsers.{IsFirstOpen, IsOpen, IsOpenUser, IsOver};
ghost use Rattle.redo_drive.specs.{view_of, views_of};

use redo_drive::Actor;
use redo_follow::Receiver;
use redo_useractor::UserActor;

/// A user's number, where it hasn't ended.
#[tactic(auto, using(crate::proofs::Ended::ended_is, crate::proofs::Ended::open_is))]
pub fn number_if_open(user: &UserActor) -> Option<u32>
    ensures { MatchOption result (HasEnded user.now) (IsOpenUser user.now) }
{
    if user.has_ended() {
        None
    } else {
        Some(user.number())
    }
}

/// The number of an actor that is a user which hasn't ended.
#[tactic(auto, using(crate::proofs::Ended::over_by_user, crate::proofs::Ended::over_without_user, crate::proofs::Ended::open_by_user))]
fn open_number<R: Receiver>(actor: &Actor<R>) -> Option<u32>
    ensures { MatchOption result (IsOver (view_of actor.now)) (IsOpen (view_of actor.now)) }
{
    match actor.user() {
        Some(user) => number_if_open(user),
        None => None,
    }
}

/// The first user that hasn't ended, by the seats, with its seat.
pub fn open_user<R: Receiver>(actors: &[Actor<R>]) -> Option<(usize, u32)>
    ensures { MatchOption result (HaveEnded (views_of actors.now)) (λ found. IsFirstOpen (views_of actors.now) found.1) }
{
    for (seat, actor) in actors.iter().enumerate() {
        match open_number(actor) {
            Some(user) => return Some((seat, user)),
            None => {}
        }
    }
    None
}

/// A seat whose user hasn't ended: this one as long as its user hasn't, else the first. So a run looks over all seats only once
/// for each user that ends.
pub fn open_seat<R: Receiver>(actors: &[Actor<R>], seat: usize) -> Option<usize>
    ensures { MatchOption result (HaveEnded (views_of actors.now)) (λ _. HaveEnded (views_of actors.now) → ⊥) }
{
    if seat < actors.len() {
        match open_number(&actors[seat]) {
            Some(_) => return Some(seat),
            None => {}
        }
    }
    match open_user(actors) {
        Some((first, _)) => Some(first),
        None => None,
    }
}
