// Which user of a run hasn't ended, where users write for themselves.
ghost use Rattle.std.specs.Prelude.{MatchOption};
ghost use Rattle.redo_ownmachine.specs.OpenOwn.{IsFirstOpenUser, UsersHaveEnded};

use redo_machine::number_if_open;
use redo_ownuser::OwnUser;

/// The first user that hasn't ended, by the seats, with its seat.
pub fn open_user(users: &[OwnUser]) -> Option<(usize, u32)>
    ensures { MatchOption result (UsersHaveEnded users.now) (λ found. IsFirstOpenUser users.now found.1) }
{
    for (seat, user) in users.iter().enumerate() {
        match number_if_open(user.user()) {
            Some(number) => return Some((seat, number)),
            None => {}
        }
    }
    None
}

/// A seat whose user hasn't ended: this one as long as its user hasn't, else the first. So a run looks over all seats only once
/// for each user that ends.
pub fn open_seat(users: &[OwnUser], seat: usize) -> Option<usize>
    ensures { MatchOption result (UsersHaveEnded users.now) (λ _. UsersHaveEnded users.now → ⊥) }
{
    if seat < users.len() {
        match number_if_open(users[seat].user()) {
            Some(_) => return Some(seat),
            None => {}
        }
    }
    match open_user(users) {
        Some((first, _)) => Some(first),
        None => None,
    }
}
