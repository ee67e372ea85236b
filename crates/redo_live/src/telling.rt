// What a user has come to.
ghost use Rattle.std.specs.Prelude.{◌≡◌, ◌≢◌, MatchOption, MatchResult, ℕ};
ghost use Rattle.model_core.specs.{UserState};
ghost use Rattle.redo_live.specs.Holding.{IsPlayedBy};
ghost use Rattle.redo_live.specs.Telling.{HasAnswered, last_end};

use model_core::UserStep;
use redo_drive::Actor;
use redo_follow::Tally;
use redo_lsn::lsn_of;
use redo_ownrule::Player;
use redo_useractor::UserActor;

/// The user that plays.
pub(crate) fn user_in(player: &Player<Tally>) -> &UserActor
    requires { (u : UserState) × IsPlayedBy u player.now }
    ensures { IsPlayedBy result.now player.now }
{
    match player {
        Player::Plain(Actor::User(user)) => user,
        _ => unreachable!(),
    }
}

/// The lsn at which the group of a user's last line ends, which is done.
fn last_end(user: &UserActor) -> u64
    requires { HasAnswered user.now }
    ensures { result ≡ last_end user.now }
{
    let (start, length) = user.last_group();
    lsn_of(start + length as u64)
}

/// What a user that has ended was answered for its last line: the lsn at which its group ends; or the code of the failure by which
/// it has ended.
pub(crate) fn outcome(user: &UserActor) -> Result<u64, u32>
    requires { user.now.step ≢ UserStep.Failed → HasAnswered user.now }
    ensures { MatchResult result (λ end. (user.now.step ≢ UserStep.Failed) × (end ≡ last_end user.now)) (λ code. (user.now.step ≡ UserStep.Failed) × (code ≡ user.now.code)) }
{
    match user.failure() {
        Some(code) => Err(code),
        None => Ok(last_end(user)),
    }
}
