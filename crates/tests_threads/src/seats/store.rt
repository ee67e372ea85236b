// Shared stores that were just formatted, each player with its seat.
ghost use Rattle.std.specs.Prelude.{IfOk, false, ◌≡◌};
ghost use Rattle.redo_drive.specs.{MayBegin};
ghost use Rattle.redo_ownrule.specs.Sharing.{IsFixed, IsUnseated, own_of};
ghost use Rattle.tests_threads.specs.Playing.{IsPlaying};

use crate::store::{Device, Ready, Way, make_ready, no_followers};
use redo_drive::Plan;
use redo_follow::Tally;
use redo_ownrule::{Player, Shared};
use redo_rule::Seat;
use std::alloc::Global;
use std::test::Fail;

/// A store that its players share, each with its seat.
pub struct Playing {
    pub shared: Shared<Device, Device, Tally>,
    pub seats: Vec<Seat<Device, Device>>,
    pub players: Vec<Player<Tally>>,
}

/// The store on which the run of a script may begin, none of whose players has a seat yet. Each is an actor by its
/// own program.
fn shared_of(
    alloc: Global,
    ready: Ready,
    log_only: bool,
) -> Result<(Shared<Device, Device, Tally>, Vec<Player<Tally>>), Fail>
    requires { MayBegin ready.opened ready.script log_only }
    ensures new { IfOk result (λ made. IsUnseated made.0 made.1.items) }
    ensures own { IfOk result (λ made. own_of made.0 ≡ false) }
    ensures apart { IfOk result (λ made. made.0.board.shared.key.plan.archive ≡ false) }
    ensures fixed { IfOk result (λ made. IsFixed made.0) }
{
    let Ready { opened, script } = ready;
    let followers = no_followers(alloc);
    let plan = Plan {
        log_only,
        archive: false,
        followers: followers.len() as u64,
    };
    match Shared::new(alloc, opened, &script, plan, false, followers) {
        Ok(made) => Ok(made),
        Err(_) => Err(Fail::from("no memory")),
    }
}

/// The store, each of whose players has its seat.
fn seated(mut shared: Shared<Device, Device, Tally>, players: Vec<Player<Tally>>) -> Playing
    requires new { IsUnseated shared players.items }
    requires own { own_of shared ≡ false }
    requires apart { shared.board.shared.key.plan.archive ≡ false }
    requires fixed { IsFixed shared }
    ensures { IsPlaying result.shared result.seats.items result.players.items }
{
    let seats = shared.seats(players.as_slice());
    Playing {
        shared,
        seats,
        players,
    }
}

/// The store of the script of a text, which fits it.
pub fn begin(alloc: Global, text: &[u8], way: Way) -> Result<Playing, Fail>
    ensures { IfOk result (λ made. IsPlaying made.shared made.seats.items made.players.items) }
{
    let ready = make_ready(alloc, text, way)?;
    let (shared, players) = shared_of(alloc, ready, way.log_only)?;
    Ok(seated(shared, players))
}
