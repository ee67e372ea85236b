// A line is given to a user in its seat.
ghost use Rattle.std.specs.Prelude.{◌≡◌, OnErr, OnOk};
ghost use Rattle.model_base.specs.{IsWithinLimits};
ghost use Rattle.model_core.specs.{UserState, line_of};
ghost use Rattle.model_core.specs.declared.steps.UserStep.TheVariants as user_step;
ghost use Rattle.redo_live.specs.Giving.{HasLine, MayGive};
ghost use Rattle.redo_live.specs.Holding.{IsPlayedBy};
ghost use Rattle.redo_rule.specs.HandIn.{with_line};
ghost use Rattle.redo_useractor.specs.{IsUserLine};

use model_base::Shape;
use model_log::Group;
use model_script::ScriptLine;
use redo_disk::Sectors;
use redo_drive::Actor;
use redo_follow::Tally;
use redo_lsn::NoMemory;
use redo_ownrule::Player;
use redo_rule::{Ring, Seat, hand_in};
use std::alloc::Global;

/// The user that plays goes on to a line of this mode and this group. Where memory runs out it is as it was.
fn take_line(
    alloc: Global,
    player: &mut Player<Tally>,
    mode: u32,
    group: Group,
    shape: &Shape,
    log_only: bool,
) -> Result<(), NoMemory>
    requires limits { IsWithinLimits shape.now }
    requires user { (u : UserState) × IsPlayedBy u player.old × (u.step ≡ user_step.Done) }
    requires line { IsUserLine shape.now (mode, group) }
    ensures ok { OnOk result ((u : UserState) → IsPlayedBy u player.old
        → IsPlayedBy (with_line u (line_of log_only shape.now mode group)) player.new) }
    ensures err { OnErr result (player.new ≡ player.old) }
{
    match player {
        Player::Plain(Actor::User(user)) => {
            match user.take_line(alloc, mode, group, shape, log_only) {
                Ok(()) => Ok(()),
                Err((error, _)) => Err(error),
            }
        }
        _ => unreachable!(),
    }
}

/// The user that plays in this seat goes on to the line, which has this group. Where memory runs out both are as they were.
pub(crate) fn give_line<L: Sectors, D: Sectors>(
    alloc: Global,
    table: &Ring<L, D>,
    seat: &mut Seat<L, D>,
    player: &mut Player<Tally>,
    line: &ScriptLine,
    group: Group,
    shape: &Shape,
    log_only: bool,
) -> Result<(), NoMemory>
    requires limits { IsWithinLimits shape.now }
    requires key { (table.now.key.opened.value.shape ≡ shape.now) × (table.now.key.plan.log_only ≡ log_only) }
    requires may { (u : UserState) × MayGive table.now.table_id table.now.key u line.now group seat.old player.old }
    ensures ok { OnOk result ((u : UserState) → MayGive table.now.table_id table.now.key u line.now group seat.old player.old
        → HasLine table.now.table_id table.now.key u line.now seat.old seat.new player.new) }
    ensures err { OnErr result ((seat.new ≡ seat.old) × (player.new ≡ player.old)) }
{
    take_line(alloc, player, line.mode, group, shape, log_only)?;
    hand_in(table, seat, line);
    Ok(())
}
