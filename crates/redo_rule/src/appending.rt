// One Op of one actor, on the shared table: the append of the archiver.
ghost use Rattle.std.specs.Prelude.{◌++◌, ◌≡◌};
ghost use Rattle.model_core.specs.{took};
ghost use Rattle.redo_archiver.specs.{append_answer};
ghost use Rattle.redo_drive.specs.{view_of};
ghost use Rattle.redo_rule.specs.Handing.{appended_by};
ghost use Rattle.redo_rule.specs.Mine.{HasPlayed, heard_of, IsSameSeat};
ghost use Rattle.redo_rule.specs.Seating.{Appends, IsSeatOf};

use crate::law::{Ring, Seat};
use crate::plays::{Appended, Lost, Starved};
use redo_disk::{DevError, Sectors};
use redo_drive::Actor;
use redo_follow::Receiver;
use redo_words::{Answer, Step};

/// Plays the append that the archiver asks for, whose archive part, which is beside the table, tells this after its call. It
/// doesn't wait, and takes no memory.
pub fn append<L: Sectors, D: Sectors, R: Receiver>(
    table: &Ring<L, D>,
    seat: &mut Seat<L, D>,
    actor: &mut Actor<R>,
    failed: Option<DevError>,
) -> Step
    requires seat { IsSeatOf table.now.table_id seat.old (view_of actor.old) }
    requires asks { Appends (view_of actor.old) }
    ensures seat { IsSeatOf table.now.table_id seat.new (view_of actor.new) }
    ensures same { IsSameSeat R.stands_for seat.old.me.0 actor.old seat.new.me.0 actor.new }
    ensures played { HasPlayed L.seen D.seen seat.old.me.0 (view_of actor.old) result (view_of actor.new) }
    ensures took { view_of actor.new ≡ took (view_of actor.old) (append_answer failed) }
    ensures appends { (heard_of seat.new.me.0).blocks ≡ (heard_of seat.old.me.0).blocks ++ appended_by (view_of actor.old) }
{
    match failed {
        None => {
            table.load::<Appended>(seat, 0);
            actor.took(Answer::Called(0))
        }
        Some(DevError::Failed) => {
            table.load::<Lost>(seat, 0);
            actor.took(Answer::Failed(4))
        }
        Some(DevError::NoMemory) => {
            table.load::<Starved>(seat, 0);
            actor.took(Answer::Failed(3))
        }
    }
}
