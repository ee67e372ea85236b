// A user that writes for itself takes the answer to an Op, once the table's step is made.
ghost use Rattle.std.specs.Prelude.{◌≡◌, false, true};
ghost use Rattle.redo_ownrule.specs.OwnMine.{IsAnswering, KeepsOwnSeat, OwnHasPlayed, OwnMine};
ghost use Rattle.redo_rule.specs.declared.law.View.{View as TheView};

use crate::slots::took_at;
use redo_disk::Sectors;
use redo_ownuser::OwnUser;
use redo_rule::{LOG_SLOT, Ring, Seat};
use redo_words::{Answer, Step};

/// The log's work isn't in its hand.
pub(crate) fn answered_alone<L: Sectors, D: Sectors>(
    table: &Ring<L, D>,
    token: &mut Seat<L, D>,
    user: &mut OwnUser,
    answer: Answer,
) -> Step
    requires { (v : TheView L D) × IsAnswering L.seen D.seen table.now.table_id false v token.old user.old answer }
    ensures mine { OwnMine table.now.table_id token.new user.new }
    ensures played { (v : TheView L D) → IsAnswering L.seen D.seen table.now.table_id false v token.old user.old answer
        → OwnHasPlayed L.seen D.seen v user.old result user.new × KeepsOwnSeat v token.new.me.0 }
    ensures seat { token.new.id ≡ token.old.id }
{
    user.took_alone(answer)
}

/// The log's work is in its hand then, and takes the answer too.
pub(crate) fn answered_at<L: Sectors, D: Sectors>(
    table: &Ring<L, D>,
    token: &mut Seat<L, D>,
    user: &mut OwnUser,
    answer: Answer,
) -> Step
    requires { (v : TheView L D) × IsAnswering L.seen D.seen table.now.table_id true v token.old user.old answer }
    ensures mine { OwnMine table.now.table_id token.new user.new }
    ensures played { (v : TheView L D) → IsAnswering L.seen D.seen table.now.table_id true v token.old user.old answer
        → OwnHasPlayed L.seen D.seen v user.old result user.new × KeepsOwnSeat v token.new.me.0 }
    ensures seat { token.new.id ≡ token.old.id }
{
    took_at(token.slot_mut(table, LOG_SLOT), user, answer)
}
