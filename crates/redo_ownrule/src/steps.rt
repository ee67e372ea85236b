// One Op of a user that writes for itself, on the shared table: the words.
ghost use Rattle.std.specs.Prelude.{◌≡◌};
ghost use Rattle.model_own.specs.{has_work};
ghost use Rattle.redo_rule.specs.declared.law.View.{View as TheView};
ghost use Rattle.model_core.specs.declared.ops.Op.TheVariants as op;
ghost use Rattle.redo_ownrule.specs.OwnMine.{IsAnswering, KeepsOwnSeat, OwnHasPlayed, OwnMine};
ghost use Rattle.redo_ownrule.specs.OwnOp.{OwnHasPlayedOp, OwnMayPlay};

use crate::answering::{answered_alone, answered_at};
use crate::plays::OwnSaw;
use redo_disk::Sectors;
use redo_ownuser::OwnUser;
use redo_rule::{Ring, Seat};
use redo_words::{Answer, Layout, Step, Word, number_of};

/// The number found is the answer.
fn saw<L: Sectors, D: Sectors>(
    table: &Ring<L, D>,
    token: &mut Seat<L, D>,
    user: &mut OwnUser,
    n: u64,
) -> Step
    requires { (v : TheView L D) × IsAnswering L.seen D.seen table.now.table_id (has_work user.old.errand) v token.old user.old (Answer.Old n) }
    ensures mine { OwnMine table.now.table_id token.new user.new }
    ensures played { (v : TheView L D) → IsAnswering L.seen D.seen table.now.table_id (has_work user.old.errand) v token.old user.old (Answer.Old n)
        → OwnHasPlayed L.seen D.seen v user.old result user.new × KeepsOwnSeat v token.new.me.0 }
    ensures seat { token.new.id ≡ token.old.id }
{
    if user.has_work() {
        answered_at(table, token, user, Answer::Old(n))
    } else {
        answered_alone(table, token, user, Answer::Old(n))
    }
}

/// `Load word`.
pub(crate) fn load<L: Sectors, D: Sectors>(
    table: &Ring<L, D>,
    token: &mut Seat<L, D>,
    user: &mut OwnUser,
    layout: Layout,
    word: Word,
) -> Step
    requires may { OwnMayPlay table.now.table_id token.old user.old (op.Load word) }
    requires layout { token.old.me.0.layout ≡ layout }
    ensures { OwnHasPlayedOp L.seen D.seen table.now.table_id token.old user.old result token.new user.new }
{
    let n = table.load::<OwnSaw>(token, number_of(layout, word) as usize);
    saw(table, token, user, n)
}

/// `Store word number`.
pub(crate) fn store<L: Sectors, D: Sectors>(
    table: &Ring<L, D>,
    token: &mut Seat<L, D>,
    user: &mut OwnUser,
    layout: Layout,
    word: Word,
    number: u64,
) -> Step
    requires may { OwnMayPlay table.now.table_id token.old user.old (op.Store word number) }
    requires layout { token.old.me.0.layout ≡ layout }
    ensures { OwnHasPlayedOp L.seen D.seen table.now.table_id token.old user.old result token.new user.new }
{
    let n = table.swap::<OwnSaw>(token, number_of(layout, word) as usize, number);
    saw(table, token, user, n)
}

/// `Add word number`.
pub(crate) fn add<L: Sectors, D: Sectors>(
    table: &Ring<L, D>,
    token: &mut Seat<L, D>,
    user: &mut OwnUser,
    layout: Layout,
    word: Word,
    number: u64,
) -> Step
    requires may { OwnMayPlay table.now.table_id token.old user.old (op.Add word number) }
    requires layout { token.old.me.0.layout ≡ layout }
    ensures { OwnHasPlayedOp L.seen D.seen table.now.table_id token.old user.old result token.new user.new }
{
    let n = table.fetch_add::<OwnSaw>(token, number_of(layout, word) as usize, number);
    saw(table, token, user, n)
}

/// `Swap word old new`.
pub(crate) fn swap<L: Sectors, D: Sectors>(
    table: &Ring<L, D>,
    token: &mut Seat<L, D>,
    user: &mut OwnUser,
    layout: Layout,
    word: Word,
    old: u64,
    new: u64,
) -> Step
    requires may { OwnMayPlay table.now.table_id token.old user.old (op.Swap word old new) }
    requires layout { token.old.me.0.layout ≡ layout }
    ensures { OwnHasPlayedOp L.seen D.seen table.now.table_id token.old user.old result token.new user.new }
{
    let n = table.compare_exchange::<OwnSaw>(token, number_of(layout, word) as usize, old, new);
    saw(table, token, user, n)
}
