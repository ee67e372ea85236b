// One Op of one actor, on the shared table: the words.
ghost use Rattle.std.specs.Prelude.{◌≡◌};
ghost use Rattle.model_core.specs.declared.ops.Op.TheVariants as op;
ghost use Rattle.redo_drive.specs.{view_of};
ghost use Rattle.redo_rule.specs.Ops.{HasPlayedOp, MayPlay};

use crate::law::{Ring, Seat};
use crate::plays::Saw;
use redo_disk::Sectors;
use redo_drive::Actor;
use redo_follow::Receiver;
use redo_words::{Answer, Layout, Step, Word, number_of};

/// `Load word`.
pub(crate) fn load<L: Sectors, D: Sectors, R: Receiver>(
    table: &Ring<L, D>,
    token: &mut Seat<L, D>,
    actor: &mut Actor<R>,
    layout: Layout,
    word: Word,
) -> Step
    requires may { MayPlay table.now.table_id token.old (view_of actor.old) (op.Load word) }
    requires layout { token.old.me.0.layout ≡ layout }
    ensures { HasPlayedOp L.seen D.seen R.stands_for table.now.table_id token.old actor.old result token.new actor.new }
{
    let n = table.load::<Saw>(token, number_of(layout, word) as usize);
    actor.took(Answer::Old(n))
}

/// `Store word number`.
pub(crate) fn store<L: Sectors, D: Sectors, R: Receiver>(
    table: &Ring<L, D>,
    token: &mut Seat<L, D>,
    actor: &mut Actor<R>,
    layout: Layout,
    word: Word,
    number: u64,
) -> Step
    requires may { MayPlay table.now.table_id token.old (view_of actor.old) (op.Store word number) }
    requires layout { token.old.me.0.layout ≡ layout }
    ensures { HasPlayedOp L.seen D.seen R.stands_for table.now.table_id token.old actor.old result token.new actor.new }
{
    let n = table.swap::<Saw>(token, number_of(layout, word) as usize, number);
    actor.took(Answer::Old(n))
}

/// `Add word number`.
pub(crate) fn add<L: Sectors, D: Sectors, R: Receiver>(
    table: &Ring<L, D>,
    token: &mut Seat<L, D>,
    actor: &mut Actor<R>,
    layout: Layout,
    word: Word,
    number: u64,
) -> Step
    requires may { MayPlay table.now.table_id token.old (view_of actor.old) (op.Add word number) }
    requires layout { token.old.me.0.layout ≡ layout }
    ensures { HasPlayedOp L.seen D.seen R.stands_for table.now.table_id token.old actor.old result token.new actor.new }
{
    let n = table.fetch_add::<Saw>(token, number_of(layout, word) as usize, number);
    actor.took(Answer::Old(n))
}

/// `Swap word old new`.
pub(crate) fn swap<L: Sectors, D: Sectors, R: Receiver>(
    table: &Ring<L, D>,
    token: &mut Seat<L, D>,
    actor: &mut Actor<R>,
    layout: Layout,
    word: Word,
    old: u64,
    new: u64,
) -> Step
    requires may { MayPlay table.now.table_id token.old (view_of actor.old) (op.Swap word old new) }
    requires layout { token.old.me.0.layout ≡ layout }
    ensures { HasPlayedOp L.seen D.seen R.stands_for table.now.table_id token.old actor.old result token.new actor.new }
{
    let n = table.compare_exchange::<Saw>(token, number_of(layout, word) as usize, old, new);
    actor.took(Answer::Old(n))
}
