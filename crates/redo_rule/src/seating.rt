// Seats are cut off the first one, and taken in again.
ghost use Rattle.std.specs.Prelude.{[], ◌∷◌, ◌≡◌, None};
ghost use Rattle.redo_rule.specs.Mine.{Mine};
ghost use Rattle.redo_rule.specs.Cutting.{IsFirst, MayCut, MayTakeIn};
ghost use Rattle.redo_rule.specs.Seats.{cut_left, cut_right, spent, taken_in};
ghost use Rattle.redo_rule.specs.declared.law.Numbered.{Numbered};

use crate::law::{Ring, Seat, View};
use crate::plays::Looked;
use atomic_table::{Join, Split};
use redo_disk::Sectors;

/// The first of a seat's actors gets a seat of its own.
pub(crate) struct Cut;

impl<L: Sectors, D: Sectors> Split<View<L, D>> for Cut {
    ghost left = { cut_left };

    ghost right = { cut_right };
}

/// A seat takes in another one.
pub(crate) struct Gather;

impl<L: Sectors, D: Sectors> Join<View<L, D>> for Gather {
    ghost both = { taken_in };

    ghost spent = { spent };
}

/// Cuts a seat off for the first of the actors that have none.
pub fn cut_seat<L: Sectors, D: Sectors>(table: &Ring<L, D>, first: &mut Seat<L, D>) -> Seat<L, D>
    requires first { IsFirst table.now.table_id first.old }
    requires head { MayCut first.old.me.0 }
    ensures first { IsFirst table.now.table_id first.new }
    ensures left { first.new.me.0 ≡ cut_left first.old.me.0 }
    ensures right { (result.table_id ≡ table.now.table_id) × (result.me ≡ (cut_right first.old.me.0, [])) }
{
    table.split_seat::<Cut>(first)
}

/// The same for an actor that plays by its own program: it may go on.
pub fn cut_off<L: Sectors, D: Sectors>(table: &Ring<L, D>, first: &mut Seat<L, D>) -> Seat<L, D>
    requires first { IsFirst table.now.table_id first.old }
    requires head { MayCut first.old.me.0 }
    ensures first { IsFirst table.now.table_id first.new }
    ensures left { first.new.me.0 ≡ cut_left first.old.me.0 }
    ensures right { result.me.0 ≡ cut_right first.old.me.0 }
    ensures mine { (x : Numbered) → result.me.0.seats ≡ x ∷ [] → x.errand ≡ None → Mine table.now.table_id result x.actor }
{
    let mut token = cut_seat(table, first);
    table.load::<Looked>(&mut token, 0);
    token
}

/// Takes in a seat whose actors hold nothing.
pub fn take_in<L: Sectors, D: Sectors>(
    table: &Ring<L, D>,
    first: &mut Seat<L, D>,
    other: Seat<L, D>,
)
    requires first { IsFirst table.now.table_id first.old }
    requires other { MayTakeIn table.now.table_id first.old other }
    ensures first { IsFirst table.now.table_id first.new }
    ensures both { first.new.me.0 ≡ taken_in first.old.me.0 other.me.0 }
{
    table.join_seat::<Gather>(first, other);
}
