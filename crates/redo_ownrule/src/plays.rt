// What each step of the table tells the seat of a user that writes for itself. These types are for the proofs alone.
ghost use Rattle.redo_ownrule.specs.OwnPlays.{own_called, own_gave, own_looked, own_saw, own_seized, own_seized_list};

use atomic_table::Play;
use redo_disk::Sectors;
use redo_rule::{Slot, View};

/// A step on a word.
pub(crate) struct OwnSaw;

impl<L: Sectors, D: Sectors> Play<Slot<L, D>, View<L, D>> for OwnSaw {
    ghost then = { λ _. own_saw L.seen D.seen };
}

/// The taking of the log part, with the log's work.
pub(crate) struct OwnSeized;

impl<L: Sectors, D: Sectors> Play<Slot<L, D>, View<L, D>> for OwnSeized {
    ghost then = { λ _. own_seized L.seen D.seen };
}

/// The taking of a flush list.
pub(crate) struct OwnSeizedList;

impl<L: Sectors, D: Sectors> Play<Slot<L, D>, View<L, D>> for OwnSeizedList {
    ghost then = { λ _. own_seized_list L.seen D.seen };
}

/// The giving of whatever was taken.
pub(crate) struct OwnGave;

impl<L: Sectors, D: Sectors> Play<Slot<L, D>, View<L, D>> for OwnGave {
    ghost then = { λ _. own_gave L.seen D.seen };
}

/// The end of a call of the log part.
pub(crate) struct OwnCalled;

impl<L: Sectors, D: Sectors> Play<Slot<L, D>, View<L, D>> for OwnCalled {
    ghost then = { λ _. own_called L.seen D.seen };
}

/// A look at what the seat's user may do.
pub(crate) struct OwnLooked;

impl<L: Sectors, D: Sectors> Play<Slot<L, D>, View<L, D>> for OwnLooked {
    ghost then = { λ _. own_looked L.seen D.seen };
}
