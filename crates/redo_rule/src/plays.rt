// What each step of the table tells. These types are for the proofs alone.
ghost use Rattle.std.specs.Prelude.{None, Some};
ghost use Rattle.redo_disk.specs.declared.error.DevError.TheVariants as fault;
ghost use Rattle.redo_rule.specs.Plays.{appended, batched, called, gave, looked, reached, saw, seized, seized_list};

use crate::law::{Slot, View};
use atomic_table::Play;
use redo_disk::Sectors;

/// A step on a word.
pub(crate) struct Saw;

impl<L: Sectors, D: Sectors> Play<Slot<L, D>, View<L, D>> for Saw {
    ghost then = { λ _. saw L.seen D.seen };
}

/// The taking of the log part.
pub(crate) struct Seized;

impl<L: Sectors, D: Sectors> Play<Slot<L, D>, View<L, D>> for Seized {
    ghost then = { λ _. seized L.seen D.seen };
}

/// The taking of a flush list.
pub(crate) struct SeizedList;

impl<L: Sectors, D: Sectors> Play<Slot<L, D>, View<L, D>> for SeizedList {
    ghost then = { λ _. seized_list L.seen D.seen };
}

/// The giving of whatever was taken.
pub(crate) struct Gave;

impl<L: Sectors, D: Sectors> Play<Slot<L, D>, View<L, D>> for Gave {
    ghost then = { λ _. gave L.seen D.seen };
}

/// The end of a call of the log part.
pub(crate) struct Called;

impl<L: Sectors, D: Sectors> Play<Slot<L, D>, View<L, D>> for Called {
    ghost then = { λ _. called L.seen D.seen };
}

/// The end of an append to the archive that went well.
pub(crate) struct Appended;

impl<L: Sectors, D: Sectors> Play<Slot<L, D>, View<L, D>> for Appended {
    ghost then = { λ _. appended L.seen D.seen None };
}

/// The end of one that its device failed.
pub(crate) struct Lost;

impl<L: Sectors, D: Sectors> Play<Slot<L, D>, View<L, D>> for Lost {
    ghost then = { λ _. appended L.seen D.seen (Some fault.Failed) };
}

/// The end of one for which its device had no memory.
pub(crate) struct Starved;

impl<L: Sectors, D: Sectors> Play<Slot<L, D>, View<L, D>> for Starved {
    ghost then = { λ _. appended L.seen D.seen (Some fault.NoMemory) };
}

/// A look at what the seat's actor may do.
pub struct Looked;

impl<L: Sectors, D: Sectors> Play<Slot<L, D>, View<L, D>> for Looked {
    ghost then = { λ _. looked L.seen D.seen };
}

/// The taking of the data part out of its slot.
pub(crate) struct Reached;

impl<L: Sectors, D: Sectors> Play<Slot<L, D>, View<L, D>> for Reached {
    ghost then = { λ _. reached };
}

/// The end of a call of the data part, by which it is back in its slot.
pub(crate) struct Batched;

impl<L: Sectors, D: Sectors> Play<Slot<L, D>, View<L, D>> for Batched {
    ghost then = { λ _. batched L.seen D.seen };
}
