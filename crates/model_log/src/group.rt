// The records of one mini-transaction.
use crate::Rec;
use std::marker::Model;

/// The records of one mini-transaction, in order; it has one or more. Contracts see it as the list of them.
#[derive(Debug, Drop)]
pub struct Group(pub Vec<Rec>);

impl Model for Group {
    ghost use Rattle.std.specs.Prelude.{List};
    ghost use Rattle.model_log.specs.declared.rec.Rec.{Rec};

    ghost Value = { List Rec };

    ghost view = { λ group. group.0.items };
}

/// A group with the lsn at which it starts and the one at which it ends.
#[derive(Debug, Drop)]
pub struct Whole {
    pub group: Group,
    pub start: u64,
    pub end: u64,
}
