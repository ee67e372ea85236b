// Whether an actor holds anything. One that has a seat is free wherever it checks for a failure.
ghost use Rattle.std.specs.Prelude.{false, true, ◌≡◌};
ghost use Rattle.model_core.specs.{next, HoldsNothing, IsFreeOp, IsFreeToCheck};
ghost use Rattle.redo_drive.specs.{view_of};

use redo_drive::Actor;
use redo_follow::Receiver;
use redo_words::{Op, Word};

/// Whether an actor that asks for this Op surely holds nothing. Where it stores it may hold a turn, and where it loads a link it
/// holds the tail.
fn is_free(op: Op) -> bool
    ensures free { result ≡ true → IsFreeOp op }
    ensures held { IsFreeOp op → result ≡ true }
{
    match op {
        Op::Load(Word::Wlink(_) | Word::Clink(_)) => false,
        Op::Load(_)
        | Op::TakeDevice
        | Op::TakeAdd(_, _)
        | Op::TakeRemove(_)
        | Op::TakeOldest(_)
        | Op::WriteBatch
        | Op::Append(_)
        | Op::Rest => true,
        Op::Store(_, _)
        | Op::Add(_, _)
        | Op::Swap(_, _, _)
        | Op::GiveDevice
        | Op::GiveList(_)
        | Op::WriteTo(_)
        | Op::Sync
        | Op::Checkpoint(_)
        | Op::ReadBlock(_) => false,
    }
}

/// Whether an actor surely holds nothing.
pub fn holds_nothing<R: Receiver>(actor: &Actor<R>) -> bool
    requires { IsFreeToCheck (view_of actor.now) }
    ensures nothing { result ≡ true → HoldsNothing (view_of actor.now) }
    ensures asks { IsFreeOp (next (view_of actor.now)) → result ≡ true }
{
    is_free(actor.next())
}
