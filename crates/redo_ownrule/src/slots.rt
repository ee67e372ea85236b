// The log's work, where it lies beside the log part in a slot.
ghost use Rattle.std.specs.Prelude.{Some, ◌≡◌};
ghost use Rattle.model_own.specs.{LogWork, own_next};
ghost use Rattle.redo_ownrule.specs.OwnSlots.{GoesOnIn, IsWritten, LiesIn, MayTakeIn, MayWriteIn, MayWriteOf, TookIn, WroteIn};

use redo_disk::{DevError, Sectors};
use redo_drive::call_write;
use redo_ownuser::OwnUser;
use redo_rule::{Desk, Slot};
use redo_words::{Answer, Op, Step};

/// The Op that a user asks for that has the log's work in hand.
pub(crate) fn next_at<L: Sectors, D: Sectors>(slot: &Slot<L, D>, user: &OwnUser) -> Op
    requires { GoesOnIn slot.now user.now }
    ensures { (work : LogWork) → LiesIn slot.now work → result ≡ own_next user.now work }
{
    match slot {
        Slot::Log(desk) => match &desk.work {
            Some(work) => user.next(work),
            None => unreachable!(),
        },
        Slot::Pages(_) | Slot::Data(_) => unreachable!(),
    }
}

/// A user takes an answer, and the log's work with it.
pub(crate) fn took_at<L: Sectors, D: Sectors>(
    slot: &mut Slot<L, D>,
    user: &mut OwnUser,
    answer: Answer,
) -> Step
    requires { MayTakeIn slot.old user.old answer }
    ensures { TookIn slot.old slot.new user.old user.new answer result }
{
    match slot {
        Slot::Log(desk) => match &mut desk.work {
            Some(work) => user.took(work, answer),
            None => unreachable!(),
        },
        Slot::Pages(_) | Slot::Data(_) => unreachable!(),
    }
}

/// Writes the log up to a mark, with what the log's work lends.
fn write_desk<L: Sectors>(desk: &mut Desk<L>, user: &OwnUser, mark: u64) -> Result<(), DevError>
    requires { MayWriteOf desk.old user.now mark }
    ensures { (work : LogWork) → desk.old.work ≡ Some work → IsWritten L.seen L.gives desk.old desk.new user.now mark work result }
{
    let Desk {
        part,
        block: _,
        work,
    } = desk;
    match &*work {
        Some(work) => call_write(part, mark, user.lent(work)),
        None => unreachable!(),
    }
}

/// The same where that lies in a slot.
pub(crate) fn write_at<L: Sectors, D: Sectors>(
    slot: &mut Slot<L, D>,
    user: &OwnUser,
    mark: u64,
) -> Result<(), DevError>
    requires { MayWriteIn slot.old user.now mark }
    ensures { WroteIn L.seen L.gives slot.old slot.new user.now mark result }
{
    match slot {
        Slot::Log(desk) => write_desk(desk, user, mark),
        Slot::Pages(_) | Slot::Data(_) => unreachable!(),
    }
}
