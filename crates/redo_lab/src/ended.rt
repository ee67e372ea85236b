// What a call gives back.
ghost use Rattle.std.specs.Prelude.{◌≡◌};
ghost use Rattle.redo_lab.specs.Cause.{IsOutcomePrinted};

use crate::outcome::Done;
use crate::printing::print_outcome;
use redo_io::Sink;
use redo_memdisk::Fused;

/// What the top call gives back: the status, both devices behind their fuses, which tell what failed, and the archive's device.
#[derive(Drop)]
pub struct Ended<L, D, A> {
    /// The exit status: 0, or that of the fault that ended the call.
    pub status: u8,
    pub log: Fused<L>,
    pub store: Fused<D>,
    pub arch: A,
}

/// Prints what a command comes to, and gives back its devices.
pub(crate) fn end<O: Sink, L, D, A>(out: &mut O, done: Done<L, D>, arch: A) -> Ended<L, D, A>
    ensures printed { IsOutcomePrinted done.outcome result.status (O.seen out.old) (O.seen out.new) }
    ensures log { result.log ≡ done.log }
    ensures store { result.store ≡ done.store }
    ensures arch { result.arch ≡ arch }
{
    let Done {
        outcome,
        log,
        store,
    } = done;
    let status = print_outcome(out, &outcome);
    Ended {
        status,
        log,
        store,
        arch,
    }
}
