// What a command leaves to be printed.
ghost use Rattle.std.specs.Prelude.{◌≡◌};
ghost use Rattle.redo_memdisk.specs.{fresh, fuse_of, inner_of};
ghost use Rattle.redo_lab.specs.declared.outcome.Outcome.TheVariants as ended;
ghost use Rattle.redo_lab.specs.Call.{AreOf};

use model_report::Fault;
use redo_io::Text;
use redo_lsn::NoMemory;
use redo_memdisk::Fused;

/// What there is to print, and how the call ends by it.
#[derive(Drop)]
pub enum Outcome {
    /// The command was done: its text.
    Text(Text),
    /// A device ended the run: the report of the run, and then the fault's line.
    Report(Text, Fault),
    /// The command wasn't done: the fault's line.
    Fault(Fault),
}

/// What a command gives back: what there is to print, and both devices behind their fuses.
#[derive(Drop)]
pub struct Done<L, D> {
    pub outcome: Outcome,
    pub log: Fused<L>,
    pub store: Fused<D>,
}

impl Outcome {
    ghost use Rattle.redo_lab.specs.Runs.{outcome_of};

    /// A command whose text is this, unless memory ran out over it.
    pub(crate) fn of_text(text: Result<Text, NoMemory>) -> Self
        ensures { result ≡ outcome_of text }
    {
        match text {
            Ok(text) => Outcome::Text(text),
            Err(_) => Outcome::Fault(Fault::Memory),
        }
    }
}

/// What is left of a command that is ended by this fault before a device is called.
pub(crate) fn unasked<L, D>(fault: Fault, log: L, store: D) -> Done<L, D>
    ensures outcome_is { result.outcome ≡ ended.Fault fault }
    ensures log_inner { inner_of result.log ≡ log }
    ensures log_fuse { fuse_of result.log ≡ fresh }
    ensures data_inner { inner_of result.store ≡ store }
    ensures data_fuse { fuse_of result.store ≡ fresh }
    ensures entered { AreOf log store result.log result.store }
{
    Done {
        outcome: Outcome::Fault(fault),
        log: Fused::plain(log),
        store: Fused::plain(store),
    }
}
