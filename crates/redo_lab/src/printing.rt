// Printing what a call leaves to be printed.
ghost use Rattle.std.specs.Prelude.{◌≡◌, ◌≤◌, []};
ghost use Rattle.redo_lab.specs.Cause.{IsFaultPrinted, IsOutcomePrinted, IsTextPrinted};

use crate::outcome::Outcome;
use model_report::Fault;
use redo_io::{Sink, put_all};
use redo_report::{FAULT_ROOM, fault_text, status_of};

/// Prints a fault's line, as far as the sink takes it, and says its status.
pub fn print_fault<O: Sink>(out: &mut O, fault: Fault) -> u8
    ensures printed { IsFaultPrinted [] fault result (O.seen out.old) (O.seen out.new) }
    ensures later { (O.seen out.old).faults ≤ (O.seen out.new).faults }
{
    let mut line = [0; FAULT_ROOM];
    let length = fault_text(fault, &mut line);
    match put_all(out, &line[..length]) {
        Ok(()) => status_of(fault),
        Err(_) => status_of(fault),
    }
}

/// Prints a report, and after it the line of the fault that ended the run.
fn print_report<O: Sink>(out: &mut O, text: &[u8], fault: Fault) -> u8
    ensures { IsFaultPrinted text.now fault result (O.seen out.old) (O.seen out.new) }
{
    match put_all(out, text) {
        Ok(()) => print_fault(out, fault),
        Err(_) => status_of(fault),
    }
}

/// Prints a text, and says the status.
fn print_text<O: Sink>(out: &mut O, text: &[u8]) -> u8
    ensures { IsTextPrinted text.now result (O.seen out.old) (O.seen out.new) }
{
    match put_all(out, text) {
        Ok(()) => 0,
        Err(_) => status_of(Fault::Sink),
    }
}

/// Prints what there is to print, and says the status.
pub(crate) fn print_outcome<O: Sink>(out: &mut O, outcome: &Outcome) -> u8
    ensures { IsOutcomePrinted outcome.now result (O.seen out.old) (O.seen out.new) }
{
    match outcome {
        Outcome::Text(text) => print_text(out, text.as_slice()),
        Outcome::Report(text, fault) => print_report(out, text.as_slice(), *fault),
        Outcome::Fault(fault) => print_fault(out, *fault),
    }
}
