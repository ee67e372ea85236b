// The faults of a call, by those of the layers below.
ghost use Rattle.std.specs.Prelude.{◌≡◌};
ghost use Rattle.redo_lab.specs.Restoring.{unrestored};
ghost use Rattle.redo_lab.specs.Runs.{fault_of};

use model_archive::RestoreRefusal;
use model_report::Fault;
use model_store::Refusal;
use redo_archive::RestoreFault;
use redo_recover::RecFault;

/// The fault of a call whose store isn't formatted, read or opened.
pub(crate) fn fault_of(fault: RecFault) -> Fault
    ensures { result ≡ fault_of fault }
{
    match fault {
        RecFault::SmallLog(n) => Fault::Store(Refusal::SmallLog(n)),
        RecFault::NotFormatted => Fault::Store(Refusal::NotFormatted),
        RecFault::BadFormat(n) => Fault::Store(Refusal::BadFormat(n)),
        RecFault::SmallData(n) => Fault::Store(Refusal::SmallData(n)),
        RecFault::NoCheckpoint => Fault::Store(Refusal::NoCheckpoint),
        RecFault::BadRecord(lsn) => Fault::Store(Refusal::BadRecord(lsn)),
        RecFault::PageLost(page) => Fault::Store(Refusal::PageLost(page)),
        RecFault::PageAhead(page, lsn) => Fault::Store(Refusal::PageAhead(page, lsn)),
        RecFault::LogDev => Fault::LogDevice,
        RecFault::DataDev => Fault::DataDevice,
        RecFault::NoMemory => Fault::Memory,
    }
}

/// The fault of a call that restores nothing.
pub(crate) fn unrestored(fault: RestoreFault) -> Fault
    ensures { result ≡ unrestored fault }
{
    match fault {
        RestoreFault::Missing => Fault::Archive(RestoreRefusal::Missing),
        RestoreFault::To(lsn) => Fault::Archive(RestoreRefusal::To(lsn)),
        RestoreFault::Page(page) => Fault::Archive(RestoreRefusal::Page(page)),
        RestoreFault::Block(lsn) => Fault::Archive(RestoreRefusal::Block(lsn)),
        RestoreFault::Record(lsn) => Fault::Archive(RestoreRefusal::Record(lsn)),
        RestoreFault::Dev => Fault::ArchiveDevice,
        RestoreFault::NoMemory => Fault::Memory,
    }
}
