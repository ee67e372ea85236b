// Why a command ends without its text.
use model_archive::RestoreRefusal;
use model_script::Misfit;
use model_store::Refusal;

/// Why a command ends without its text. Each has a status of its own; that of a store that is refused for a device's
/// length, and of an archive that doesn't reach to an lsn, is the status of a quantity that doesn't fit.
#[derive(Clone, Copy, Debug, PartialEq, Eq)]
pub enum Fault {
    /// Want of memory, of the program or of a device.
    Memory,
    /// The words aren't a command.
    Words,
    /// The text isn't a script; the number is that of its first bad line.
    Script(u64),
    /// The source failed.
    Source,
    /// The sink failed.
    Sink,
    /// The log device failed.
    LogDevice,
    /// The data device failed.
    DataDevice,
    /// The archive's device failed.
    ArchiveDevice,
    /// The store is refused.
    Store(Refusal),
    /// Nothing is restored from the archive.
    Archive(RestoreRefusal),
    /// So many turns were taken, and this user hasn't ended.
    Turns(u64, u32),
    /// A quantity doesn't fit.
    Fit(Misfit),
}
