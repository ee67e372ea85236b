// A store after a run.
use model_report::{History, Marks};
use redo_disk::{DevError, Sectors};
use redo_logdev::LogPart;
use redo_store::DataPart;

/// What a run leaves: its history, its marks and the two devices.
#[derive(Drop)]
pub struct Closed<L: Sectors, D: Sectors> {
    /// The groups that were reserved, in lsn order.
    pub history: History,
    /// How far the run has come.
    pub marks: Marks,
    /// The log device.
    pub log: LogPart<L>,
    /// The data device.
    pub store: DataPart<D>,
    /// Why the run stopped: 0 where no device failed, 1 for the log device, 2 for the data device, 3 where a device had no
    /// memory, 4 for the archive's device.
    pub code: u32,
    /// What the append to the archive answered that failed, if the run was archived and one did.
    pub lost: Option<DevError>,
}
