// A store that was opened.
use crate::part::DataPart;
use model_base::Shape;
use redo_apply::Pages;
use redo_disk::Sectors;
use redo_logdev::LogPart;

/// A store on which a run can start.
#[derive(Drop)]
pub struct Opened<L: Sectors, D: Sectors> {
    /// The sizes of the store.
    pub shape: Shape,
    /// The lsn at which the run starts.
    pub start: u64,
    /// The pages, as they were read.
    pub pages: Pages,
    /// The log device.
    pub log: LogPart<L>,
    /// The data device.
    pub store: DataPart<D>,
}
