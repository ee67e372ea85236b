// What a page holds.
use model_base::Bytes;

/// What a page holds.
#[derive(Debug, Drop)]
pub struct Content {
    /// The lsn at which the last group ends that changed it, 0 if none did.
    pub lsn: u64,
    /// Its user bytes.
    pub user: Bytes,
}
