// One write to a device.
use model_base::Bytes;

/// One write of whole sectors. `at` is the offset of its first byte on the device.
#[derive(Debug, Drop)]
pub struct Write {
    pub at: u64,
    pub bytes: Bytes,
}
