// What is on a device in memory.
use model_device::Write;

/// The bytes of the last good sync, and the writes since.
#[derive(Drop)]
pub(crate) struct Medium {
    pub base: Vec<u8>,
    pub pending: Vec<Write>,
}
