// One redo record.
use model_base::Bytes;

/// One change of one page. `width` is 1, 2, 4 or 8 bytes; `offset` counts from the page's first byte.
#[derive(Debug, Drop)]
pub enum Rec {
    /// Writes a number of `width` bytes, the highest byte first.
    Num {
        width: u32,
        space: u32,
        page: u32,
        offset: u32,
        value: u64,
    },
    /// Writes a string of bytes.
    Text {
        space: u32,
        page: u32,
        offset: u32,
        bytes: Bytes,
    },
    /// Sets all user bytes of the page to 0.
    Init {
        space: u32,
        page: u32,
    },
}
