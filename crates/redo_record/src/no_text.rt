// Why no text was found in front of some bytes.

/// Why no text was found in front of some bytes, by code that takes no memory.
#[derive(Clone, Copy, Debug, PartialEq, Eq)]
pub(crate) enum NoText {
    /// The bytes are the front of a text, and more have to come.
    Short,
    /// No text begins so.
    Bad,
}
