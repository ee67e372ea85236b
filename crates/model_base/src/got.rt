// What comes of reading off the front of some bytes.

/// What comes of reading a value off the front of some bytes.
#[derive(Clone, Copy, Debug, PartialEq, Eq, Drop)]
pub enum Got<T> {
    /// A value, and how many bytes it takes.
    Value(T, usize),
    /// The bytes are the front of a value, and more have to come.
    Short,
    /// No value begins with these bytes.
    Bad,
}
