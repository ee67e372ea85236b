// Where a record writes.

/// A page.
#[derive(Clone, Copy, Debug, PartialEq, Eq)]
pub struct Place {
    /// The space id.
    pub space: u32,
    /// The page's number.
    pub page: u32,
}

/// A place in a page.
#[derive(Clone, Copy, Debug, PartialEq, Eq)]
pub struct Spot {
    /// The page.
    pub place: Place,
    /// The offset of its first byte in the page.
    pub offset: u32,
}
