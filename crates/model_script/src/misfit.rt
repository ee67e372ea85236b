// What of a script or a store doesn't fit.

/// The greatest number of a user; users are numbered from 1.
pub const MAX_USERS: u32 = 16;
/// What a log that no checkpoint frees keeps free after its last group, in bytes of the log.
pub const MARGIN: u64 = 278_528;

/// A counted quantity that may not fit.
#[derive(Clone, Copy, Debug, PartialEq, Eq)]
pub enum Quantity {
    /// A script has more bytes than this.
    Script,
    /// The log device is shorter than this many bytes.
    Log,
    /// The data device is shorter than this many bytes.
    Store,
    /// The number of a user.
    User,
    /// The number of a page.
    Page,
    /// The offset of a write.
    Offset,
    /// The length of a group's text, in bytes.
    Group,
    /// The lsn at which a script's groups would end.
    Lsn,
    /// That lsn, where it leaves no room in a log that no checkpoint frees.
    Total,
    /// The archive's device is shorter than this many bytes.
    Archive,
    /// The lsn for which nothing is archived.
    To,
}

/// A quantity that doesn't fit, with its number.
#[derive(Clone, Copy, Debug, PartialEq, Eq)]
pub struct Misfit {
    pub quantity: Quantity,
    pub number: u64,
}
