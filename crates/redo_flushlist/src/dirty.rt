// A page of a flush list.

/// How far out of order pages may enter a flush list, in bytes of lsn: the slots of the recent-closed link buffer. It
/// is InnoDB's `log_buffer_flush_order_lag`.
pub const FLUSH_ORDER_LAG: u64 = 16_384;

/// A page with a change that isn't on the data device.
#[derive(Clone, Copy, Debug, PartialEq, Eq)]
pub struct Dirty {
    /// The page's number.
    pub page: u32,
    /// The lsn at which the oldest group starts whose change isn't on the data device.
    pub oldest: u64,
}
