// The two ways to count the bytes of the log, and where the block of an lsn stands.
ghost use Rattle.std.specs.Prelude.{◌≡◌, ◌≤◌, ◌<◌, ◌^◌, ◌↔◌, IsTrue};
ghost use Rattle.model_log.specs.{block_number, block_of, IsDataLsn, IsLayout, lsn_of, place_in, sn_of, start_after};

use crate::round_of;
use model_base::{BLOCK_SIZE, START_LSN};
use model_log::{BLOCK_DATA, BLOCK_DATA_END, BLOCK_HEADER, Layout};

/// The lsn of the byte that so many bytes of groups precede.
pub fn lsn_of(sn: u64) -> u64
    requires { sn < 2 ^ 61 }
    ensures { result ≡ lsn_of sn }
{
    sn / BLOCK_DATA * BLOCK_SIZE + sn % BLOCK_DATA + BLOCK_HEADER
}

/// How many bytes of groups precede the lsn.
pub fn sn_of(lsn: u64) -> u64
    ensures { result ≡ sn_of lsn }
{
    let offset = lsn % BLOCK_SIZE;
    lsn / BLOCK_SIZE * BLOCK_DATA
        + if offset < BLOCK_HEADER {
            0
        } else if BLOCK_DATA_END < offset {
            BLOCK_DATA
        } else {
            offset - BLOCK_HEADER
        }
}

/// The lsn at which the block of an lsn begins.
pub fn block_of(lsn: u64) -> u64
    ensures { result ≡ block_of lsn }
{
    lsn / BLOCK_SIZE * BLOCK_SIZE
}

/// Where a run starts after a log that ends there: at the end itself, where it stands at the first data byte of a
/// block, else at that of the next block.
pub fn start_after(end: u64) -> u64
    requires { end < 2 ^ 61 }
    ensures { result ≡ start_after end }
{
    if end % BLOCK_SIZE == BLOCK_HEADER {
        end
    } else {
        block_of(end) + BLOCK_SIZE + BLOCK_HEADER
    }
}

/// The number of the block of an lsn, without the flush bit: it goes round, from 1 to 2^30.
pub fn number_of(lsn: u64) -> u32
    ensures { result ≡ block_number lsn }
{
    (lsn / BLOCK_SIZE % (1 << 30) + 1) as u32
}

/// Where on a device of this layout the block of an lsn stands, in bytes.
pub fn offset_of(lsn: u64, layout: &Layout) -> u64
    requires started { START_LSN ≤ lsn }
    requires small { lsn < 2 ^ 61 }
    requires is_layout { IsLayout layout.now }
    ensures { result ≡ place_in layout.now lsn }
{
    BLOCK_SIZE * layout.first + (block_of(lsn) - START_LSN) % round_of(layout)
}

/// Whether the lsn is the place of a byte of a group.
pub fn is_data_lsn(lsn: u64) -> bool
    ensures { IsTrue result ↔ IsDataLsn lsn }
{
    let offset = lsn % BLOCK_SIZE;
    BLOCK_HEADER <= offset && offset < BLOCK_DATA_END
}
