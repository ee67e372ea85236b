// Writing a number's spelling into bytes.
ghost use Rattle.std.specs.Prelude.{◌≡◌, ◌+◌, ◌≤◌, length};
ghost use Rattle.model_base.specs.{overwritten, spelling32, spelling64};

use crate::HALF;
use crate::table::row_of;

/// Writes the spelling of a number of 32 bits from the offset on, and gives its length, at most five bytes.
pub fn put32(out: &mut [u8], at: usize, n: u32) -> usize
    requires { at + 5 ≤ length out.old }
    ensures written { out.new ≡ overwritten at (spelling32 n) out.old }
    ensures length { result ≡ length (spelling32 n) }
{
    let row = row_of(n);
    let bytes = (row.text + u64::from(n - row.first)).to_be_bytes();
    out[at..at + row.length].copy_from_slice(&bytes[8 - row.length..]);
    row.length
}

/// Writes the spelling of a number of 64 bits from the offset on, and gives its length, at most nine bytes.
pub fn put64(out: &mut [u8], at: usize, n: u64) -> usize
    requires { at + 9 ≤ length out.old }
    ensures written { out.new ≡ overwritten at (spelling64 n) out.old }
    ensures length { result ≡ length (spelling64 n) }
{
    let high = put32(out, at, (n / HALF) as u32);
    let low = (n % HALF) as u32;
    out[at + high..at + high + 4].copy_from_slice(&low.to_be_bytes());
    high + 4
}
