//! A sector of 512 bytes that is filled from its front and ends with its checksum, and the fields that it has.
ghost use Rattle.std.specs.Prelude.{◌≡◌, ◌≤◌, ◌+◌, ◌++◌, length, take, drop};
ghost use Rattle.model_base.specs.{field, padded_to};
ghost use Rattle.model_log.specs.{fits_checksum, with_checksum};

use crate::crc32c;
use byteorder::{BigEndian, ByteOrder};
use model_base::BLOCK_SIZE;
use model_log::BLOCK_DATA_END;

/// The offset at which the checksum stands.
const CHECKSUM: usize = BLOCK_DATA_END as usize;

/// Puts bytes at an offset and gives the offset after them. What stands before and after them stays.
pub fn put(sector: &mut [u8; 512], at: usize, bytes: &[u8]) -> usize
    requires { at + length bytes.now ≤ BLOCK_SIZE }
    ensures next { result ≡ at + length bytes.now }
    ensures front { take result sector.new ≡ take at sector.old ++ bytes.now }
    ensures behind { drop result sector.new ≡ drop result sector.old }
{
    let end = at + bytes.len();
    sector[at..end].copy_from_slice(bytes);
    end
}

/// The number of 2 bytes at an offset, the highest byte first.
pub fn field_u16(sector: &[u8; 512], at: usize) -> u16
    requires { at + 2 ≤ BLOCK_SIZE }
    ensures { result ≡ field 2 at sector.now }
{
    BigEndian::read_u16(&sector[at..])
}

/// The number of 4 bytes at an offset, the highest byte first.
pub fn field_u32(sector: &[u8; 512], at: usize) -> u32
    requires { at + 4 ≤ BLOCK_SIZE }
    ensures { result ≡ field 4 at sector.now }
{
    BigEndian::read_u32(&sector[at..])
}

/// The number of 8 bytes at an offset, the highest byte first.
pub fn field_u64(sector: &[u8; 512], at: usize) -> u64
    requires { at + 8 ≤ BLOCK_SIZE }
    ensures { result ≡ field 8 at sector.now }
{
    BigEndian::read_u64(&sector[at..])
}

/// Fills the sector up with zeros from the offset on, and puts its checksum at its end.
pub fn seal(sector: &mut [u8; 512], at: usize)
    requires { at ≤ BLOCK_DATA_END }
    ensures { sector.new ≡ with_checksum (padded_to BLOCK_DATA_END (take at sector.old)) }
{
    sector[at..CHECKSUM].fill(0);
    let checksum = crc32c(&sector[..CHECKSUM]);
    put(sector, CHECKSUM, &checksum.to_be_bytes());
}

/// Whether the checksum at the end fits.
pub fn is_sealed(sector: &[u8; 512]) -> bool
    ensures { result ≡ fits_checksum sector.now }
{
    let (body, checksum) = sector.split_at(CHECKSUM);
    BigEndian::read_u32(checksum) == crc32c(body)
}
