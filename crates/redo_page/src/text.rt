// A page's user bytes, and its fields and checksums, which are put round them.
ghost use Rattle.std.specs.Prelude.{◌≡◌, ◌≤◌, ◌+◌, ◌++◌, ℕ, length, take, drop};
ghost use Rattle.model_base.specs.{frame_length};
ghost use Rattle.model_page.specs.{page_text, user_part};

use model_base::{PAGE_TRAILER, USER_START};
use model_page::NUMBER_START;
use redo_crc::crc32c;

/// The user bytes of a page.
pub fn user_part(page: &[u8]) -> &[u8]
    requires { frame_length ≤ length page.now }
    ensures { result.now ≡ user_part page.now }
{
    &page[USER_START as usize..page.len() - PAGE_TRAILER as usize]
}

/// Puts bytes at an offset and gives the offset after them. What stands before and after them stays.
fn put(page: &mut [u8], at: usize, bytes: &[u8]) -> usize
    requires { at + length bytes.now ≤ length page.old }
    ensures next { result ≡ at + length bytes.now }
    ensures front { take result page.new ≡ take at page.old ++ bytes.now }
    ensures behind { (k : ℕ) → result ≤ k → drop k page.new ≡ drop k page.old }
{
    let end = at + bytes.len();
    page[at..end].copy_from_slice(bytes);
    end
}

/// Makes a page of bytes that have its user bytes in their place: the fields and the checksums go round them. What is
/// left of a page of full size passes the check with these fields; it is never all zero.
pub fn seal(page: &mut [u8], number: u32, space: u32, lsn: u64)
    requires { frame_length ≤ length page.old }
    ensures { page.new ≡ page_text number space lsn (user_part page.old) }
{
    let at = put(page, NUMBER_START as usize, &number.to_be_bytes());
    let at = put(page, at, &[0; 8]);
    let at = put(page, at, &lsn.to_be_bytes());
    let at = put(page, at, &[0; 2]);
    let at = put(page, at, &[0; 8]);
    put(page, at, &space.to_be_bytes());
    let trailer = page.len() - PAGE_TRAILER as usize;
    let checksum = crc32c(&page[NUMBER_START as usize..trailer]).to_be_bytes();
    let low_half = (lsn % (1 << 32)) as u32;
    put(page, 0, &checksum);
    let at = put(page, trailer, &checksum);
    put(page, at, &low_half.to_be_bytes());
}
