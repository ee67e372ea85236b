// What a record does to the user bytes of its page.
ghost use Rattle.std.specs.Prelude.{◌≡◌, ◌+◌, ◌≤◌, ◌-◌, length};
ghost use Rattle.std.specs.Int.{bytes_high_first};
ghost use Rattle.model_base.specs.{overwritten};
ghost use Rattle.model_log.specs.{page_of};
ghost use Rattle.model_store.specs.{user_after_own};
ghost use Rattle.redo_apply.specs.Writing.{WritesWithin};

use model_base::USER_START;
use model_log::Rec;

/// Fills the place with the lowest bytes of the number, the highest of them first.
fn write_number(place: &mut [u8], value: u64)
    ensures { place.new ≡ bytes_high_first (length place.old) value }
{
    let mut left = value;
    for i in 0..place.len() {
        let at = place.len() - 1 - i;
        place[at] = (left % 256) as u8;
        left /= 256;
    }
}

/// Writes a number of `width` bytes at this offset of the page.
fn put_number(user: &mut [u8], offset: u32, width: u32, value: u64)
    requires low { USER_START ≤ offset }
    requires high { offset + width ≤ USER_START + length user.old }
    ensures { user.new ≡ overwritten (offset - USER_START) (bytes_high_first width value) user.old }
{
    let at = (offset - USER_START) as usize;
    write_number(&mut user[at..at + width as usize], value);
}

/// Writes these bytes at this offset of the page.
fn put_bytes(user: &mut [u8], offset: u32, bytes: &[u8])
    requires low { USER_START ≤ offset }
    requires high { offset + length bytes.now ≤ USER_START + length user.old }
    ensures { user.new ≡ overwritten (offset - USER_START) bytes.now user.old }
{
    let at = (offset - USER_START) as usize;
    user[at..at + bytes.len()].copy_from_slice(bytes);
}

/// Changes the user bytes of a record's page as the record says.
pub fn put_record(user: &mut [u8], rec: &Rec)
    requires within { WritesWithin (length user.old) rec.now }
    ensures { user.new ≡ user_after_own rec.now user.old }
{
    match rec {
        Rec::Num {
            width,
            offset,
            value,
            ..
        } => put_number(user, *offset, *width, *value),
        Rec::Text { offset, bytes, .. } => put_bytes(user, *offset, bytes.as_slice()),
        Rec::Init { .. } => user.fill(0),
    }
}

/// The page that a record is on.
pub fn page_of(rec: &Rec) -> u32
    ensures { result ≡ page_of rec.now }
{
    match rec {
        Rec::Num { page, .. } | Rec::Text { page, .. } | Rec::Init { page, .. } => *page,
    }
}
