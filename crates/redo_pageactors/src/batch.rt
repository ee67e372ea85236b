// The bytes of a batch, kept in room that is made once.
ghost use Rattle.std.specs.Prelude.{◌≡◌, ◌≤◌, ◌+◌, ◌-◌, ◌++◌, length, drop, take, vec_capacity};

use model_base::{PAGE_TRAILER, USER_START};

/// Bytes of a page that aren't user bytes.
pub(crate) const RIM: usize = (USER_START + PAGE_TRAILER) as usize;
/// Where its user bytes begin.
const USERS_FROM: usize = USER_START as usize;

/// Appends bytes for which there is room.
fn append(bytes: &mut Vec<u8>, more: &[u8])
    requires { length bytes.old.items + length more.now ≤ vec_capacity bytes.old }
    ensures items { bytes.new.items ≡ bytes.old.items ++ more.now }
    ensures long { length bytes.new.items ≡ length bytes.old.items + length more.now }
    ensures room { vec_capacity bytes.old ≤ vec_capacity bytes.new }
{
    bytes.extend_from_slice(more).unwrap();
}

/// The first so many bytes go.
pub(crate) fn drop_bytes(bytes: &mut Vec<u8>, count: usize)
    requires { count ≤ length bytes.old.items }
    ensures items { bytes.new.items ≡ drop count bytes.old.items }
    ensures left { length bytes.new.items + count ≡ length bytes.old.items }
    ensures room { vec_capacity bytes.new ≡ vec_capacity bytes.old }
{
    let rest = bytes.len() - count;
    bytes.copy_within(count.., 0);
    bytes.truncate(rest);
}

/// The first page goes.
pub(crate) fn drop_page(batch: &mut Vec<(u32, u64)>)
    requires { 1 ≤ length batch.old.items }
    ensures items { batch.new.items ≡ drop 1 batch.old.items }
    ensures left { length batch.new.items + 1 ≡ length batch.old.items }
    ensures room { vec_capacity batch.new ≡ vec_capacity batch.old }
{
    let rest = batch.len() - 1;
    batch.copy_within(1.., 0);
    batch.truncate(rest);
}

/// Appends the user bytes of a page to those of others, and the bytes before and after them to those.
pub(crate) fn split_page(page: &[u8], users: &mut Vec<u8>, rims: &mut Vec<u8>)
    requires page { RIM ≤ length page.now }
    requires users_room { length users.old.items + (length page.now - RIM) ≤ vec_capacity users.old }
    requires rims_room { length rims.old.items + RIM ≤ vec_capacity rims.old }
    ensures users { users.new.items ≡ users.old.items ++ take (length page.now - RIM) (drop USERS_FROM page.now) }
    ensures rims { rims.new.items ≡ (rims.old.items ++ take USERS_FROM page.now) ++ drop (length page.now - RIM) (drop USERS_FROM page.now) }
    ensures users_long { length users.new.items ≡ length users.old.items + (length page.now - RIM) }
    ensures rims_long { length rims.new.items ≡ length rims.old.items + RIM }
    ensures users_kept { vec_capacity users.old ≤ vec_capacity users.new }
    ensures rims_kept { vec_capacity rims.old ≤ vec_capacity rims.new }
{
    let (front, rest) = page.split_at(USERS_FROM);
    let (user, back) = rest.split_at(page.len() - RIM);
    append(users, user);
    append(rims, front);
    append(rims, back);
}
