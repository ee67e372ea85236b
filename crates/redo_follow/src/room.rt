// The bytes that a follower keeps.
ghost use Rattle.std.specs.Prelude.{◌≡◌, ◌≤◌, ◌+◌, ◌++◌, drop, length, take, vec_capacity};

/// The bytes stand at the end.
pub(crate) fn push_bytes(bytes: &mut Vec<u8>, more: &[u8])
    requires { length bytes.old.items + length more.now ≤ vec_capacity bytes.old }
    ensures items { bytes.new.items ≡ bytes.old.items ++ more.now }
    ensures long { length bytes.new.items ≡ length bytes.old.items + length more.now }
    ensures room { vec_capacity bytes.old ≤ vec_capacity bytes.new }
{
    bytes.extend_from_slice(more).unwrap();
}

/// So many bytes of a block, from a place on, stand at the end.
pub(crate) fn push_part(bytes: &mut Vec<u8>, block: &[u8; 512], place: usize, count: usize)
    requires there { place + count ≤ 512 }
    requires room { length bytes.old.items + count ≤ vec_capacity bytes.old }
    ensures items { bytes.new.items ≡ bytes.old.items ++ take count (drop place block.now) }
    ensures long { length bytes.new.items ≡ length bytes.old.items + count }
    ensures room { vec_capacity bytes.old ≤ vec_capacity bytes.new }
{
    push_bytes(bytes, &block[place..place + count]);
}

/// The first so many bytes go.
pub(crate) fn drop_bytes(bytes: &mut Vec<u8>, count: usize)
    requires { count ≤ length bytes.old.items }
    ensures items { bytes.new.items ≡ drop count bytes.old.items }
    ensures left { length bytes.new.items + count ≡ length bytes.old.items }
    ensures room { vec_capacity bytes.new ≡ vec_capacity bytes.old }
{
    let rest = bytes.len() - count;
    bytes.copy_within(count.., 0);
    bytes.truncate(rest);
}
