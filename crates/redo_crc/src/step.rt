// What the bytes of a text do to a register: eight at once, and the last few one by one.
ghost use Rattle.std.specs.Prelude.{◌≡◌, ◌<◌};
ghost use Rattle.model_base.specs.{after_byte, after_eight_bits, register_after};
ghost use Rattle.redo_crc.specs.Tables.{after_zeros};

use crate::tables::{STRIDE, TABLES};

/// The register after these bytes.
pub(crate) fn register_after(register: u32, bytes: &[u8]) -> u32
    ensures { result ≡ register_after register bytes.now }
{
    let mut taken = register;
    let mut rest = bytes;
    while let Some((eight, others)) = rest.split_first_chunk::<STRIDE>() {
        taken = after_eight(taken, eight);
        rest = others;
    }
    after_each(taken, rest)
}

// The register after these bytes, taken one by one.
#[tactic(auto, unfolding(model_base::specs::Crc32c::register_after))]
fn after_each(register: u32, bytes: &[u8]) -> u32
    ensures { result ≡ register_after register bytes.now }
{
    let mut register = register;
    for byte in bytes {
        register = after_byte(register, *byte);
    }
    register
}

// The register after one more byte.
fn after_byte(register: u32, byte: u8) -> u32
    ensures { result ≡ after_byte register byte }
{
    let low = (register ^ u32::from(byte)) & 0xFF;
    TABLES[0][low as usize] ^ (register >> 8)
}

// The register after eight more bytes. Each of them, and of the register's own four, does its part apart from the
// others.
fn after_eight(register: u32, bytes: &[u8; STRIDE]) -> u32
    ensures { result ≡ register_after register bytes.now }
{
    let [r0, r1, r2, r3] = register.to_le_bytes();
    let [b0, b1, b2, b3, b4, b5, b6, b7] = *bytes;
    followed(7, r0 ^ b0)
        ^ followed(6, r1 ^ b1)
        ^ followed(5, r2 ^ b2)
        ^ followed(4, r3 ^ b3)
        ^ followed(3, b4)
        ^ followed(2, b5)
        ^ followed(1, b6)
        ^ followed(0, b7)
}

// What a byte does, in an empty register, where so many zero bytes follow it.
fn followed(zeros: usize, byte: u8) -> u32
    requires { zeros < STRIDE }
    ensures { result ≡ after_zeros zeros (after_eight_bits byte) }
{
    TABLES[zeros][usize::from(byte)]
}
