// A checksum in the making.
ghost use Rattle.std.specs.Prelude.{◌≡◌, ℕ, List, [], ◌++◌, bit_xor};
ghost use Rattle.model_base.specs.{all_ones, crc_of, register_after};
ghost use Rattle.redo_crc.specs.Parts.{HasTaken};

use crate::step::register_after;
use std::marker::Model;

/// The checksum of a text that comes in parts. Contracts see it as its register.
#[derive(Debug, Drop)]
pub struct Crc {
    register: u32,
}

impl Model for Crc {
    ghost use Rattle.std.specs.Prelude.{ℕ};

    ghost Value = { ℕ };

    ghost view = { λ crc. crc.register };
}

impl Crc {
    /// Before the first byte.
    #[tactic(auto, unfolding(model_base::specs::Crc32c::register_after))]
    pub fn new() -> Self
        ensures register { result ≡ all_ones }
        ensures taken { HasTaken result [] }
    {
        Crc { register: u32::MAX }
    }

    /// Takes the next bytes of the text.
    #[tactic(auto, using(crate::proofs::TableLemmas::taken_joined))]
    pub fn update(&mut self, bytes: &[u8])
        ensures register { self.new ≡ register_after self.old bytes.now }
        ensures taken { (text : List ℕ) → HasTaken self.old text → HasTaken self.new (text ++ bytes.now) }
    {
        self.register = register_after(self.register, bytes);
    }

    /// The checksum of the bytes so far.
    #[tactic(auto, unfolding(model_base::specs::Crc32c::crc_of))]
    pub fn value(&self) -> u32
        ensures register { result ≡ bit_xor self.now all_ones }
        ensures taken { (text : List ℕ) → HasTaken self.now text → result ≡ crc_of text }
    {
        self.register ^ u32::MAX
    }
}

/// The CRC-32C of the bytes.
#[tactic(auto, unfolding(model_base::specs::Crc32c::crc_of))]
pub fn crc32c(bytes: &[u8]) -> u32
    ensures { result ≡ crc_of bytes.now }
{
    register_after(u32::MAX, bytes) ^ u32::MAX
}
