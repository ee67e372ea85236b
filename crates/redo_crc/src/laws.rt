// What holds of every checksum. A caller learns it by calling a function that does nothing.
ghost use Rattle.std.specs.Prelude.{◌≡◌, ℕ, List, ◌++◌, bit_xor};
ghost use Rattle.model_base.specs.{all_ones, crc_of, register_after};

/// The checksum of two texts joined is that of a register that takes the one and then the other.
pub fn value_of_joined()
    ensures { (a b : List ℕ)
        → crc_of (a ++ b) ≡ bit_xor (register_after (register_after all_ones a) b) all_ones }
{}
