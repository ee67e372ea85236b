// The draws of a seed.
ghost use Rattle.std.specs.Prelude.{◌≡◌, ◌<◌, ◌^◌};
ghost use Rattle.model_script.specs.{draw, first_state, next_state};

use std::marker::Model;

/// The modulus of the generator's states.
const MODULUS: u64 = 1 << 31;

/// The draws of a seed, in order. Contracts see the state after the last draw.
#[derive(Debug, Drop)]
pub struct Draws {
    state: u32,
}

impl Model for Draws {
    ghost use Rattle.std.specs.Prelude.{ℕ};

    ghost Value = { ℕ };

    ghost view = { λ draws. draws.state };
}

impl Draws {
    /// The draws of the seed, none of which is taken.
    pub fn new(seed: u64) -> Self
        ensures { result ≡ first_state seed }
    {
        Draws {
            state: (seed % MODULUS) as u32,
        }
    }

    /// Takes the next draw; it is below 32,768.
    pub fn take(&mut self) -> u32
        ensures value { result ≡ draw 1 self.old }
        ensures state { self.new ≡ next_state self.old }
        ensures small { result < 2 ^ 15 }
    {
        let next = u64::from(self.state) * 1_103_515_245 + 12_345;
        self.state = (next % MODULUS) as u32;
        self.state / 65_536
    }
}
