// The word of a link buffer's tail: it tells whether an actor holds the tail.
ghost use Rattle.std.specs.Prelude.{◌≡◌, ◌<◌, ◌^◌};
ghost use Rattle.model_core.specs.{is_held, tail_of, tail_word};

#[cfg(test)]
mod tests;

/// The word of a tail.
pub fn tail_word(tail: u64, held: bool) -> u64
    requires { tail < 2 ^ 63 }
    ensures { result ≡ tail_word tail held }
{
    if held { 2 * tail + 1 } else { 2 * tail }
}

/// The tail of a word.
pub fn tail_of(word: u64) -> u64
    ensures { result ≡ tail_of word }
{
    word / 2
}

/// Whether an actor holds the tail of a word.
pub fn is_held(word: u64) -> bool
    ensures { result ≡ is_held word }
{
    word % 2 == 1
}
