// Texts that are cut at a byte.
ghost use Rattle.std.specs.Prelude.{◌≡◌, ◌==◌, ◌∷◌, position};
ghost use Rattle.std.specs.List.{slice_split};
ghost use Rattle.redo_script.specs.Cut.{IsCut, parts_behind};

fn place_of(text: &[u8], separator: u8) -> Option<usize>
    ensures { result ≡ position (λ byte. byte == separator) text.now }
{
    text.iter().position(|byte| *byte == separator)
}

// The text up to the first such byte, and what stands after that, if there is one.
#[tactic(auto, using(crate::proofs::Cutting::cuts))]
pub fn cut(text: &[u8], separator: u8) -> (&[u8], Option<&[u8]>)
    ensures cut { IsCut separator text.now result.0.now result.1 }
    ensures parts { slice_split (λ byte. byte == separator) text.now
        ≡ result.0.now ∷ parts_behind separator result.1 }
{
    match place_of(text, separator) {
        None => (text, None),
        Some(at) => (&text[..at], Some(&text[at + 1..])),
    }
}
