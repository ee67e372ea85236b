// The lines of a text with their numbers.
ghost use Rattle.std.specs.Prelude.{◌≡◌, ◌≤◌, ◌<◌, ◌==◌, [], ◌∷◌, length, position, None};
ghost use Rattle.std.specs.Iterator.{YieldsFirstBy, item_count};
ghost use Rattle.model_base.specs.{fed_lines, without_return};
ghost use Rattle.redo_io.specs.Lines.{numbered_from};

use std::marker::Model;

/// The lines of a text, in order, each with its number from 1. A line feed ends a line, and the last line may lack it.
/// One carriage return at a line's end isn't part of it. It takes no memory.
#[derive(Debug, Drop)]
pub struct Lines<'a> {
    rest: &'a [u8],
    number: u64,
}

impl<'a> Model for Lines<'a> {
    ghost use Rattle.std.specs.Prelude.{◌+◌, ◌^◌, ◌<◌, List, ℕ, length};
    ghost use Rattle.redo_io.specs.Lines.{numbered_from};

    ghost Value = { List (ℕ × List ℕ) };

    ghost view = { λ lines. numbered_from lines.number lines.rest.now };

    // each line that is left takes a byte at least
    ghost invariant = { λ lines. lines.number + length lines.rest.now < 2 ^ 64 };
}

impl<'a> Lines<'a> {
    /// All lines of a text.
    #[tactic(auto, using(crate::proofs::FirstLine::few_lines))]
    pub fn new(text: &'a [u8]) -> Self
        ensures lines { result ≡ numbered_from 1 text.now }
        ensures few { length result ≤ length text.now }
    {
        Lines {
            rest: text,
            number: 1,
        }
    }
}

impl<'a> Iterator for Lines<'a> {
    type Item = (u64, &'a [u8]);

    ghost next_gives = { YieldsFirstBy (λ item. (item.0, item.1.now)) (λ lines. lines) };

    ghost remaining = { item_count (λ lines. lines) };

    fn next(&mut self) -> Option<(u64, &'a [u8])> {
        if self.rest.is_empty() {
            return None;
        }
        let (line, rest) = first_line(self.rest);
        let number = self.number;
        self.rest = rest;
        self.number += 1;
        Some((number, strip_return(line)))
    }
}

/// Where the first line feed stands.
fn line_end(text: &[u8]) -> Option<usize>
    ensures { result ≡ position (λ byte. byte == 10) text.now }
{
    text.iter().position(|byte| *byte == b'\n')
}

/// The first line without its line feed, and the text after both.
fn first_line(text: &[u8]) -> (&[u8], &[u8])
    requires { 0 < length text.now }
    ensures first { fed_lines text.now ≡ result.0.now ∷ fed_lines result.1.now }
    ensures shorter { length result.1.now < length text.now }
{
    match line_end(text) {
        Some(end) => (&text[..end], &text[end + 1..]),
        None => (text, &[]),
    }
}

/// The line without one carriage return at its end.
#[tactic(auto, using(crate::proofs::FirstLine::return_dropped, crate::proofs::FirstLine::nothing_dropped))]
fn strip_return(line: &[u8]) -> &[u8]
    ensures { result.now ≡ without_return line.now }
{
    match line.split_last() {
        Some((last, front)) if *last == b'\r' => front,
        _ => line,
    }
}
