// What actors read off an answer.
ghost use Rattle.std.specs.Prelude.{◌≡◌};
ghost use Rattle.model_core.specs.{code_of, heard, old_of};

use model_core::Answer;

/// The number in an answer: the word before the Op, or what a device call told; else 0.
pub fn old_of(answer: Answer) -> u64
    ensures { result ≡ old_of answer }
{
    match answer {
        Answer::Old(n) | Answer::Called(n) => n,
        Answer::Taken(_) | Answer::Held | Answer::Broken | Answer::Failed(_) | Answer::Rested => 0,
    }
}

/// The code of a device call that failed, else 0.
pub fn code_of(answer: Answer) -> u32
    ensures { result ≡ code_of answer }
{
    match answer {
        Answer::Failed(code) => code,
        _ => 0,
    }
}

/// What a user hears: the number in an answer, 1 where a turn word was held.
pub fn heard(answer: Answer) -> u64
    ensures { result ≡ heard answer }
{
    match answer {
        Answer::Held => 1,
        _ => old_of(answer),
    }
}
