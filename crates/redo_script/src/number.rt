// Decimal numbers.
ghost use Rattle.std.specs.Prelude.{◌≡◌, ◌+◌, ◌-◌, ◌*◌, ◌<◌, ◌≤◌, ◌^◌, IfSome};
ghost use Rattle.std.specs.List.{AllPass, list_all};
ghost use Rattle.std.specs.Char.{is_ascii_digit};
ghost use Rattle.std.specs.Option.{SomeIff};
ghost use Rattle.model_script.specs.{digits_value, is_number, number_below};

fn all_digits(text: &[u8]) -> bool
    ensures { result ≡ list_all is_ascii_digit text.now }
{
    text.iter().all(|byte| byte.is_ascii_digit())
}

// Whether the text is a number: 1 to 20 decimal digits and no sign.
fn is_number(text: &[u8]) -> bool
    ensures { result ≡ is_number text.now }
{
    if text.is_empty() || text.len() > 20 {
        return false;
    }
    all_digits(text)
}

// Ten times the value and the digit, if that fits 64 bits.
fn with_digit(value: u64, digit: u8) -> Option<u64>
    requires { 48 ≤ digit }
    ensures { SomeIff result (10 * value + (digit - 48) < 2 ^ 64) (10 * value + (digit - 48)) }
{
    value.checked_mul(10)?.checked_add(u64::from(digit - b'0'))
}

// The value of decimal digits, if it fits 64 bits.
#[tactic(auto, using(crate::proofs::NumberLemmas::values))]
fn value_of(digits: &[u8]) -> Option<u64>
    requires { AllPass is_ascii_digit digits.now }
    ensures { SomeIff result (digits_value digits.now < 2 ^ 64) (digits_value digits.now) }
{
    let mut value: u64 = 0;
    for digit in digits {
        let Some(next) = with_digit(value, *digit) else {
            return None;
        };
        value = next;
    }
    Some(value)
}

/// The number that the text is, if it is at most `max`.
#[tactic(auto, using(crate::proofs::NumberLemmas::numbers), unfolding(model_script::specs::Grammar::number_below))]
pub fn number_up_to(text: &[u8], max: u64) -> Option<u64>
    ensures value { result ≡ number_below (max + 1) text.now }
    ensures small { IfSome result (λ number. number ≤ max) }
{
    if !is_number(text) {
        return None;
    }
    let value = value_of(text)?;
    (value <= max).then_some(value)
}

/// The number that the text is, if it is at most `max`, at 32 bits.
pub fn small_number_up_to(text: &[u8], max: u32) -> Option<u32>
    ensures { result ≡ number_below (max + 1) text.now }
{
    let number = number_up_to(text, u64::from(max))?;
    Some(number as u32)
}
