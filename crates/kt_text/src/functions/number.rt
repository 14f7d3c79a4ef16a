//! Numbers as arguments.
ghost use Rattle.std.specs.Prelude.{◌≡◌, ◌<◌, ◌≤◌, length, true};
ghost use Rattle.std.specs.Char.{digit_value, is_ascii_digit};
ghost use Rattle.std.specs.List.{list_all};
ghost use Rattle.std.specs.Str.Parse.{digits_value};
ghost use Rattle.kt_text.specs.Functions.{number_of, ordinal_of};

use crate::blanks::{trim_end, trim_start};

// The number that a text is: up to eighteen decimal digits, with blanks round them.
#[tactic(auto, unfolding(crate::specs::Functions::number_of))]
pub(crate) fn number(text: &[u8]) -> Option<usize>
    ensures { result ≡ number_of text.now }
{
    let digits = trim_end(trim_start(text));
    if digits.is_empty() || digits.len() > 18 || !all_digits(digits) {
        return None;
    }
    Some(digits_value(digits))
}

// As `number`, but from 1 on.
pub(crate) fn place(text: &[u8]) -> Option<usize>
    ensures { result ≡ ordinal_of text.now }
{
    match number(text) {
        None | Some(0) => None,
        Some(place) => Some(place),
    }
}

fn all_digits(text: &[u8]) -> bool
    ensures { result ≡ list_all is_ascii_digit text.now }
{
    text.iter().all(|byte| byte.is_ascii_digit())
}

fn digits_value(digits: &[u8]) -> usize
    requires digits { list_all is_ascii_digit digits.now ≡ true }
    requires short { length digits.now ≤ 18 }
    ensures { result ≡ digits_value 10 digits.now }
{
    let mut value = 0;
    for digit in digits {
        value = value * 10 + digit_value(*digit);
    }
    value
}

fn digit_value(digit: u8) -> usize
    requires { is_ascii_digit digit ≡ true }
    ensures value { result ≡ digit_value digit }
    ensures small { result < 10 }
{
    usize::from(digit - b'0')
}
