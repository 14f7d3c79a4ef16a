//! Names that `foreach` and `call` bind.
//! Fast: bindings are looked through from the innermost. Spares a look at each outside the one that has the name.
ghost use Rattle.std.specs.Prelude.{◌≡◌, ◌<◌, ◌+◌, ◌*◌, None, min, option_map, true};
ghost use Rattle.std.specs.Char.{digit_value, is_ascii_digit};
ghost use Rattle.std.specs.List.{list_all};
ghost use Rattle.std.specs.Str.Parse.{digits_value};
ghost use Rattle.kt_eval.specs.State.{innermost_value, is_digits, is_padded, numbered_argument, seen};

use crate::state::Frame;
use crate::value::Value;

// The value of a name in the innermost binding that has one.
#[tactic(auto, unfolding(crate::specs::State::innermost_value))]
pub(crate) fn innermost<'f>(frames: &'f [Frame], name: &[u8]) -> Option<&'f [u8]>
    ensures { option_map (λ value. value.now) result ≡ innermost_value name.now None frames.now }
{
    let mut left = frames;
    while let Some((frame, outer)) = left.split_last() {
        if let Some(value) = seen(frame, name) {
            return Some(value);
        }
        left = outer;
    }
    None
}

// The value of a name in a binding.
#[tactic(auto, unfolding(crate::specs::State::seen))]
fn seen<'f>(frame: &'f Frame, name: &[u8]) -> Option<&'f [u8]>
    ensures { option_map (λ value. value.now) result ≡ seen name.now frame.now }
{
    match frame {
        Frame::Loop(bound, word) => {
            if bound.as_slice() == name {
                return Some(word.as_slice());
            }
            None
        }
        Frame::Call(arguments) => {
            if is_digits(name) {
                return Some(argument(arguments.as_slice(), name));
            }
            None
        }
    }
}

fn is_digits(name: &[u8]) -> bool
    ensures { result ≡ is_digits name.now }
{
    !name.is_empty() && all_digits(name)
}

fn all_digits(text: &[u8]) -> bool
    ensures { result ≡ list_all is_ascii_digit text.now }
{
    text.iter().all(|byte| byte.is_ascii_digit())
}

// Whether a number has a leading zero: no argument has such a name.
fn is_padded(name: &[u8]) -> bool
    ensures { result ≡ is_padded name.now }
{
    match name {
        [first, rest @ ..] => *first == b'0' && !rest.is_empty(),
        [] => false,
    }
}

// The argument with this number, or an empty text after the last.
fn argument<'f>(arguments: &'f [Value], name: &[u8]) -> &'f [u8]
    requires { list_all is_ascii_digit name.now ≡ true }
    ensures { result.now ≡ numbered_argument name.now arguments.now }
{
    if is_padded(name) {
        return b"";
    }
    match arguments.get(capped_value(name, arguments.len())) {
        None => b"",
        Some(value) => value.as_slice(),
    }
}

// The value of decimal digits, or the cap if the value is greater.
fn capped_value(digits: &[u8], cap: usize) -> usize
    requires { list_all is_ascii_digit digits.now ≡ true }
    ensures { result ≡ min (digits_value 10 digits.now) cap }
{
    let mut value = 0;
    for digit in digits {
        value = capped_sum(value, digit_value(*digit), cap);
    }
    value
}

// Ten times a value plus a digit, or the cap if that is greater.
fn capped_sum(value: usize, digit: usize, cap: usize) -> usize
    requires { digit < 10 }
    ensures { result ≡ min (value * 10 + digit) cap }
{
    let sum = value as u128 * 10 + digit as u128;
    if sum < cap as u128 { sum as usize } else { cap }
}

fn digit_value(digit: u8) -> usize
    requires { is_ascii_digit digit ≡ true }
    ensures value { result ≡ digit_value digit }
    ensures small { result < 10 }
{
    usize::from(digit - b'0')
}
