//! Places in a line.
ghost use Rattle.std.specs.Prelude.{◌≡◌, ◌≤◌, ◌+◌, ◌||◌, drop, false, length, not, take, true, IfSome};
ghost use Rattle.std.specs.List.{prefix_len};
ghost use Rattle.kt_text.specs.Words.{is_blank};
ghost use Rattle.kt_syntax.specs.Kinds.{before_comment, comment_place, past_blanks, past_word};
ghost use Rattle.kt_syntax.specs.Mask.{mask_of};
ghost use Rattle.kt_syntax.specs.inner.Places.{IsBetween, first_symbols};

use crate::mask::Mask;
use crate::own::{own_sign_place, past_own_blanks, past_own_word};
use crate::symbol::Symbol;
use kt_text::has_byte;

// Where the comment of a line begins, or the line's end.
pub(crate) fn comment_place(text: &[u8]) -> usize
    ensures value { result ≡ comment_place text.now }
    ensures bound { result ≤ length text.now }
{
    if has_byte(text, b'#') {
        return sign_place(text);
    }
    text.len()
}

// As `comment_place`, for a line with a number sign, which may be quoted or stand in a reference.
fn sign_place(text: &[u8]) -> usize
    ensures value { result ≡ comment_place text.now }
    ensures bound { result ≤ length text.now }
{
    match own_sign_place(text) {
        Some(place) => place,
        None => masked_sign_place(text),
    }
}

// As `comment_place`, by the symbols of the line.
#[tactic(auto, unfolding(crate::specs::Kinds::before_comment))]
fn masked_sign_place(text: &[u8]) -> usize
    ensures value { result ≡ comment_place text.now }
    ensures bound { result ≤ length text.now }
{
    let mut place = 0;
    let mut odd = false;
    for symbol in Mask::new(text, text.len()) {
        if symbol.is(b'#') && !odd {
            return place;
        }
        odd = symbol.is(b'\\') && !odd;
        place += 1;
    }
    place
}

// The first place where no blank stands, or the end.
#[tactic(auto, using(crate::proofs::lemmas::Masking::no_blanks_left))]
pub(crate) fn past_blanks(text: &[u8], from: usize, end: usize) -> usize
    requires order { from ≤ end }
    requires within { end ≤ length text.now }
    ensures value { result ≡ past_blanks from (first_symbols end text.now) }
    ensures bounds { IsBetween from end result }
{
    // The mask is only walked up to where something is left of the line.
    if from == end {
        return end;
    }
    match past_own_blanks(text, from, end) {
        Some(place) => place,
        None => past_masked_blanks(text, from, end),
    }
}

// As `past_blanks`, by the symbols of the line.
fn past_masked_blanks(text: &[u8], from: usize, end: usize) -> usize
    requires order { from ≤ end }
    requires within { end ≤ length text.now }
    ensures value { result ≡ past_blanks from (first_symbols end text.now) }
    ensures bounds { IsBetween from end result }
{
    let mut place = from;
    for symbol in Mask::between(text, from, end) {
        if !is_blank(&symbol) {
            return place;
        }
        place += 1;
    }
    place
}

// The first place where no blank stands in the whole line, or its end.
#[tactic(auto, using(crate::proofs::lemmas::Masking::whole_mask))]
pub(crate) fn past_line_blanks(text: &[u8], from: usize) -> usize
    requires { from ≤ length text.now }
    ensures value { result ≡ past_blanks from (mask_of text.now) }
    ensures bound { result ≤ length text.now }
{
    past_blanks(text, from, text.len())
}

// The first place where a blank stands, or the end.
pub(crate) fn past_word(text: &[u8], from: usize, end: usize) -> usize
    requires order { from ≤ end }
    requires within { end ≤ length text.now }
    ensures value { result ≡ past_word from (first_symbols end text.now) }
    ensures bounds { IsBetween from end result }
{
    match past_own_word(text, from, end) {
        Some(place) => place,
        None => past_masked_word(text, from, end),
    }
}

// As `past_word`, by the symbols of the line.
fn past_masked_word(text: &[u8], from: usize, end: usize) -> usize
    requires order { from ≤ end }
    requires within { end ≤ length text.now }
    ensures value { result ≡ past_word from (first_symbols end text.now) }
    ensures bounds { IsBetween from end result }
{
    let mut place = from;
    for symbol in Mask::between(text, from, end) {
        if is_blank(&symbol) {
            return place;
        }
        place += 1;
    }
    place
}

#[tactic(auto, unfolding(kt_text::specs::Words::is_blank))]
pub(crate) fn is_blank(symbol: &Symbol) -> bool
    ensures { result ≡ is_blank symbol.now }
{
    symbol.is(b' ') || symbol.is(b'\t')
}
