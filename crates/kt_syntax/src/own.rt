//! Bytes that are their own symbols, as nearly all bytes are where a walk over a line begins: they are taken in runs.
//! Fast: runs of bytes that are their own symbols are passed without a mask. Spares a symbol for each byte.
ghost use Rattle.std.specs.Prelude.{◌≡◌, ◌≤◌, ◌==◌, drop, false, length, slice_index, take, IfSome};
ghost use Rattle.std.specs.List.{position_or_len, prefix_len};
ghost use Rattle.kt_text.specs.Words.{is_blank};
ghost use Rattle.kt_syntax.specs.Comments.{uncommented_of};
ghost use Rattle.kt_syntax.specs.Kinds.{comment_place, name_end, past_blanks, past_word};
ghost use Rattle.kt_syntax.specs.Mask.{mask_of};
ghost use Rattle.kt_syntax.specs.inner.OwnRuns.{ends_own_name, ends_own_word, is_mark};
ghost use Rattle.kt_syntax.specs.inner.Places.{IsBetween, first_symbols};

use crate::mask::own_length;
use kt_text::is_blank;
use memchr::memchr;

// The first place from a place on where no blank stands, or the end; `None` where that takes a look at symbols.
#[tactic(auto, using(crate::proofs::lemmas::OwnRuns::blanks_passed))]
pub(crate) fn past_own_blanks(text: &[u8], from: usize, end: usize) -> Option<usize>
    requires order { from ≤ end }
    requires within { end ≤ length text.now }
    ensures quick_value { IfSome result (λ place. place ≡ past_blanks from (first_symbols end text.now)) }
    ensures quick_bounds { IfSome result (IsBetween from end) }
{
    if has_mark(text, from) {
        return None;
    }
    let line = &text[from..end];
    let run = blank_run(line);
    if byte_at(line, run) == b'\\' {
        return None;
    }
    Some(from + run)
}

// The first place from a place on where a blank stands, or the end; `None` where that takes a look at symbols.
#[tactic(auto, using(crate::proofs::lemmas::OwnRuns::word_passed))]
pub(crate) fn past_own_word(text: &[u8], from: usize, end: usize) -> Option<usize>
    requires order { from ≤ end }
    requires within { end ≤ length text.now }
    ensures quick_value { IfSome result (λ place. place ≡ past_word from (first_symbols end text.now)) }
    ensures quick_bounds { IfSome result (IsBetween from end) }
{
    if has_mark(text, from) {
        return None;
    }
    let line = &text[from..end];
    let run = word_run(line);
    if is_mark(byte_at(line, run)) {
        return None;
    }
    Some(from + run)
}

// A place in the name of an assignment up to which nothing can end it.
#[tactic(auto, using(crate::proofs::lemmas::OwnRuns::name_passed, crate::proofs::lemmas::OwnRuns::name_passed))]
pub(crate) fn past_own_name(text: &[u8], begin: usize, end: usize) -> usize
    requires order { begin ≤ end }
    requires within { end ≤ length text.now }
    ensures value { name_end result (drop result (first_symbols end text.now)) (drop result text.now)
        ≡ name_end begin (drop begin (first_symbols end text.now)) (drop begin text.now) }
    ensures bounds { IsBetween begin end result }
{
    if has_mark(text, begin) {
        return begin;
    }
    begin + name_run(&text[begin..end])
}

// The first place up to an end where a byte stands outside references, or that end; `None` where that takes a look at
// symbols.
pub(crate) fn own_place(text: &[u8], byte: u8, end: usize) -> Option<usize>
    requires unmarked { is_mark byte ≡ false }
    requires within { end ≤ length text.now }
    ensures quick_value { IfSome result (λ place. place
        ≡ position_or_len (λ symbol. symbol == byte) (first_symbols end text.now)) }
    ensures quick_bound { IfSome result (λ place. place ≤ end) }
{
    let place = first_place(byte, &text[..end]);
    if has_mark(text, place) {
        return None;
    }
    Some(place)
}

// Where the comment of a line begins, or the line's end; `None` where that takes a look at symbols.
#[tactic(auto, using(crate::proofs::lemmas::OwnPlaces::sign_found, crate::proofs::lemmas::OwnPlaces::sign_kept))]
pub(crate) fn own_sign_place(text: &[u8]) -> Option<usize>
    ensures quick_value { IfSome result (λ place. place ≡ comment_place text.now) }
    ensures quick_kept { IfSome result (λ place. take place text.now ≡ uncommented_of text.now) }
    ensures quick_bound { IfSome result (λ place. place ≤ length text.now) }
{
    let place = first_place(b'#', text);
    if has_mark(text, place) {
        return None;
    }
    Some(place)
}

// The first place where a byte stands, or the text's end.
#[tactic(auto, using(kt_text::proofs::lemmas::PlaceLemmas::first_byte_place))]
fn first_place(byte: u8, text: &[u8]) -> usize
    ensures value { result ≡ position_or_len (λ other. other == byte) text.now }
    ensures bound { result ≤ length text.now }
{
    memchr(byte, text).unwrap_or(text.len())
}

// Whether a dollar or a backslash stands before a place of a line.
fn has_mark(text: &[u8], place: usize) -> bool
    requires { place ≤ length text.now }
    ensures quick { result ≡ false → position_or_len is_mark (take place text.now) ≡ place }
{
    own_length(text, place) < place
}

fn blank_run(text: &[u8]) -> usize
    ensures value { result ≡ prefix_len is_blank text.now }
    ensures bound { result ≤ length text.now }
{
    text.iter().take_while(|byte| is_blank(**byte)).count()
}

fn word_run(text: &[u8]) -> usize
    ensures value { result ≡ position_or_len ends_own_word text.now }
    ensures bound { result ≤ length text.now }
{
    text.iter()
        .take_while(|byte| !ends_own_word(**byte))
        .count()
}

fn name_run(text: &[u8]) -> usize
    ensures value { result ≡ position_or_len ends_own_name text.now }
    ensures bound { result ≤ length text.now }
{
    text.iter()
        .take_while(|byte| !ends_own_name(**byte))
        .count()
}

fn is_mark(byte: u8) -> bool
    ensures { result ≡ is_mark byte }
{
    matches!(byte, b'$' | b'\\')
}

#[tactic(auto, unfolding(kt_text::specs::Words::is_blank))]
fn ends_own_word(byte: u8) -> bool
    ensures { result ≡ ends_own_word byte }
{
    matches!(byte, b' ' | b'\t' | b'$' | b'\\')
}

#[tactic(auto, unfolding(kt_text::specs::Words::is_blank))]
fn ends_own_name(byte: u8) -> bool
    ensures { result ≡ ends_own_name byte }
{
    matches!(
        byte,
        b' ' | b'\t' | b'$' | b'\\' | b'=' | b':' | b'?' | b'+' | b'!'
    )
}

// The byte at a place, or 0 after the end.
fn byte_at(text: &[u8], place: usize) -> u8
    ensures { result ≡ slice_index text.now place }
{
    text.get(place).copied().unwrap_or(0)
}
