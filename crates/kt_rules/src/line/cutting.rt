//! Cuts texts at colons and separators that aren't quoted.
ghost use Rattle.std.specs.Prelude.{◌≡◌, ◌≤◌, false, length, option_map, take};
ghost use Rattle.kt_rules.specs.views.Cuts.{ends_in_backslash};
ghost use Rattle.kt_rules.specs.Names.{cut_place, is_cut, is_quotable};
ghost use Rattle.kt_rules.specs.RuleLine.{colon_cut};

use kt_text::{has_byte, is_separator};
use memchr::memchr;

/// What a text is cut at, unless a backslash is directly before it.
#[derive(Clone, Copy, Debug, PartialEq, Eq)]
pub enum Cut {
    /// At colons.
    Colon,
    /// At spaces, tabs and newlines. A backslash before a tab or newline quotes nothing.
    Separator,
}

// The text before the first unquoted colon, and the text after it. The first colon is mostly unquoted.
#[tactic(auto, using(std::proofs::lemmas::List::take_rest, crate::proofs::lemmas::line::BackslashLemmas::first_colon))]
pub(crate) fn colon_cut(text: &[u8]) -> Option<(&[u8], &[u8])>
    ensures { option_map (λ cut. (cut.0.now, cut.1.now)) result ≡ colon_cut text.now }
{
    match memchr(b':', text) {
        None => None,
        Some(place) if is_marked(text, place) => unquoted_colon_cut(text),
        Some(place) => Some((&text[..place], &text[place + 1..])),
    }
}

// As `colon_cut`, for the text after a separator, which mostly has no colon.
#[tactic(auto, using(crate::proofs::lemmas::line::BackslashLemmas::never_colon))]
pub(crate) fn later_cut(text: &[u8]) -> Option<(&[u8], &[u8])>
    ensures { option_map (λ cut. (cut.0.now, cut.1.now)) result ≡ colon_cut text.now }
{
    if has_byte(text, b':') {
        colon_cut(text)
    } else {
        None
    }
}

// Whether a backslash stands directly before a place.
#[tactic(auto, using(crate::proofs::lemmas::line::BackslashLemmas::marked_at))]
fn is_marked(text: &[u8], place: usize) -> bool
    requires { place ≤ length text.now }
    ensures { result ≡ ends_in_backslash false (take place text.now) }
{
    place > 0 && text[place - 1] == b'\\'
}

// As `colon_cut`, byte by byte.
#[tactic(auto, unfolding(crate::specs::RuleLine::colon_cut))]
fn unquoted_colon_cut(text: &[u8]) -> Option<(&[u8], &[u8])>
    ensures { option_map (λ cut. (cut.0.now, cut.1.now)) result ≡ colon_cut text.now }
{
    let place = cut_place(text, Cut::Colon);
    if place == text.len() {
        return None;
    }
    Some((&text[..place], &text[place + 1..]))
}

// The number of bytes before the first cut, or of the whole text if there is none.
#[tactic(auto, unfolding(crate::specs::Names::cut_place))]
pub(crate) fn cut_place(text: &[u8], cut: Cut) -> usize
    ensures value { result ≡ cut_place cut false text.now }
    ensures bound { result ≤ length text.now }
{
    let mut place = 0;
    let mut after_backslash = false;
    for byte in text {
        if is_cut(cut, *byte) && !(after_backslash && is_quotable(*byte)) {
            return place;
        }
        after_backslash = *byte == b'\\';
        place += 1;
    }
    place
}

fn is_cut(cut: Cut, byte: u8) -> bool
    ensures { result ≡ is_cut cut byte }
{
    match cut {
        Cut::Colon => byte == b':',
        Cut::Separator => is_separator(byte),
    }
}

// Whether a backslash directly before the byte quotes it.
pub(crate) fn is_quotable(byte: u8) -> bool
    ensures { result ≡ is_quotable byte }
{
    matches!(byte, b' ' | b':')
}
