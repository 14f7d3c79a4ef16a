//! Patterns with a percent sign.
ghost use Rattle.std.specs.Prelude.{◌≡◌, ◌++◌, ◌+◌, ◌-◌, ◌≤◌, ℕ, false, length, true, IfNone, IfSome, MatchOption};
ghost use Rattle.std.specs.Prelude.{OnErr, OnOk, option_map};
ghost use Rattle.std.specs.List.{slice_range};
ghost use Rattle.kt_text.specs.Functions.{with_stem};
ghost use Rattle.kt_text.specs.views.Begun.{HasBegun};
ghost use Rattle.kt_text.specs.Words.{Text};
ghost use Rattle.kt_text.specs.views.Match.{Match};
ghost use Rattle.kt_text.specs.Match.{has_percent, is_between, pattern_back, pattern_front, stem_span};

use crate::byte::has_byte;
use memchr::memchr;
use std::alloc::AllocError;
use std::ops::Range;

/// The place of the stem: of the part of `word` for which the first `%` of `pattern` stands.
///
/// A pattern without `%` matches no word here. Takes no memory. GNU make manual, "Introduction
/// to Pattern Rules".
#[tactic(auto, using(crate::proofs::lemmas::MatchLemmas::match_facts))]
pub fn match_pattern(pattern: &[u8], word: &[u8]) -> Option<Range<usize>>
    ensures place { option_map (λ stem. (stem.start, stem.end)) result ≡ stem_span pattern.now word.now }
    ensures bounds { IfSome result (λ stem. (stem.start ≤ stem.end) × (stem.end ≤ length word.now)) }
    ensures matches { IfSome result (λ stem. Match pattern.now word.now (slice_range word.now stem.start stem.end)) }
    ensures no_match { IfNone result ((stem : Text) → ¬ Match pattern.now word.now stem) }
{
    match cut_pattern(pattern) {
        None => None,
        Some((front, back)) => stem_place(front, back, word),
    }
}

// The place of what stands between the front and the back of a word.
fn stem_place(front: &[u8], back: &[u8], word: &[u8]) -> Option<Range<usize>>
    ensures { MatchOption result (is_between front.now back.now word.now ≡ false)
        (λ stem. (is_between front.now back.now word.now ≡ true) × (stem.start ≡ length front.now)
        × (stem.end ≡ length word.now - length back.now) × (stem.start ≤ stem.end)) }
{
    if is_between(front, back, word) {
        Some(front.len()..word.len() - back.len())
    } else {
        None
    }
}

// What stands before the first percent sign and after it.
#[tactic(auto, using(crate::proofs::lemmas::MatchLemmas::match_facts, crate::proofs::lemmas::MatchLemmas::no_percent_found))]
pub(crate) fn cut_pattern(pattern: &[u8]) -> Option<(&[u8], &[u8])>
    ensures { MatchOption result (has_percent pattern.now ≡ false)
        (λ parts. (has_percent pattern.now ≡ true) × (parts.0.now ≡ pattern_front pattern.now)
        × (parts.1.now ≡ pattern_back pattern.now)) }
{
    let percent = memchr(b'%', pattern)?;
    Some((&pattern[..percent], &pattern[percent + 1..]))
}

/// Whether there is a percent sign, which is a quick look where the text is short. Takes no memory.
#[tactic(auto, unfolding(crate::specs::Match::has_percent, crate::specs::Match::is_percent))]
pub fn has_percent(pattern: &[u8]) -> bool
    ensures { result ≡ has_percent pattern.now }
{
    has_byte(pattern, b'%')
}

/// Appends the pattern with the stem in place of its first percent sign; a pattern without one is
/// appended as it is. Where memory is refused, the text holds a prefix of it more. GNU make
/// manual, "Introduction to Pattern Rules".
pub fn push_with_stem(text: &mut Vec<u8>, pattern: &[u8], stem: &[u8]) -> Result<(), AllocError>
    ensures appended { OnOk result (text.new.items ≡ text.old.items ++ with_stem pattern.now stem.now) }
    ensures refused { OnErr result (HasBegun (with_stem pattern.now stem.now) text.old.items text.new.items) }
{
    match cut_pattern(pattern) {
        Some((front, back)) => {
            text.extend_from_slice(front)?;
            text.extend_from_slice(stem)?;
            text.extend_from_slice(back)
        }
        None => text.extend_from_slice(pattern),
    }
}

// Whether the word begins with one text and ends with the other, without sharing a byte.
#[tactic(auto, unfolding(crate::specs::Match::is_between))]
fn is_between(front: &[u8], back: &[u8], word: &[u8]) -> bool
    ensures value { result ≡ is_between front.now back.now word.now }
    ensures fits { result ≡ true → length front.now + length back.now ≤ length word.now }
{
    front.len() <= word.len()
        && back.len() <= word.len() - front.len()
        && word.starts_with(front)
        && word.ends_with(back)
}
