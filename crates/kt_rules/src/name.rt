//! Names as words spell them.
ghost use Rattle.std.specs.Prelude.{◌≡◌, ◌≤◌, ◌<◌, ◌==◌, false, true, length, IfOk, MatchOption};
ghost use Rattle.std.specs.List.{list_any, prefix_len};
ghost use Rattle.kt_text.specs.Functions.{with_stem};
ghost use Rattle.kt_rules.specs.Names.{after_dots, begins_quotable, name_of, unquoted, without_dots};

use crate::line::cutting::is_quotable;
use crate::line::entry::Name;
use kt_text::push_with_stem;
use std::alloc::{AllocError, Global};

/// The name without its leading `./`.
///
/// The slashes after a `./` are removed with it, as often as the name begins with `./`. If nothing remains, the name is
/// `./`. Takes no memory.
#[tactic(auto, unfolding(crate::specs::Names::without_dots))]
pub fn without_dots(name: &[u8]) -> &[u8]
    ensures { result.now ≡ without_dots name.now }
{
    let left = after_dots(name);
    if left.is_empty() && !name.is_empty() {
        b"./"
    } else {
        left
    }
}

// The rest of a name after its leading `./`.
fn after_dots(name: &[u8]) -> &[u8]
    ensures { result.now ≡ after_dots false name.now }
{
    let mut left = name;
    while let Some(rest) = past_dot(left) {
        left = rest;
    }
    left
}

// The rest of a name after one leading `./` and the slashes after it.
fn past_dot(name: &[u8]) -> Option<&[u8]>
    ensures { MatchOption result (after_dots false name.now ≡ name.now)
        (λ rest. (after_dots false name.now ≡ after_dots false rest.now) × (length rest.now < length name.now)) }
{
    match name.strip_prefix(b"./") {
        None => None,
        Some(after) => Some(&after[leading_slashes(after)..]),
    }
}

fn leading_slashes(text: &[u8]) -> usize
    ensures value { result ≡ prefix_len (λ byte. byte == 47) text.now }
    ensures bound { result ≤ length text.now }
{
    text.iter().take_while(|byte| **byte == b'/').count()
}

// The name that a word spells, unquoted and without leading `./`.
#[tactic(auto, unfolding(crate::specs::Names::name_of))]
pub(crate) fn name_of(alloc: Global, word: &[u8]) -> Result<Vec<u8>, AllocError>
    ensures { IfOk result (λ name. name.items ≡ name_of word.now) }
{
    dotless(alloc, unquoted(alloc, word)?)
}

// As `name_of`, but as a `Name`, which holds a short text without an allocation. Few words have a backslash.
#[tactic(auto, using(crate::proofs::lemmas::line::BackslashLemmas::names_itself))]
pub(crate) fn named(alloc: Global, word: &[u8]) -> Result<Name, AllocError>
    ensures { IfOk result (λ name. name ≡ name_of word.now) }
{
    if has_backslash(word) {
        Ok(Name::from(name_of(alloc, word)?))
    } else {
        Name::copied(alloc, without_dots(word))
    }
}

/// A copy of the text without its leading `./`, as in [`without_dots`].
#[tactic(auto, unfolding(crate::specs::Names::without_dots))]
pub fn dotless(alloc: Global, text: Vec<u8>) -> Result<Vec<u8>, AllocError>
    ensures { IfOk result (λ name. name.items ≡ without_dots text.items) }
{
    if past_dot(text.as_slice()).is_none() {
        return Ok(text);
    }
    Vec::from_slice(alloc, without_dots(text.as_slice()))
}

// The word without the backslashes that quote a byte. Few words have a backslash.
#[tactic(auto, using(crate::proofs::lemmas::line::BackslashLemmas::quotes_nothing))]
fn unquoted(alloc: Global, word: &[u8]) -> Result<Vec<u8>, AllocError>
    ensures { IfOk result (λ text. text.items ≡ unquoted word.now) }
{
    if has_backslash(word) {
        without_quotes(alloc, word)
    } else {
        Vec::from_slice(alloc, word)
    }
}

pub(crate) fn has_backslash(text: &[u8]) -> bool
    ensures { result ≡ list_any (λ byte. byte == 92) text.now }
{
    // Names are short: a loop is faster than `any`, which tests bytes in groups.
    for byte in text {
        if *byte == b'\\' {
            return true;
        }
    }
    false
}

// The word without the backslashes that quote a byte, byte by byte.
#[tactic(auto, unfolding(crate::specs::Names::unquoted))]
fn without_quotes(alloc: Global, word: &[u8]) -> Result<Vec<u8>, AllocError>
    ensures { IfOk result (λ text. text.items ≡ unquoted word.now) }
{
    let mut text = Vec::with_capacity(alloc, word.len())?;
    let mut left = word;
    while let [byte, after @ ..] = left {
        if *byte != b'\\' || !begins_quotable(after) {
            text.push(*byte)?;
        }
        left = after;
    }
    Ok(text)
}

// Whether a backslash directly before the text would quote its first byte.
fn begins_quotable(text: &[u8]) -> bool
    ensures { result ≡ begins_quotable text.now }
{
    match text {
        [byte, ..] => is_quotable(*byte),
        [] => false,
    }
}

// A prerequisite of a static pattern rule, with the stem put in.
pub(crate) fn stemmed_name(
    alloc: Global,
    pattern: &[u8],
    stem: &[u8],
) -> Result<Vec<u8>, AllocError>
    ensures { IfOk result (λ name. name.items ≡ without_dots (with_stem pattern.now stem.now)) }
{
    let mut name = Vec::with_capacity(alloc, pattern.len().saturating_add(stem.len()))?;
    push_with_stem(&mut name, pattern, stem)?;
    dotless(alloc, name)
}
