//! Functions that replace and select.
ghost use Rattle.std.specs.Prelude.{◌≡◌, OnOk, Some};
ghost use Rattle.kt_text.specs.views.Words.{put_word};
ghost use Rattle.kt_text.specs.views.Functions.{Answers};
ghost use Rattle.kt_text.specs.Functions.{patsubst_word, with_stem, subst_of, findstring_of, patsubst_of};
ghost use Rattle.kt_text.specs.Functions.{filter_of, filter_out_of};

use crate::cut::words;
use crate::fault::TextFault;
use crate::functions::patterns::{WordPatterns, occurs, quotes_percent};
use crate::output::{add_parts, add_word, copied};
use crate::pattern::{cut_pattern, has_percent, match_pattern};
use bstr::ByteSlice;
use std::alloc::{AllocError, Global};

/// `$(subst FROM,TO,TEXT)`.
#[tactic(auto, unfolding(crate::specs::Functions::subst_of))]
pub fn subst(alloc: Global, from: &[u8], to: &[u8], text: &[u8]) -> Result<Vec<u8>, TextFault>
    ensures { Answers result (Some (subst_of from.now to.now text.now)) }
{
    if from.is_empty() {
        let mut with_end = Vec::from_slice(alloc, text)?;
        with_end.extend_from_slice(to)?;
        return Ok(with_end);
    }
    Ok(text.replace(alloc, from, to)?)
}

/// `$(findstring FIND,IN)`.
#[tactic(auto, unfolding(crate::specs::Functions::findstring_of))]
pub fn findstring(alloc: Global, find: &[u8], text: &[u8]) -> Result<Vec<u8>, TextFault>
    ensures { Answers result (Some (findstring_of find.now text.now)) }
{
    copied(alloc, if occurs(find, text) { find } else { b"" })
}

/// `$(patsubst PATTERN,REPLACEMENT,TEXT)`.
///
/// `\%` in the pattern or the replacement is no argument that kati takes.
#[tactic(auto, using(crate::proofs::lemmas::ListLemmas::put_words_is), unfolding(crate::specs::Functions::patsubst_of))]
pub fn patsubst(
    alloc: Global,
    pattern: &[u8],
    replacement: &[u8],
    text: &[u8],
) -> Result<Vec<u8>, TextFault>
    ensures { Answers result (patsubst_of pattern.now replacement.now text.now) }
{
    if quotes_percent(pattern) || quotes_percent(replacement) {
        return Err(TextFault::BadArgument);
    }
    let mut replaced = Vec::with_capacity(alloc, text.len())?;
    for word in words(text) {
        add_replaced(&mut replaced, pattern, replacement, word)?;
    }
    Ok(replaced)
}

// Adds the word, or what stands in its place if the pattern matches it.
#[tactic(auto, unfolding(crate::specs::Functions::patsubst_word))]
fn add_replaced(
    list: &mut Vec<u8>,
    pattern: &[u8],
    replacement: &[u8],
    word: &[u8],
) -> Result<(), AllocError>
    ensures { OnOk result (list.new.items
        ≡ put_word list.old.items (patsubst_word pattern.now replacement.now word.now)) }
{
    if !has_percent(pattern) {
        return add_word(list, if pattern == word { replacement } else { word });
    }
    match match_pattern(pattern, word) {
        Some(stem) => add_with_stem(list, replacement, &word[stem]),
        None => add_word(list, word),
    }
}

// Adds the replacement with the stem in place of its first percent sign.
fn add_with_stem(list: &mut Vec<u8>, replacement: &[u8], stem: &[u8]) -> Result<(), AllocError>
    ensures { OnOk result (list.new.items ≡ put_word list.old.items (with_stem replacement.now stem.now)) }
{
    match cut_pattern(replacement) {
        Some((front, back)) => add_parts(list, front, stem, back),
        None => add_word(list, replacement),
    }
}

/// `$(filter PATTERNS,TEXT)`.
///
/// `\%` in the patterns is no argument that kati takes.
#[tactic(auto, using(crate::proofs::lemmas::ListLemmas::put_words_is), unfolding(crate::specs::Functions::filter_of))]
pub fn filter(alloc: Global, patterns: &[u8], text: &[u8]) -> Result<Vec<u8>, TextFault>
    ensures { Answers result (filter_of patterns.now text.now) }
{
    if quotes_percent(patterns) {
        return Err(TextFault::BadArgument);
    }
    let wanted = WordPatterns::new(alloc, patterns)?;
    let mut kept = Vec::new(alloc);
    for word in words(text) {
        if wanted.matches(word) {
            add_word(&mut kept, word)?;
        }
    }
    Ok(kept)
}

/// `$(filter-out PATTERNS,TEXT)`.
///
/// `\%` in the patterns is no argument that kati takes.
#[tactic(auto, using(crate::proofs::lemmas::ListLemmas::put_words_is), unfolding(crate::specs::Functions::filter_out_of))]
pub fn filter_out(alloc: Global, patterns: &[u8], text: &[u8]) -> Result<Vec<u8>, TextFault>
    ensures { Answers result (filter_out_of patterns.now text.now) }
{
    if quotes_percent(patterns) {
        return Err(TextFault::BadArgument);
    }
    let unwanted = WordPatterns::new(alloc, patterns)?;
    let mut left = Vec::new(alloc);
    for word in words(text) {
        if !unwanted.matches(word) {
            add_word(&mut left, word)?;
        }
    }
    Ok(left)
}
