//! Functions on a list of words.
ghost use Rattle.std.specs.Prelude.{◌≡◌, ◌∷◌, ◌++◌, ◌-◌, List, length, Some};
ghost use Rattle.std.specs.List.{slice_range};
ghost use Rattle.kt_text.specs.Words.{Text, list_text, words_of};
ghost use Rattle.kt_text.specs.views.Functions.{Answers};
ghost use Rattle.kt_text.specs.Functions.{joined_pairs, word_at, strip_of, word_of, wordlist_of};
ghost use Rattle.kt_text.specs.Functions.{words_count_of, firstword_of, lastword_of, join_of};

use crate::cut::words as words_of_text;
use crate::fault::TextFault;
use crate::functions::number::{number, place};
use crate::output::{add_parts, add_word, copied};
use crate::word_runs::Words;
use std::alloc::Global;

/// `$(strip TEXT)`.
#[tactic(auto, using(crate::proofs::lemmas::ListLemmas::put_words_is), unfolding(crate::specs::Functions::strip_of))]
pub fn strip(alloc: Global, text: &[u8]) -> Result<Vec<u8>, TextFault>
    ensures { Answers result (Some (strip_of text.now)) }
{
    let mut stripped = Vec::new(alloc);
    for word in words_of_text(text) {
        add_word(&mut stripped, word)?;
    }
    Ok(stripped)
}

/// `$(word AT,TEXT)`; places are counted from 1.
#[tactic(auto, unfolding(crate::specs::Functions::word_of))]
pub fn word(alloc: Global, at: &[u8], text: &[u8]) -> Result<Vec<u8>, TextFault>
    ensures { Answers result (word_of at.now text.now) }
{
    match place(at) {
        None => Err(TextFault::BadArgument),
        Some(place) => copied(alloc, word_at(text, place - 1)),
    }
}

/// `$(wordlist FIRST,LAST,TEXT)`; both places are counted from 1.
#[tactic(auto, unfolding(crate::specs::Functions::wordlist_of))]
pub fn wordlist(alloc: Global, first: &[u8], last: &[u8], text: &[u8]) -> Result<Vec<u8>, TextFault>
    ensures { Answers result (wordlist_of first.now last.now text.now) }
{
    let (Some(start), Some(end)) = (place(first), number(last)) else {
        return Err(TextFault::BadArgument);
    };
    words_between(alloc, text, start - 1, end)
}

// The words from a place on up to another, counted from 0.
#[tactic(auto, using(crate::proofs::lemmas::ListLemmas::put_words_is, crate::proofs::lemmas::ListLemmas::range_steps))]
fn words_between(alloc: Global, text: &[u8], start: usize, end: usize) -> Result<Vec<u8>, TextFault>
    ensures { Answers result (Some (list_text (slice_range (words_of text.now) start end))) }
{
    let mut selected = Vec::new(alloc);
    let mut skipped = start;
    let mut left = end;
    for word in words_of_text(text) {
        if left == 0 {
            break;
        }
        left -= 1;
        if skipped > 0 {
            skipped -= 1;
        } else {
            add_word(&mut selected, word)?;
        }
    }
    Ok(selected)
}

/// `$(words TEXT)`: how many, in decimal.
#[tactic(auto, unfolding(crate::specs::Functions::words_count_of))]
pub fn words(alloc: Global, text: &[u8]) -> Result<Vec<u8>, TextFault>
    ensures { Answers result (Some (words_count_of text.now)) }
{
    let digits = format!(in alloc; "{}", count_words(text))?;
    Ok(digits.into_bytes())
}

fn count_words(text: &[u8]) -> usize
    ensures { result ≡ length (words_of text.now) }
{
    words_of_text(text).count()
}

/// `$(firstword LIST)`.
#[tactic(auto, unfolding(crate::specs::Functions::firstword_of))]
pub fn firstword(alloc: Global, text: &[u8]) -> Result<Vec<u8>, TextFault>
    ensures { Answers result (Some (firstword_of text.now)) }
{
    copied(alloc, word_at(text, 0))
}

/// `$(lastword LIST)`.
#[tactic(auto, unfolding(crate::specs::Functions::lastword_of))]
pub fn lastword(alloc: Global, text: &[u8]) -> Result<Vec<u8>, TextFault>
    ensures { Answers result (Some (lastword_of text.now)) }
{
    copied(alloc, last_word(text))
}

// The word at a place, from 0, or an empty text.
fn word_at(text: &[u8], i: usize) -> &[u8]
    ensures { result.now ≡ word_at (words_of text.now) i }
{
    words_of_text(text).nth(i).unwrap_or(b"")
}

#[tactic(auto, using(crate::proofs::lemmas::ListLemmas::last_word_is))]
fn last_word(text: &[u8]) -> &[u8]
    ensures { result.now ≡ word_at (words_of text.now) (length (words_of text.now) - 1) }
{
    let mut last: &[u8] = b"";
    for word in words_of_text(text) {
        last = word;
    }
    last
}

/// `$(join LIST,LIST)`.
#[tactic(auto, using(crate::proofs::lemmas::ListLemmas::join_steps), unfolding(crate::specs::Functions::join_of))]
pub fn join(alloc: Global, first: &[u8], second: &[u8]) -> Result<Vec<u8>, TextFault>
    ensures { Answers result (Some (join_of first.now second.now)) }
{
    let mut joined = Vec::new(alloc);
    let mut seconds = words_of_text(second);
    for front in words_of_text(first) {
        add_parts(&mut joined, front, next_or_empty(&mut seconds), b"")?;
    }
    for word in seconds {
        add_word(&mut joined, word)?;
    }
    Ok(joined)
}

// The next word, or an empty text.
#[tactic(auto, using(crate::proofs::lemmas::ListLemmas::pair_steps))]
fn next_or_empty<'a>(words: &mut Words<'a>) -> &'a [u8]
    ensures { (first : Text) (firsts : List Text) → joined_pairs (first ∷ firsts) words.old ≡ (first ++ result.now)
        ∷ joined_pairs firsts words.new }
{
    match words.next() {
        Some(word) => word,
        None => b"",
    }
}
