//! The words of a text.
ghost use Rattle.std.specs.Prelude.{◌≡◌, List, ℕ, [], ◌∷◌, MatchOption, ◌≤◌, length, not, position};
ghost use Rattle.std.specs.Iterator.{item_count};
ghost use Rattle.std.specs.List.{position_or_len};
ghost use Rattle.bstr.specs.Text.{TakesFirstRef};
ghost use Rattle.kt_text.specs.Words.{is_separator, words_of};

use crate::separators::is_separator;
use crate::word_ends::word_end;
use std::marker::Model;

/// The words of a text, in order.
///
/// Each one borrows the text that `words` was given.
#[derive(Drop)]
pub struct Words<'a> {
    rest: &'a [u8],
}

impl<'a> Model for Words<'a> {
    ghost Value = { List (List ℕ) };

    ghost view = { λ words. words_of words.rest.now };
}

impl<'a> Words<'a> {
    pub(crate) fn new(text: &'a [u8]) -> Words<'a>
        ensures { result ≡ words_of text.now }
    {
        Words { rest: text }
    }
}

impl<'a> Iterator for Words<'a> {
    type Item = &'a [u8];

    ghost next_gives = { TakesFirstRef };

    ghost remaining = { item_count (λ rest. rest) };

    fn next(&mut self) -> Option<&'a [u8]> {
        let (word, rest) = first_word(self.rest)?;
        self.rest = rest;
        Some(word)
    }
}

// The first word and what stands after it.
#[tactic(auto, using(crate::proofs::lemmas::WordLemmas::no_first_word, std::proofs::lemmas::Bool::Decides::nat_tests))]
fn first_word(text: &[u8]) -> Option<(&[u8], &[u8])>
    ensures { MatchOption result (words_of text.now ≡ [])
        (λ cut. words_of text.now ≡ cut.0.now ∷ words_of cut.1.now) }
{
    let begun = &text[word_start(text)..];
    if begun.is_empty() {
        return None;
    }
    Some(begun.split_at(word_end(begun)))
}

// How many separators the text begins with.
fn word_start(text: &[u8]) -> usize
    ensures value { result ≡ position_or_len (λ byte. not (is_separator byte)) text.now }
    ensures bound { result ≤ length text.now }
{
    word_byte_place(text).unwrap_or(text.len())
}

// Where the first byte stands that is no separator.
fn word_byte_place(text: &[u8]) -> Option<usize>
    ensures { result ≡ position (λ byte. not (is_separator byte)) text.now }
{
    text.iter().position(|byte| !is_separator(*byte))
}
