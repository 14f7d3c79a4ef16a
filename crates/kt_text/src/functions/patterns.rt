//! The patterns of `filter` and `filter-out`.
ghost use Rattle.std.specs.Prelude.{◌≡◌, IfOk, is_some};
ghost use Rattle.std.specs.Borrow.{Bor};
ghost use Rattle.std.specs.List.{list_any};
ghost use Rattle.kt_text.specs.Words.{Text, words_of};
ghost use Rattle.kt_text.specs.Match.{stem_span};
ghost use Rattle.kt_text.specs.inner.Patterns.{matches_held};
ghost use Rattle.kt_text.specs.Functions.{matches_some, occurs, quotes_percent};

use crate::cut::words;
use crate::pattern::{has_percent, match_pattern};
use memchr::memmem;
use std::alloc::{AllocError, Global};
use std::collections::HashSet;

// The words of a list of patterns: those without percent sign are looked up, the others tried.
#[derive(Drop)]
pub(crate) struct WordPatterns<'a> {
    literals: HashSet<&'a [u8]>,
    wildcards: Vec<&'a [u8]>,
}

impl<'a> WordPatterns<'a> {
    #[tactic(auto, using(crate::proofs::lemmas::PatternLemmas::wildcard_more, crate::proofs::lemmas::PatternLemmas::literal_more))]
    pub(crate) fn new(alloc: Global, text: &'a [u8]) -> Result<WordPatterns<'a>, AllocError>
        ensures { IfOk result (λ patterns. (word : Bor Text)
            → matches_held patterns.literals.keys patterns.wildcards.items word.now
            ≡ matches_some (words_of text.now) word.now) }
    {
        let mut literals = HashSet::new(alloc);
        let mut wildcards = Vec::new(alloc);
        for pattern in words(text) {
            if has_percent(pattern) {
                wildcards.push(pattern)?;
            } else {
                literals.insert(pattern)?;
            }
        }
        Ok(WordPatterns {
            literals,
            wildcards,
        })
    }

    // Whether one of them matches.
    pub(crate) fn matches(&self, word: &'a [u8]) -> bool
        ensures { result ≡ matches_held self.now.literals.keys self.now.wildcards.items word.now }
    {
        self.literals.contains(&word) || matches_wildcard(self.wildcards.as_slice(), word)
    }
}

fn matches_wildcard(wildcards: &[&[u8]], word: &[u8]) -> bool
    ensures { result ≡ list_any (λ pattern. is_some (stem_span pattern.now word.now)) wildcards.now }
{
    wildcards.iter().any(|pattern| has_stem(*pattern, word))
}

fn has_stem(pattern: &[u8], word: &[u8]) -> bool
    ensures { result ≡ is_some (stem_span pattern.now word.now) }
{
    match_pattern(pattern, word).is_some()
}

// Whether a quoted percent sign stands in the text.
pub(crate) fn quotes_percent(text: &[u8]) -> bool
    ensures { result ≡ quotes_percent text.now }
{
    occurs(b"\\%", text)
}

// Whether the needle stands in the text.
pub(crate) fn occurs(needle: &[u8], text: &[u8]) -> bool
    ensures { result ≡ occurs needle.now text.now }
{
    memmem::find(text, needle).is_some()
}
