//! Texts cut into words.
ghost use Rattle.std.specs.Prelude.{◌≡◌, ◌≤◌, length};
ghost use Rattle.kt_text.specs.Words.{words_of};

use crate::word_runs::Words;

/// The words of `text`, cut at spaces, tabs and newlines.
///
/// Takes no memory. GNU make manual, "Functions for String Substitution and Analysis".
#[tactic(auto, using(crate::proofs::lemmas::WordLemmas::word_count_bound))]
pub fn words(text: &[u8]) -> Words<'_>
    ensures value { result ≡ words_of text.now }
    ensures count { length result ≤ length text.now }
{
    Words::new(text)
}
