//! The words of a rule line as they are written.
ghost use Rattle.std.specs.Prelude.{◌≡◌, [], ◌∷◌, MatchOption, ◌≤◌, length};
ghost use Rattle.kt_rules.specs.Names.{end_place, without_outer_separators, written_words};

use crate::line::cutting::{Cut, cut_place};
use kt_text::{stripped_start, trailing_separators};

/// The first word of a text that is cut at unquoted separators, and the text after it.
#[tactic(auto, using(std::proofs::lemmas::Bool::Decides::nat_tests, crate::proofs::lemmas::line::WrittenLemmas::first_written))]
pub(crate) fn first_word(text: &[u8]) -> Option<(&[u8], &[u8])>
    ensures { MatchOption result (written_words text.now ≡ [])
        (λ cut. written_words text.now ≡ cut.0.now ∷ written_words cut.1.now) }
{
    let words = stripped_start(text);
    if words.is_empty() {
        return None;
    }
    Some(words.split_at(cut_place(words, Cut::Separator)))
}

// The text without the unquoted separators at both ends.
#[tactic(auto, unfolding(crate::specs::Names::without_outer_separators))]
pub(crate) fn without_outer_separators(text: &[u8]) -> &[u8]
    ensures { result.now ≡ without_outer_separators text.now }
{
    let words = stripped_start(text);
    &words[..end_place(words)]
}

// The number of bytes before the separators at the end, of which the first may be quoted.
fn end_place(text: &[u8]) -> usize
    ensures value { result ≡ end_place text.now }
    ensures bound { result ≤ length text.now }
{
    let end = text.len() - trailing_separators(text);
    if end > 0 && end < text.len() && text[end - 1] == b'\\' && text[end] == b' ' {
        end + 1
    } else {
        end
    }
}
