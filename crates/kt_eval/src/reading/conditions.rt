//! The two texts of a condition.
ghost use Rattle.std.specs.Prelude.{◌≡◌, ◌<◌, ◌≤◌, ◌==◌, ◌||◌, length, option_map, IfSome, not, position};
ghost use Rattle.std.specs.List.{prefix_len};
ghost use Rattle.kt_text.specs.Words.{is_blank};
ghost use Rattle.kt_eval.specs.reading.Conditionals.{text_after_word, word_before_blank};
ghost use Rattle.kt_eval.specs.reading.Conditions.{bare_place, compared_of, in_parentheses, in_quotes, quoted_front};
ghost use Rattle.kt_eval.specs.reading.Conditions.{quoted_by, second_in, trimmed};
ghost use Rattle.kt_eval.specs.inner.Views.{compared_view};

use kt_text::{is_blank, trim_end, trim_start};

/// Two texts that are compared.
#[derive(Clone, Copy)]
pub(crate) struct ComparedTexts<'a> {
    pub first: &'a [u8],
    pub second: &'a [u8],
}

// The two texts, in parentheses or in quotes. Text after them is ignored.
#[tactic(auto, unfolding(crate::specs::reading::Conditions::compared_of))]
pub(crate) fn compared_texts(text: &[u8]) -> Option<ComparedTexts<'_>>
    ensures { option_map compared_view result ≡ compared_of text.now }
{
    match text {
        [] => None,
        [b'(', rest @ ..] => in_parentheses(rest),
        _ => in_quotes(text),
    }
}

#[tactic(auto, unfolding(crate::specs::reading::Conditions::in_parentheses))]
fn in_parentheses(text: &[u8]) -> Option<ComparedTexts<'_>>
    ensures { option_map compared_view result ≡ in_parentheses text.now }
{
    let comma = bare_place(b',', text)?;
    second_in(&text[..comma], &text[comma + 1..])
}

fn second_in<'a>(first: &'a [u8], rest: &'a [u8]) -> Option<ComparedTexts<'a>>
    ensures { option_map compared_view result ≡ second_in first.now rest.now }
{
    let end = bare_place(b')', rest)?;
    Some(ComparedTexts {
        first: trimmed(first),
        second: trimmed(&rest[..end]),
    })
}

// The first place of a byte outside parentheses.
#[tactic(auto, unfolding(crate::specs::reading::Conditions::bare_place))]
fn bare_place(wanted: u8, text: &[u8]) -> Option<usize>
    ensures value { result ≡ bare_place wanted 0 0 text.now }
    ensures bound { IfSome result (λ place. place < length text.now) }
{
    let mut depth: usize = 0;
    for (place, byte) in text.iter().enumerate() {
        if depth == 0 && *byte == wanted {
            return Some(place);
        }
        if *byte == b'(' {
            depth += 1;
        } else if *byte == b')' {
            if depth == 0 {
                return None;
            }
            depth -= 1;
        }
    }
    None
}

#[tactic(auto, unfolding(crate::specs::reading::Conditions::in_quotes))]
fn in_quotes(text: &[u8]) -> Option<ComparedTexts<'_>>
    ensures { option_map compared_view result ≡ in_quotes text.now }
{
    let (first, rest) = quoted(text)?;
    let (second, _) = quoted(trim_start(rest))?;
    Some(ComparedTexts { first, second })
}

// A text in quotes, and the text after it.
#[tactic(auto, unfolding(crate::specs::reading::Conditions::quoted_front))]
fn quoted(text: &[u8]) -> Option<(&[u8], &[u8])>
    ensures { option_map (λ cut. (cut.0.now, cut.1.now)) result ≡ quoted_front text.now }
{
    match text {
        [quote, rest @ ..] if is_quote(*quote) => quoted_by(*quote, rest),
        _ => None,
    }
}

fn is_quote(byte: u8) -> bool
    ensures { result ≡ (byte == 34 || byte == 39) }
{
    byte == b'"' || byte == b'\''
}

fn quoted_by(quote: u8, text: &[u8]) -> Option<(&[u8], &[u8])>
    ensures { option_map (λ cut. (cut.0.now, cut.1.now)) result ≡ quoted_by quote text.now }
{
    let end = quote_place(quote, text)?;
    Some((&text[..end], &text[end + 1..]))
}

fn quote_place(quote: u8, text: &[u8]) -> Option<usize>
    ensures value { result ≡ position (λ byte. byte == quote) text.now }
    ensures bound { IfSome result (λ place. place < length text.now) }
{
    text.iter().position(|byte| *byte == quote)
}

// A text without the blanks at its ends.
pub(crate) fn trimmed(text: &[u8]) -> &[u8]
    ensures { result.now ≡ trimmed text.now }
{
    trim_end(trim_start(text))
}

fn word_length(text: &[u8]) -> usize
    ensures value { result ≡ prefix_len (λ byte. not (is_blank byte)) text.now }
    ensures bound { result ≤ length text.now }
{
    text.iter().take_while(|byte| !is_blank(**byte)).count()
}

// The text before the first blank.
pub(crate) fn word_before_blank(text: &[u8]) -> &[u8]
    ensures { result.now ≡ word_before_blank text.now }
{
    &text[..word_length(text)]
}

// The text after the first word and the blanks after it.
pub(crate) fn text_after_word(text: &[u8]) -> &[u8]
    ensures { result.now ≡ text_after_word text.now }
{
    trim_start(&text[word_length(text)..])
}
