//! Separators of words, and those round a text.
ghost use Rattle.std.specs.Prelude.{◌≡◌, ◌≤◌, length};
ghost use Rattle.std.specs.List.{prefix_len, suffix_len};
ghost use Rattle.kt_text.specs.Words.{is_separator, stripped, stripped_end, stripped_start};

/// Whether words are cut at the byte: a space, a tab or a newline.
#[tactic(auto, unfolding(crate::specs::Words::is_separator))]
pub fn is_separator(byte: u8) -> bool
    ensures { result ≡ is_separator byte }
{
    matches!(byte, b' ' | b'\t' | b'\n')
}

/// The text without the separators at its ends.
pub fn stripped(text: &[u8]) -> &[u8]
    ensures { result.now ≡ stripped text.now }
{
    stripped_end(stripped_start(text))
}

/// The text without the separators that it begins with.
pub fn stripped_start(text: &[u8]) -> &[u8]
    ensures { result.now ≡ stripped_start text.now }
{
    &text[leading_separators(text)..]
}

fn stripped_end(text: &[u8]) -> &[u8]
    ensures { result.now ≡ stripped_end text.now }
{
    &text[..text.len() - trailing_separators(text)]
}

fn leading_separators(text: &[u8]) -> usize
    ensures value { result ≡ prefix_len is_separator text.now }
    ensures bound { result ≤ length text.now }
{
    text.iter().take_while(|byte| is_separator(**byte)).count()
}

/// How many separators the text ends with.
pub fn trailing_separators(text: &[u8]) -> usize
    ensures value { result ≡ suffix_len is_separator text.now }
    ensures bound { result ≤ length text.now }
{
    text.iter()
        .rev()
        .take_while(|byte| is_separator(**byte))
        .count()
}
