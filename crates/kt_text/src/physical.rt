//! Physical lines.
ghost use Rattle.std.specs.Prelude.{◌≡◌, ◌<◌, ◌≤◌, ◌∷◌, ◌++◌, ◌&&◌, ◌+◌, ◌==◌, [], length, true, false, if◌then◌else◌};
ghost use Rattle.std.specs.List.{suffix_len};
ghost use Rattle.bstr.specs.Text.{line_len, lines_of, without_terminator};
ghost use Rattle.kt_text.specs.Words.{is_nonempty};
ghost use Rattle.kt_text.specs.Lines.{is_continued, is_continued_text, is_ended, kept_of_last, newline_pieces};

use memchr::memchr;

// The first physical line, with its newline, and the rest of the text.
#[tactic(auto, using(crate::proofs::lemmas::PhysicalLemmas::line_sizes))]
pub(crate) fn first_line(text: &[u8]) -> (&[u8], &[u8])
    requires { 0 < length text.now }
    ensures cut { lines_of text.now ≡ result.0.now ∷ lines_of result.1.now }
    ensures whole { length result.0.now + length result.1.now ≡ length text.now }
    ensures some { 0 < length result.0.now }
    ensures pieces { newline_pieces text.now ≡ result.0.now ∷ (if is_ended result.0.now
        then newline_pieces result.1.now else []) }
    ensures last { is_ended result.0.now ≡ false → length result.1.now ≡ 0 }
{
    text.split_at(line_size(text))
}

// How many bytes the first physical line takes.
fn line_size(text: &[u8]) -> usize
    ensures value { result ≡ line_len text.now }
    ensures some { 0 < length text.now → 0 < result }
    ensures bound { result ≤ length text.now }
{
    match text {
        // An empty line needs no search.
        [b'\n', ..] => 1,
        _ => searched_size(text),
    }
}

#[tactic(auto, using(crate::proofs::lemmas::PhysicalLemmas::line_sizes))]
fn searched_size(text: &[u8]) -> usize
    ensures value { result ≡ line_len text.now }
    ensures some { 0 < length text.now → 0 < result }
    ensures bound { result ≤ length text.now }
{
    match memchr(b'\n', text) {
        Some(place) => place + 1,
        None => text.len(),
    }
}

/// A physical line without its newline and the carriage return before that, which is kati's own to
/// drop.
pub fn line_content(line: &[u8]) -> &[u8]
    ensures value { result.now ≡ without_terminator line.now }
    ensures bound { length result.now ≤ length line.now }
{
    match line {
        [front @ .., b'\r', b'\n'] | [front @ .., b'\n'] => front,
        _ => line,
    }
}

/// Whether a physical line ends in an odd number of backslashes, its newline aside (GNU make manual,
/// "Splitting Long Lines").
#[tactic(auto, unfolding(crate::specs::Lines::is_continued))]
pub fn is_continued(line: &[u8]) -> bool
    ensures value { result ≡ is_continued line.now }
    ensures some { result ≡ true → 0 < length (without_terminator line.now) }
{
    has_odd_backslashes(line_content(line))
}

// How a physical line ends.
#[derive(Clone, Copy)]
pub(crate) struct LineEnd {
    // How much of it a logical line keeps of which it is the last.
    pub kept: usize,
    pub continued: bool,
}

impl LineEnd {
    #[tactic(auto, unfolding(crate::specs::Lines::is_continued, crate::specs::Lines::kept_of_last))]
    pub(crate) fn of(line: &[u8]) -> LineEnd
        ensures kept { result.kept ≡ kept_of_last line.now }
        ensures bound { result.kept ≤ length line.now }
        ensures continued { result.continued ≡ is_continued line.now }
    {
        let content = line_content(line);
        let continued = has_odd_backslashes(content);
        LineEnd {
            kept: content.len() - usize::from(continued),
            continued,
        }
    }

    // Whether the line is continued and text follows it.
    pub(crate) fn goes_on(self, after: &[u8]) -> bool
        ensures { result ≡ self.continued && is_nonempty after.now }
    {
        self.continued && !after.is_empty()
    }
}

// Whether the line has a newline that is continued, perhaps by nothing.
pub(crate) fn joins_next(line: &[u8]) -> bool
    ensures { result ≡ is_continued line.now && is_ended line.now }
{
    is_continued(line) && is_ended(line)
}

#[tactic(auto, unfolding(crate::specs::Lines::is_ended))]
fn is_ended(line: &[u8]) -> bool
    ensures { result ≡ is_ended line.now }
{
    matches!(line, [.., b'\n'])
}

fn has_odd_backslashes(content: &[u8]) -> bool
    ensures value { result ≡ is_continued_text content.now }
    ensures some { result ≡ true → 0 < length content.now }
{
    trailing_backslashes(content) % 2 == 1
}

fn trailing_backslashes(content: &[u8]) -> usize
    ensures value { result ≡ suffix_len (λ byte. byte == 92) content.now }
    ensures bound { result ≤ length content.now }
{
    content
        .iter()
        .rev()
        .take_while(|byte| **byte == b'\\')
        .count()
}
