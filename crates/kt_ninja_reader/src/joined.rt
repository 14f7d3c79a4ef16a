//! The joined lines of a Ninja file.
ghost use Rattle.std.specs.Prelude.{◌≡◌, ◌+◌, ◌-◌, ◌<◌, ◌≤◌, ◌∷◌, ◌==◌, ◌&&◌, not, false, true, [], find, length, take};
ghost use Rattle.std.specs.Prelude.{◌++◌, IfOk, OnOk};
ghost use Rattle.std.specs.Option.{option_copied};
ghost use Rattle.std.specs.List.{position_or_len, prefix_len};
ghost use Rattle.kt_ninja_reader.specs.JoinedLines.{ends_in_dollar, file_lines, is_blank_line, is_comment, joined_lines};
ghost use Rattle.kt_ninja_reader.specs.JoinedLines.{without_indent};
ghost use Rattle.kt_ninja_reader.specs.inner.Joining.{Joins, added_text, file_line, kept_text};

use crate::bytes::first_byte;
use crate::line::{JoinedLine, JoinedText};
use memchr::memchr;
use std::alloc::{AllocError, Global};
use std::mem;

// A line of the file without its newline, whether it had one, and what stands after it.
#[derive(Drop)]
struct FileLine<'a> {
    bytes: &'a [u8],
    ended: bool,
    after: &'a [u8],
}

// Where the first newline stands, or the length of the text.
#[tactic(auto, using(crate::proofs::lemmas::JoinedLemmas::newline_found))]
fn line_length(text: &[u8]) -> usize
    ensures value { result ≡ position_or_len (λ b. b == 10) text.now }
    ensures bound { result ≤ length text.now }
{
    memchr(b'\n', text).unwrap_or(text.len())
}

#[tactic(auto, using(crate::proofs::lemmas::JoinedLemmas::lines_cut, crate::proofs::lemmas::JoinedLemmas::lines_none))]
fn first_line(text: &[u8]) -> FileLine<'_>
    requires { 0 < length text.now }
    ensures cut { file_lines text.now ≡ file_line result ∷ file_lines result.after.now }
    ensures less { length result.after.now < length text.now }
{
    let (bytes, after) = text.split_at(line_length(text));
    match first_byte(after) {
        Some((_, after)) => FileLine {
            bytes,
            ended: true,
            after,
        },
        None => FileLine {
            bytes,
            ended: false,
            after,
        },
    }
}

// How many spaces the text begins with.
fn indent(text: &[u8]) -> usize
    ensures value { result ≡ prefix_len (λ b. b == 32) text.now }
    ensures bound { result ≤ length text.now }
{
    text.iter().take_while(|byte| **byte == b' ').count()
}

pub(crate) fn without_indent(text: &[u8]) -> &[u8]
    ensures { result.now ≡ without_indent text.now }
{
    &text[indent(text)..]
}

// The first byte that is no space.
fn first_shown(text: &[u8]) -> Option<&u8>
    ensures { option_copied result ≡ find (λ b. not (b == 32)) text.now }
{
    text.iter().find(|byte| **byte != b' ')
}

pub(crate) fn is_comment(text: &[u8]) -> bool
    ensures { result ≡ is_comment text.now }
{
    match first_shown(text) {
        Some(byte) => *byte == b'#',
        None => false,
    }
}

pub(crate) fn is_blank(text: &[u8]) -> bool
    ensures { result ≡ is_blank_line text.now }
{
    text.iter().all(|byte| *byte == b' ')
}

// Whether the text ends in a dollar that no other dollar escapes. Most texts end in another byte.
fn ends_in_dollar(text: &[u8]) -> bool
    ensures { result ≡ ends_in_dollar false text.now }
{
    match text {
        [.., last] if *last == b'$' => is_dollar_open(text),
        _ => false,
    }
}

// Whether the last of the dollars is escaped by none before it.
#[tactic(auto, using(crate::proofs::lemmas::JoinedLemmas::dollar_step), unfolding(crate::specs::JoinedLines::ends_in_dollar))]
fn is_dollar_open(text: &[u8]) -> bool
    ensures { result ≡ ends_in_dollar false text.now }
{
    let mut pending = false;
    for byte in text {
        pending = is_pending(pending, *byte);
    }
    pending
}

// Whether the byte is a dollar that none before it escapes.
fn is_pending(pending: bool, byte: u8) -> bool
    ensures { result ≡ not pending && byte == 36 }
{
    !pending && byte == b'$'
}

// All but the last byte.
fn without_last(text: &[u8]) -> &[u8]
    ensures { result.now ≡ take (length text.now - 1) text.now }
{
    match text {
        [front @ .., _] => front,
        [] => text,
    }
}

// What was joined so far to a line: whether it goes on, and is blank so far.
#[derive(Drop)]
struct OpenLine<'t> {
    number: u64,
    text: JoinedText<'t>,
    blank: bool,
    going_on: bool,
}

// What a line of the file adds to a joined one, or begins it with.
fn added(going_on: bool, bytes: &[u8]) -> &[u8]
    ensures { result.now ≡ added_text going_on bytes.now }
{
    if going_on {
        without_indent(bytes)
    } else {
        bytes
    }
}

// Whether a line that begins blank or not goes on after these bytes.
fn goes_on(line: &FileLine, blank: bool, bytes: &[u8]) -> bool
    ensures { result ≡ line.now.ended && (ends_in_dollar false line.now.bytes.now
        && not (blank && is_comment bytes.now)) }
{
    line.ended && ends_in_dollar(line.bytes) && !(blank && is_comment(bytes))
}

// All of what was added but the dollar that the line goes on with.
fn kept(going_on: bool, bytes: &[u8]) -> &[u8]
    ensures { result.now ≡ kept_text going_on bytes.now }
{
    if going_on { without_last(bytes) } else { bytes }
}

fn stays_blank(blank: bool, bytes: &[u8]) -> bool
    ensures { result ≡ blank && is_blank_line bytes.now }
{
    blank && is_blank(bytes)
}

impl<'t> OpenLine<'t> {
    // Joins a line of the file to it.
    fn join(&mut self, alloc: Global, line: &FileLine<'t>) -> Result<(), AllocError>
        requires blank { self.old.blank ≡ is_blank_line self.old.text }
        requires plain { is_comment self.old.text ≡ false }
        ensures joined { OnOk result (Joins self.old line.now self.new) }
    {
        let bytes = added(self.going_on, line.bytes);
        let going_on = goes_on(line, self.blank, bytes);
        let kept = kept(going_on, bytes);
        let blank = stays_blank(self.blank, kept);
        self.going_on = going_on;
        self.blank = blank;
        self.text.add(alloc, kept)
    }

    // Adds the line, which ends here, and begins another.
    fn end(
        &mut self,
        alloc: Global,
        lines: &mut Vec<JoinedLine<'t>>,
        ended: bool,
        next: u64,
    ) -> Result<(), AllocError>
        ensures line { OnOk result (lines.new.items ≡ lines.old.items
            ++ record { number = self.old.number; text = self.old.text; ended = ended } ∷ []) }
        ensures empty { self.new.text ≡ [] }
        ensures begun { (self.new.number ≡ next) × (self.new.blank ≡ true) × (self.new.going_on ≡ self.old.going_on) }
    {
        let number = self.number;
        let text = mem::replace(&mut self.text, JoinedText::empty());
        self.number = next;
        self.blank = true;
        let line = JoinedLine::new(alloc, number, text, ended)?;
        Ok(lines.push(line)?)
    }
}

/// The joined lines of the text (Ninja manual, "Lexical syntax").
pub(crate) fn joined_lines(alloc: Global, text: &[u8]) -> Result<Vec<JoinedLine<'_>>, AllocError>
    ensures { IfOk result (λ lines. lines.items ≡ joined_lines text.now) }
{
    let mut lines = Vec::new(alloc);
    let mut rest = text;
    let mut next = 1;
    let mut begun = OpenLine {
        number: 1,
        text: JoinedText::empty(),
        blank: true,
        going_on: false,
    };
    while !rest.is_empty() {
        let line = first_line(rest);
        next += 1;
        begun.join(alloc, &line)?;
        if !begun.going_on {
            begun.end(alloc, &mut lines, line.ended, next)?;
        }
        rest = line.after;
    }
    if begun.going_on {
        begun.end(alloc, &mut lines, false, next)?;
    }
    Ok(lines)
}
