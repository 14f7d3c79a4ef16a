//! A text cut into logical lines.
ghost use Rattle.std.specs.Prelude.{◌≡◌, ◌+◌, ◌==◌, None, Some, MatchResult, IfOk, count_by, if◌then◌else◌, ◌≤◌};
ghost use Rattle.std.specs.Prelude.{length};
ghost use Rattle.kt_text.specs.views.Lines.{AreInOrder, NulFault};
ghost use Rattle.kt_text.specs.Lines.{logical_lines_of, nul_line};

use crate::line::{Line, LineFault};
use crate::mark::LineMark;
use crate::physical::{LineEnd, first_line};
use memchr::memchr;
use std::alloc::{AllocError, Global};

/// The logical lines of `text`.
///
/// A newline is continued where an odd number of backslashes stands before it and text follows
/// it. Of the last line the last backslash of an odd number is no part. POSIX.1-2024 make,
/// "Makefile Syntax"; GNU make manual, "Splitting Long Lines".
pub fn logical_lines(alloc: Global, text: &[u8]) -> Result<Vec<Line>, LineFault>
    ensures ok { IfOk result (λ lines. lines.items ≡ logical_lines_of text.now) }
    ensures order { IfOk result (λ lines. AreInOrder (length text.now) lines.items) }
    ensures nul { MatchResult result (λ _. nul_line text.now ≡ None) (NulFault (nul_line text.now)) }
{
    let marks = line_marks(alloc, text)?;
    Ok(lines_of(alloc, &marks)?)
}

// The lines of marks.
fn lines_of(alloc: Global, marks: &[LineMark]) -> Result<Vec<Line>, AllocError>
    ensures { IfOk result (λ lines. lines.items ≡ marks.now) }
{
    let mut lines = Vec::new(alloc);
    for mark in marks {
        lines.push(mark.line())?;
    }
    Ok(lines)
}

/// As `logical_lines`, in less than half the room.
pub fn line_marks(alloc: Global, text: &[u8]) -> Result<Vec<LineMark>, LineFault>
    ensures ok { IfOk result (λ lines. lines.items ≡ logical_lines_of text.now) }
    ensures order { IfOk result (λ lines. AreInOrder (length text.now) lines.items) }
    ensures nul { MatchResult result (λ _. nul_line text.now ≡ None) (NulFault (nul_line text.now)) }
{
    if let Some(number) = nul_line(text) {
        return Err(LineFault::Nul(number));
    }
    Ok(cut_lines(alloc, text)?)
}

/// The number of the physical line with the first NUL, from 1, if there is one.
#[tactic(auto, using(crate::proofs::lemmas::PhysicalLemmas::nul_places), unfolding(crate::specs::Lines::nul_line))]
pub fn nul_line(text: &[u8]) -> Option<u64>
    ensures { result ≡ nul_line text.now }
{
    match memchr(0, text) {
        Some(place) => Some(count_newlines(&text[..place]) as u64 + 1),
        None => None,
    }
}

fn count_newlines(text: &[u8]) -> usize
    ensures value { result ≡ count_by (λ byte. byte == 10) text.now }
    ensures bound { result ≤ length text.now }
{
    text.iter().filter(|byte| **byte == b'\n').count()
}

// The logical lines of a text without NUL.
fn cut_lines(alloc: Global, text: &[u8]) -> Result<Vec<LineMark>, AllocError>
    ensures { IfOk result (λ lines. lines.items ≡ logical_lines_of text.now) }
{
    let mut lines = Vec::new(alloc);
    let mut rest = text;
    let mut at = 0;
    let mut number = 1;
    let mut begin = Begin {
        start: 0,
        number: 1,
        tab: false,
    };
    let mut continued = false;
    while !rest.is_empty() {
        let (line, after) = first_line(rest);
        begin = begin.or_at(
            continued,
            Begin {
                start: at,
                number,
                tab: line[0] == b'\t',
            },
        );
        let end = LineEnd::of(line);
        continued = end.goes_on(after);
        if !continued {
            lines.push(LineMark::of(&begin.ended(at + end.kept))?)?;
        }
        at += line.len();
        number += 1;
        rest = after;
    }
    Ok(lines)
}

// The begin of a logical line.
#[derive(Clone, Copy)]
struct Begin {
    start: usize,
    number: u64,
    tab: bool,
}

impl Begin {
    // This one for a continued line, else the new one.
    fn or_at(self, continued: bool, new: Begin) -> Begin
        ensures { result ≡ (if continued then self else new) }
    {
        if continued { self } else { new }
    }

    fn ended(self, end: usize) -> Line
        ensures { result ≡ record {
          span = record { start = self.start; end = end };
          number = self.number;
          tab = self.tab;
        } }
    {
        Line {
            span: self.start..end,
            number: self.number,
            tab: self.tab,
        }
    }
}
