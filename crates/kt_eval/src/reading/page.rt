//! A text that is read, with its lines and blocks.
//! Fast: a comment or an empty line before an ordinary line is passed by its first byte. Spares a place, a kind and a
//! look a line.
ghost use Rattle.std.specs.Prelude.{◌≡◌, ◌+◌, ◌<◌, ◌≤◌, ◌^◌, ℕ, Bool, false, length, map, true, IfOk, IfSome, None, Some};
ghost use Rattle.std.specs.List.{slice_get, slice_range};
ghost use Rattle.kt_syntax.specs.views.Reading.{ReadsOn, left_at};
ghost use Rattle.kt_syntax.specs.Blocks.{none, tree_of};
ghost use Rattle.kt_syntax.specs.declared.step.BlockStep.TheVariants as step;
ghost use Rattle.kt_syntax.specs.Kinds.{blank, line_form};
ghost use Rattle.kt_syntax.specs.Roles.{line_text};
ghost use Rattle.kt_text.specs.views.Lines.{AreInOrder};
ghost use Rattle.kt_text.specs.Lines.{logical_lines_of};
ghost use Rattle.kt_eval.specs.macros.Assignments.{body_text};
ghost use Rattle.kt_eval.specs.reading.Reading.{line_at, sheet_of};
ghost use Rattle.kt_eval.specs.inner.Doing.{IsStepAt, ReadsAlike};
ghost use Rattle.kt_eval.specs.inner.Views.{raw_view};

use kt_list::Shared;
use kt_syntax::{BlockStep, Blocks, Missing, begins_comment, marked_blocks};
use kt_text::{Line, LineMark, condensed};
use std::alloc::{AllocError, Global};
use std::marker::Model;

/// Where a text comes from.
#[derive(Debug, Drop)]
pub enum Source {
    /// A file, by its name as it was asked for.
    File(Shared<u8>),
    /// The text of an `eval`.
    Held,
}

/// A logical line as written.
#[derive(Clone, Copy)]
pub(crate) struct RawLine<'a> {
    pub number: u64,
    pub tab: bool,
    pub text: &'a [u8],
}

/// A text that is read.
#[derive(Drop)]
pub(crate) struct Page<'a> {
    source: &'a Source,
    text: &'a [u8],
    lines: Vec<LineMark>,
    blocks: Blocks,
}

impl<'a> Model for Page<'a> {
    ghost use Rattle.std.specs.Prelude.{◌≡◌, length, map};
    ghost use Rattle.kt_syntax.specs.Blocks.{tree_of};
    ghost use Rattle.kt_syntax.specs.views.Reading.{left_at};
    ghost use Rattle.kt_eval.specs.reading.Reading.{Page, raw_line};

    ghost Value = { Page };

    ghost view = { λ page. record {
      source = page.source.now;
      lines = map (raw_line page.text.now) page.lines.items;
      blocks = page.blocks;
    } };

    ghost invariant = { λ page. (length page.blocks.steps ≡ length page.lines.items)
        × (left_at page.blocks.steps 0 ≡ tree_of page.blocks.steps) };
}

impl<'a> Page<'a> {
    // The page of a text with its logical lines.
    pub(crate) fn new(
        alloc: Global,
        source: &'a Source,
        text: &'a [u8],
        lines: Vec<LineMark>,
    ) -> Result<Page<'a>, AllocError>
        requires lines { lines.items ≡ logical_lines_of text.now }
        requires order { AreInOrder (length text.now) lines.items }
        ensures { IfOk result (λ page. page ≡ sheet_of source.now text.now) }
    {
        let blocks = marked_blocks(alloc, text, &lines)?;
        Ok(Page {
            source,
            text,
            lines,
            blocks,
        })
    }

    pub(crate) fn source(&self) -> &Source
        ensures { result.now ≡ self.now.source }
    {
        self.source
    }

    // The place of the first line, where the whole tree remains to be read.
    pub(crate) fn first(&self) -> usize
        ensures whole { left_at self.now.blocks.steps result ≡ tree_of self.now.blocks.steps }
        ensures within { result ≤ length self.now.blocks.steps }
    {
        // Naming a field makes the invariant known.
        let _blocks = &self.blocks;
        0
    }

    // The step of a line, counted from 0, or `None` after the last line.
    #[tactic(auto, using(crate::proofs::RootLemmas::none_left_past, std::proofs::lemmas::Option::slice_get_within))]
    pub(crate) fn step(&self, place: usize) -> Option<BlockStep>
        ensures value { result ≡ slice_get self.now.blocks.steps place }
        ensures found { IfSome result (IsStepAt self.now.blocks.steps place) }
        ensures done { result ≡ None → left_at self.now.blocks.steps place ≡ none }
    {
        self.blocks.get(place)
    }

    // The last of the lines, from one on, of which each but the last is blank at its first byte and comes before an
    // ordinary line: reading such a line only moves the place, and the next one moves it too.
    // Idle: the given place.
    pub(crate) fn past_comments(&self, place: usize, step: BlockStep) -> usize
        requires step { IsStepAt self.now.blocks.steps place step }
        ensures step { IsStepAt self.now.blocks.steps result step }
        ensures after { place ≤ result }
        ensures quick_same { ReadsAlike self.now place result }
    {
        let mut at = place;
        while self.is_passed(at) {
            at += 1;
        }
        at
    }

    // Whether a line is blank at its first byte, and comes before an ordinary line.
    fn is_passed(&self, place: usize) -> bool
        ensures quick_within { result ≡ true → place + 1 < length self.now.blocks.steps }
        ensures quick_fits { result ≡ true → place + 1 < 2 ^ 64 }
        ensures quick_line { result ≡ true → slice_get self.now.blocks.steps place ≡ Some step.Line }
        ensures quick_next { result ≡ true → slice_get self.now.blocks.steps (place + 1) ≡ Some step.Line }
        ensures quick_reads { result ≡ true → ReadsOn self.now.blocks.steps (place + 1) step.Line }
        ensures quick_tab { result ≡ true → (line_at self.now.lines place).tab ≡ false }
        ensures quick_blank { result ≡ true → line_form (line_at self.now.lines place).text false ≡ blank }
    {
        place < self.lines.len()
            && self.begins_comment(place)
            && self.is_ordinary(place + 1)
            && self.is_ordinary(place)
    }

    // Whether the step of a line is to read it by itself.
    fn is_ordinary(&self, place: usize) -> bool
        ensures quick_within { result ≡ true → place < length self.now.blocks.steps }
        ensures quick_step { result ≡ true → slice_get self.now.blocks.steps place ≡ Some step.Line }
        ensures quick_reads { result ≡ true → ReadsOn self.now.blocks.steps place step.Line }
    {
        self.blocks.is_ordinary(place)
    }

    fn begins_comment(&self, place: usize) -> bool
        ensures quick_tab { result ≡ true → (line_at self.now.lines place).tab ≡ false }
        ensures quick_kind { result ≡ true → line_form (line_at self.now.lines place).text false ≡ blank }
    {
        let line = self.line(place);
        !line.tab && begins_comment(line.text)
    }

    // The branch that begins at a place, if the place is before `after`, where reading continues after all branches:
    // whether the branch has a condition, and where the next one begins.
    pub(crate) fn branch(&self, place: usize, after: usize) -> Option<(bool, usize)>
        ensures before { IfSome result (λ found. place < after) }
        ensures some { IfSome result (λ found. (more : ℕ)
            × (slice_get self.now.blocks.steps place ≡ Some (step.Branch found.0 found.1 more))) }
        ensures none { result ≡ None → (condition : Bool) → (next : ℕ) → slice_get self.now.blocks.steps place
            ≡ Some (step.Branch condition next after) → ⊥ }
        ensures ahead { IfSome result (λ found. (place < found.1) × (found.1 ≤ length self.now.blocks.steps)) }
    {
        match self.blocks.get(place) {
            Some(
                BlockStep::Branch {
                    condition,
                    next,
                    ..
                },
            ) => {
                if place < after {
                    Some((condition, next))
                } else {
                    None
                }
            }
            _ => None,
        }
    }

    // The place after a line.
    pub(crate) fn past(&self, place: usize) -> usize
        requires { place < length self.now.blocks.steps }
        ensures { result ≡ place + 1 }
    {
        let count = self.lines.len();
        if place < count { place + 1 } else { place }
    }

    pub(crate) fn missing(&self) -> Option<Missing>
        ensures { result ≡ self.now.blocks.missing }
    {
        self.blocks.missing()
    }

    // The line at a place.
    #[tactic(auto, unfolding(crate::specs::reading::Reading::line_at))]
    pub(crate) fn line(&self, place: usize) -> RawLine<'_>
        ensures { raw_view result ≡ line_at self.now.lines place }
    {
        match self.lines.get(place) {
            Some(mark) => raw_line(self.text, &mark.line()),
            None => RawLine {
                number: 0,
                tab: false,
                text: b"",
            },
        }
    }

    // The lines from one place up to another, as the value of a define.
    #[tactic(auto, using(crate::proofs::BodyLemmas::body_lines), unfolding(crate::proofs::Common::body_text))]
    pub(crate) fn body(
        &self,
        alloc: Global,
        start: usize,
        end: usize,
    ) -> Result<Vec<u8>, AllocError>
        requires order { start ≤ end }
        requires within { end ≤ length self.now.blocks.steps }
        ensures { IfOk result (λ body. body.items
            ≡ body_text (map (λ raw. raw.text) (slice_range self.now.lines start end))) }
    {
        body_text(alloc, self.text, &self.lines[start..end])
    }
}

fn raw_line<'a>(text: &'a [u8], line: &Line) -> RawLine<'a>
    ensures { raw_view result ≡ record {
      number = line.now.number;
      tab = line.now.tab;
      text = line_text text.now line.now;
    } }
{
    RawLine {
        number: line.number,
        tab: line.tab,
        text: line_text(text, line),
    }
}

// The bytes of a line.
fn line_text<'a>(text: &'a [u8], line: &Line) -> &'a [u8]
    ensures { result.now ≡ line_text text.now line.now }
{
    let start = line.span.start;
    let end = line.span.end;
    if start <= end && end <= text.len() {
        &text[start..end]
    } else {
        b""
    }
}

// Lines joined with newlines, each without its continuations.
#[tactic(auto, using(crate::proofs::BodyLemmas::whole_body), unfolding(crate::proofs::BodyLemmas::left_of_body))]
fn body_text(alloc: Global, text: &[u8], lines: &[LineMark]) -> Result<Vec<u8>, AllocError>
    ensures { IfOk result (λ body. body.items ≡ body_text (map (line_text text.now) lines.now)) }
{
    let mut body = Vec::new(alloc);
    let mut separator: &[u8] = b"";
    for line in lines {
        body.extend_from_slice(separator)?;
        body.extend_from_slice(&condensed(alloc, line_text(text, &line.line()))?)?;
        separator = b"\n";
    }
    Ok(body)
}
