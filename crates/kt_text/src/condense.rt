//! Continuations condensed to spaces.
ghost use Rattle.std.specs.Prelude.{◌≡◌, ◌++◌, ◌-◌, length, take, IfOk, OnOk};
ghost use Rattle.std.specs.Cow.{cow_slice_items};
ghost use Rattle.kt_text.specs.Lines.{condensed_line, condensed_of, newline_after, space_before, trimmed_line};

use crate::blanks::{trim_end, trim_start};
use crate::byte::has_byte;
use crate::physical::{first_line, joins_next, line_content};
use std::alloc::{AllocError, Global};
use std::borrow::CowSlice;

/// `text` as `condensed` gives it; what has no newline is borrowed, for it stays as it is.
pub fn joined<'a>(alloc: Global, text: &'a [u8]) -> Result<CowSlice<'a, u8>, AllocError>
    ensures { IfOk result (λ joined. cow_slice_items joined ≡ condensed_of text.now) }
{
    if has_byte(text, b'\n') {
        return Ok(CowSlice::Owned(condensed(alloc, text)?));
    }
    Ok(CowSlice::Borrowed(text))
}

/// `text` with each continuation, with the blanks on both sides, as one space.
///
/// Continuations with only blanks between them are one. One at the end of the text is a space too.
/// A carriage return before a newline is dropped. A backslash at the end of the text, with no
/// newline after it, stays. GNU make manual, "Splitting Long Lines".
#[tactic(auto, using(crate::proofs::lemmas::CondensedLemmas::condensed_steps))]
pub fn condensed(alloc: Global, text: &[u8]) -> Result<Vec<u8>, AllocError>
    ensures { IfOk result (λ condensed. condensed.items ≡ condensed_of text.now) }
{
    let mut out = Vec::new(alloc);
    let mut rest = text;
    let mut continued = false;
    while !rest.is_empty() {
        let (line, after) = first_line(rest);
        let continues = joins_next(line);
        add_line(&mut out, line, continued, continues)?;
        continued = continues;
        rest = after;
    }
    // After the last newline stands an empty line.
    add_line(&mut out, b"", continued, false)?;
    Ok(out)
}

// Adds a physical line that is or isn't continued from the one before, and does or doesn't go on.
#[tactic(auto, unfolding(crate::specs::Lines::condensed_line))]
fn add_line(
    out: &mut Vec<u8>,
    line: &[u8],
    continued: bool,
    continues: bool,
) -> Result<(), AllocError>
    ensures { OnOk result (out.new.items ≡ out.old.items ++ condensed_line continued continues line.now) }
{
    let text = trimmed_line(line, continued, continues);
    out.extend_from_slice(space_before(continued, continues, text))?;
    out.extend_from_slice(text)?;
    out.extend_from_slice(newline_after(continues, line))
}

// The space of the continuation before a line, unless only blanks stand up to the next one.
fn space_before(continued: bool, continues: bool, text: &[u8]) -> &'static [u8]
    ensures { result.now ≡ space_before continued continues text.now }
{
    if continued && !(continues && text.is_empty()) {
        b" "
    } else {
        b""
    }
}

// What such a line keeps between its continuations.
fn trimmed_line(line: &[u8], continued: bool, continues: bool) -> &[u8]
    ensures { result.now ≡ trimmed_line continued continues line.now }
{
    let content = line_content(line);
    let kept = if continues {
        before_last(content)
    } else {
        content
    };
    let begun = if continued { trim_start(kept) } else { kept };
    if continues { trim_end(begun) } else { begun }
}

fn before_last(text: &[u8]) -> &[u8]
    ensures { result.now ≡ take (length text.now - 1) text.now }
{
    match text {
        [front @ .., _] => front,
        [] => text,
    }
}

// The newline at the end of a line that isn't continued, if it has one.
#[tactic(auto, unfolding(crate::specs::Lines::is_ended))]
fn newline_after(continues: bool, line: &[u8]) -> &'static [u8]
    ensures { result.now ≡ newline_after continues line.now }
{
    match line {
        [.., b'\n'] if !continues => b"\n",
        _ => b"",
    }
}
