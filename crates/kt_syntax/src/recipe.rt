//! Recipe lines without their continuations.
ghost use Rattle.std.specs.Prelude.{◌≡◌, ◌++◌, IfOk, OnOk};
ghost use Rattle.std.specs.Cow.{cow_slice_items};
ghost use Rattle.kt_text.specs.Lines.{before_backslash};
ghost use Rattle.kt_syntax.specs.Recipes.{begun, content, ended, joint_of, newline_at_joint, recipe_of, spliced_line};
ghost use Rattle.kt_syntax.specs.Recipes.{space_at_joint, without_tab};

use crate::mask::Mask;
use crate::symbol::Symbol;
use kt_text::{is_continued, line_content, trim_end, trim_start};
use memchr::memchr;
use std::alloc::{AllocError, Global};
use std::borrow::CowSlice;

// What stands at an end of a physical line.
#[derive(Clone, Copy)]
pub enum Joint {
    // The begin or the end of the text.
    Edge,
    // A newline that isn't continued.
    Newline,
    // A continuation outside references.
    Outside,
    // A continuation inside a reference.
    Inside,
}

/// The text of a recipe line, of which the tab at its begin is no part.
///
/// A continuation is dropped with one tab after it. Inside a reference continuations with the
/// blanks round them are one space. A carriage return before a newline is dropped, and a backslash
/// at the end of the text stays. GNU make manual, "Splitting Recipe Lines". A text without a newline
/// stays as it is, and is borrowed.
#[tactic(auto, using(crate::proofs::lemmas::RecipeLemmas::line_stays))]
pub fn recipe_text(alloc: Global, text: &[u8]) -> Result<CowSlice<'_, u8>, AllocError>
    ensures { IfOk result (λ recipe. cow_slice_items recipe ≡ recipe_of text.now) }
{
    match memchr(b'\n', text) {
        None => Ok(CowSlice::Borrowed(text)),
        Some(_) => Ok(CowSlice::Owned(recipe_of_lines(alloc, text)?)),
    }
}

// As `recipe_text`, for a text of several physical lines.
fn recipe_of_lines(alloc: Global, text: &[u8]) -> Result<Vec<u8>, AllocError>
    ensures { IfOk result (λ recipe. recipe.items ≡ recipe_of text.now) }
{
    let mut recipe = Vec::new(alloc);
    let mut mask = Mask::new(text, text.len());
    let mut rest = text;
    let mut before = Joint::Edge;
    while let Some(place) = memchr(b'\n', rest) {
        let (line, lines) = rest.split_at(place + 1);
        let after = joint_of(&mask.symbol_after(place), line);
        add_line(&mut recipe, before, after, line)?;
        before = after;
        rest = lines;
    }
    add_line(&mut recipe, before, Joint::Edge, rest)?;
    Ok(recipe)
}

// What the newline at the end of a physical line is.
#[tactic(auto, unfolding(crate::specs::Recipes::joint_of))]
fn joint_of(symbol: &Symbol, line: &[u8]) -> Joint
    ensures { result ≡ joint_of symbol.now line.now }
{
    if !is_continued(line) {
        Joint::Newline
    } else if symbol.is_inside() {
        Joint::Inside
    } else {
        Joint::Outside
    }
}

// Adds a physical line between two joints.
#[tactic(auto, unfolding(crate::specs::Recipes::spliced_line))]
fn add_line(
    recipe: &mut Vec<u8>,
    before: Joint,
    after: Joint,
    line: &[u8],
) -> Result<(), AllocError>
    ensures { OnOk result (recipe.new.items ≡ recipe.old.items ++ spliced_line before after line.now) }
{
    let text = ended(after, begun(before, content(after, line)));
    recipe.extend_from_slice(space_before(before, after, text))?;
    recipe.extend_from_slice(text)?;
    recipe.extend_from_slice(newline_after(after))
}

// A physical line without what joins it to the next.
fn content(after: Joint, line: &[u8]) -> &[u8]
    ensures { result.now ≡ content after line.now }
{
    match after {
        Joint::Edge => line,
        Joint::Newline => line_content(line),
        Joint::Outside | Joint::Inside => before_backslash(line),
    }
}

// A continued line without its newline and the backslash before that.
fn before_backslash(line: &[u8]) -> &[u8]
    ensures { result.now ≡ before_backslash line.now }
{
    let content = line_content(line);
    match content {
        [front @ .., _] => front,
        [] => content,
    }
}

// What is left of a line after the joint before it.
fn begun(before: Joint, text: &[u8]) -> &[u8]
    ensures { result.now ≡ begun before text.now }
{
    match before {
        Joint::Edge | Joint::Newline => text,
        Joint::Outside => without_tab(text),
        Joint::Inside => trim_start(text),
    }
}

fn without_tab(text: &[u8]) -> &[u8]
    ensures { result.now ≡ without_tab text.now }
{
    match text {
        [b'\t', rest @ ..] => rest,
        _ => text,
    }
}

// What is left of a line before the joint after it.
fn ended(after: Joint, text: &[u8]) -> &[u8]
    ensures { result.now ≡ ended after text.now }
{
    match after {
        Joint::Edge | Joint::Newline | Joint::Outside => text,
        Joint::Inside => trim_end(text),
    }
}

// The space of a continuation inside a reference, unless only blanks stand up to the next one.
fn space_before(before: Joint, after: Joint, text: &[u8]) -> &'static [u8]
    ensures { result.now ≡ space_at_joint before after text.now }
{
    match (before, after) {
        (Joint::Inside, Joint::Inside) if text.is_empty() => b"",
        (Joint::Inside, _) => b" ",
        _ => b"",
    }
}

// The newline of a line that isn't continued.
fn newline_after(after: Joint) -> &'static [u8]
    ensures { result.now ≡ newline_at_joint after }
{
    match after {
        Joint::Newline => b"\n",
        Joint::Edge | Joint::Outside | Joint::Inside => b"",
    }
}
