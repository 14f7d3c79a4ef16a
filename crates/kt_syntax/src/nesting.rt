//! The blocks of a text found, by one pass over its lines and one back over their parts.
ghost use Rattle.std.specs.Prelude.{◌≡◌, ◌≤◌, ◌<◌, ◌^◌, length, IfOk};
ghost use Rattle.kt_text.specs.views.Lines.{AreInOrder};
ghost use Rattle.kt_syntax.specs.Blocks.{blocks_of, tree_of};
ghost use Rattle.kt_syntax.specs.views.Grammar.{IsTreeOf};
ghost use Rattle.kt_syntax.specs.Parts.{after, block_part, block_parts, missing_end};
ghost use Rattle.kt_syntax.specs.inner.Blocks.{depth_of};
ghost use Rattle.kt_syntax.specs.views.Reading.{left_at};
ghost use Rattle.kt_syntax.specs.Roles.{heads_of, numbered_role};
ghost use Rattle.kt_syntax.specs.Steps.{steps_from};

use crate::flat::Blocks;
use crate::part::{BlockPart, Missing, Scan};
use crate::role::{head_of, opens_nothing};
use crate::step::Places;
use crate::step_list::StepList;
use kt_text::{Line, LineMark};
use std::alloc::{AllocError, Global};

/// The blocks of a text with these lines, which are its own, as `logical_lines` gives them.
///
/// GNU make manual, "Syntax of Conditionals" and "Defining Multi-Line Variables".
pub fn blocks(alloc: Global, text: &[u8], lines: &[Line]) -> Result<Blocks, AllocError>
    requires { AreInOrder (length text.now) lines.now }
    ensures flat { IfOk result (λ blocks. blocks ≡ blocks_of (heads_of text.now lines.now)) }
    ensures tree { IfOk result (λ blocks. IsTreeOf (tree_of blocks.steps) blocks.missing
        (heads_of text.now lines.now)) }
    ensures lines { IfOk result (λ blocks. length blocks.steps ≡ length lines.now) }
    ensures whole { IfOk result (λ blocks. left_at blocks.steps 0 ≡ tree_of blocks.steps) }
{
    let marks = marks_of(alloc, lines)?;
    marked_blocks(alloc, text, &marks)
}

fn marks_of(alloc: Global, lines: &[Line]) -> Result<Vec<LineMark>, AllocError>
    ensures { IfOk result (λ marks. marks.items ≡ lines.now) }
{
    let mut marks = Vec::new(alloc);
    for line in lines {
        marks.push(LineMark::of(line)?)?;
    }
    Ok(marks)
}

/// As `blocks`, by the marks of these lines, as `line_marks` gives them.
#[tactic(auto, using(crate::proofs::lemmas::Sound::tree_is_of, crate::proofs::lemmas::WholeTree::whole_tree_is_left))]
pub fn marked_blocks(alloc: Global, text: &[u8], lines: &[LineMark]) -> Result<Blocks, AllocError>
    requires { AreInOrder (length text.now) lines.now }
    ensures flat { IfOk result (λ blocks. blocks ≡ blocks_of (heads_of text.now lines.now)) }
    ensures tree { IfOk result (λ blocks. IsTreeOf (tree_of blocks.steps) blocks.missing
        (heads_of text.now lines.now)) }
    ensures lines { IfOk result (λ blocks. length blocks.steps ≡ length lines.now) }
    ensures whole { IfOk result (λ blocks. left_at blocks.steps 0 ≡ tree_of blocks.steps) }
{
    let (parts, missing) = parts(alloc, text, lines)?;
    let steps = steps(alloc, parts)?;
    Ok(Blocks::new(steps, missing))
}

// The parts of the lines, and the end that is missing.
fn parts(
    alloc: Global,
    text: &[u8],
    lines: &[LineMark],
) -> Result<(Vec<BlockPart>, Option<Missing>), AllocError>
    requires { AreInOrder (length text.now) lines.now }
    ensures parts { IfOk result (λ found. found.0.items ≡ block_parts (heads_of text.now lines.now)) }
    ensures missing { IfOk result (λ found. found.1 ≡ missing_end (heads_of text.now lines.now)) }
{
    let mut parts = Vec::with_capacity(alloc, lines.len())?;
    let mut scan = Scan::new(alloc);
    for line in lines {
        parts.push(next_part(alloc, text, line, &mut scan)?)?;
    }
    let missing = scan.missing();
    Ok((parts, missing))
}

// The part of the next line.
fn next_part(
    alloc: Global,
    text: &[u8],
    line: &LineMark,
    scan: &mut Scan,
) -> Result<BlockPart, AllocError>
    requires depth { depth_of scan.old < 2 ^ 63 }
    requires order { line.now.span.start ≤ line.now.span.end }
    requires within { line.now.span.end ≤ length text.now }
    ensures part { IfOk result (λ part. part ≡ block_part scan.old (numbered_role text.now line.now).role) }
    ensures scan { IfOk result (λ _. scan.new ≡ after scan.old (numbered_role text.now line.now)) }
{
    let line = line.line();
    if opens_nothing(text, &line) {
        return Ok(scan.ordinary_part());
    }
    scan.advance(head_of(alloc, text, &line)?)
}

// The steps of lines with these parts, found from the last line to the first.
#[tactic(auto, using(crate::proofs::lemmas::StepListLemmas::ordinary_before))]
fn steps(alloc: Global, mut parts: Vec<BlockPart>) -> Result<StepList, AllocError>
    ensures { IfOk result (λ steps. steps ≡ steps_from 0 parts.items) }
{
    let mut steps = StepList::ordinary(alloc, parts.len())?;
    let mut places = Places::at_end(alloc, parts.len());
    while let Some(part) = parts.pop() {
        let place = parts.len();
        let step = places.step(part, place)?;
        steps.put(place, step)?;
    }
    Ok(steps)
}
