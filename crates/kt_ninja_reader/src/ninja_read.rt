//! Reading a Ninja file.
ghost use Rattle.std.specs.Prelude.{◌≡◌, ◌≤◌, [], true, false, not, nat_eq, drop, length, map, MatchOption};
ghost use Rattle.std.specs.Prelude.{MatchResult, Ok, Some};
ghost use Rattle.std.specs.List.{list_all, prefix_len, starts_with};
ghost use Rattle.kt_ninja.specs.declared.plan.Plan.{Plan as PlanRead};
ghost use Rattle.kt_ninja_reader.specs.declared.read_fault.ReadFault.TheVariants.{Memory as MemoryRefused};
ghost use Rattle.kt_ninja_reader.specs.NinjaRead.{all_parts, begins_part, block_of, cut_lines, is_file_byte, is_sound};
ghost use Rattle.kt_ninja_reader.specs.NinjaRead.{ninja_read, nothing_read, plan_said, read_part, read_parts};
ghost use Rattle.kt_ninja_reader.specs.inner.Reading.{AddsBindings, StopsBlock, build_line, default_line, line_binding};
ghost use Rattle.kt_ninja_reader.specs.inner.Reading.{part_fault, file_part, margin_line, part_before, read_margin};
ghost use Rattle.kt_ninja_reader.specs.inner.Reading.{rule_at_margin};
ghost use Rattle.kt_ninja_reader.specs.views.Reading.{Misreads};
ghost use Rattle.kt_ninja_reader.specs.inner.Parting.{CutsPart};
ghost use Rattle.kt_ninja_reader.specs.inner.Refusals.{Reads, ReadsAs};
ghost use Rattle.kt_ninja_reader.specs.Pieces.{pieces};
ghost use Rattle.kt_ninja.specs.Text.{plan_text};
ghost use Rattle.kt_ninja_reader.specs.inner.Wording.{binding_view};
ghost use Rattle.kt_ninja.specs.Writable.{IsWritable, is_empty};

use crate::bytes::first_byte;
use crate::forms::{Binding, binding_of, build_of, defaults_of, rule_name};
use crate::joined::{is_blank, is_comment, joined_lines};
use crate::line::JoinedLine;
use crate::read_fault::{PartFault, ReadFault};
use crate::spelling::Spelling;
use crate::state::State;
use kt_ninja::Plan;
use std::alloc::Global;

// Whether the line begins a part of the file: it isn't empty, and begins with neither a space nor `#`.
fn begins_part(line: &JoinedLine) -> bool
    ensures { result ≡ begins_part line.now.text }
{
    match first_byte(line.text()) {
        Some((byte, _)) => !matches!(byte, b' ' | b'#'),
        None => false,
    }
}

fn is_file_byte(byte: u8) -> bool
    ensures { result ≡ is_file_byte byte }
{
    !matches!(byte, b'\r' | 0)
}

fn all_file_bytes(text: &[u8]) -> bool
    ensures { result ≡ list_all is_file_byte text.now }
{
    text.iter().all(|byte| is_file_byte(*byte))
}

// Whether the file can have the line: it ends, and has no byte that is refused.
fn is_sound(line: &JoinedLine) -> bool
    ensures { result ≡ is_sound line.now }
{
    line.is_ended() && all_file_bytes(line.text())
}

fn all_sound(lines: &[JoinedLine]) -> bool
    ensures { result ≡ list_all is_sound lines.now }
{
    lines.iter().all(|line| is_sound(line))
}

fn no_bindings(block: &[Binding]) -> bool
    ensures { result ≡ is_empty (map binding_view block.now) }
{
    block.is_empty()
}

// The text as a spelling.
fn spelling(text: &[u8]) -> Result<Spelling<'_>, PartFault>
    ensures { Reads result (pieces text.now) }
{
    match Spelling::of(text) {
        Some(spelling) => Ok(spelling),
        None => Err(PartFault::NoReading),
    }
}

// The binding that a line is.
fn line_binding(alloc: Global, text: &[u8]) -> Result<Binding<'_>, PartFault>
    ensures { ReadsAs binding_view result (line_binding text.now) }
{
    let line = spelling(text)?;
    binding_of(alloc, &line)
}

// Adds a line to a block, and returns whether the block is closed after it.
#[tactic(auto, using(crate::proofs::lemmas::ReaderLemmas::blank_adds, crate::proofs::lemmas::ReaderLemmas::comment_adds))]
fn add_line<'t>(
    alloc: Global,
    closed: bool,
    bindings: &mut Vec<Binding<'t>>,
    line: &'t JoinedLine<'t>,
) -> Result<bool, PartFault>
    ensures { MatchResult result (λ now. AddsBindings closed (map binding_view bindings.old.items) line.now now
        (map binding_view bindings.new.items)) (StopsBlock closed line.now) }
{
    let text = line.text();
    if is_comment(text) {
        return Ok(closed);
    }
    if is_blank(text) {
        return Ok(true);
    }
    if closed {
        return Err(PartFault::NoReading);
    }
    bindings.push(line_binding(alloc, text)?)?;
    Ok(false)
}

// The bindings of a block.
fn block<'t>(alloc: Global, body: &'t [JoinedLine<'t>]) -> Result<Vec<Binding<'t>>, PartFault>
    ensures { ReadsAs (λ block. map binding_view block.items) result (block_of body.now) }
{
    let mut bindings = Vec::new(alloc);
    let mut closed = false;
    for line in body {
        closed = add_line(alloc, closed, &mut bindings, line)?;
    }
    Ok(bindings)
}

// What stands after `rule`.
fn read_rule_line<'t>(
    alloc: Global,
    state: State<'t>,
    block: &[Binding<'t>],
    text: &'t [u8],
) -> Result<State<'t>, PartFault>
    ensures { Reads result (rule_at_margin state.entry (map binding_view block.now) text.now) }
{
    let line = spelling(text)?;
    let name = rule_name(alloc, &line)?;
    state.read_rule(name, block)
}

// What stands after `build`.
fn read_build_line<'t>(
    alloc: Global,
    state: State<'t>,
    block: &[Binding<'t>],
    text: &'t [u8],
) -> Result<State<'t>, PartFault>
    ensures { Reads result (build_line state.entry (map binding_view block.now) text.now) }
{
    let line = spelling(text)?;
    let build = build_of(alloc, &line)?;
    state.read_build(&build, block)
}

// What stands after `default`, which has no block.
fn read_default_line<'t>(
    alloc: Global,
    state: State<'t>,
    block: &[Binding<'t>],
    text: &'t [u8],
) -> Result<State<'t>, PartFault>
    ensures { Reads result (default_line state.entry (map binding_view block.now) text.now) }
{
    if !no_bindings(block) {
        return Err(PartFault::NoReading);
    }
    let line = spelling(text)?;
    let paths = defaults_of(alloc, &line)?;
    state.read_default(paths.as_slice())
}

// A binding at the margin, which has no block.
fn read_margin_line<'t>(
    alloc: Global,
    state: State<'t>,
    block: &[Binding<'t>],
    text: &'t [u8],
) -> Result<State<'t>, PartFault>
    ensures { Reads result (margin_line state.entry (map binding_view block.now) text.now) }
{
    if !no_bindings(block) {
        return Err(PartFault::NoReading);
    }
    let binding = line_binding(alloc, text)?;
    Ok(state.bind(&binding)?)
}

// What stands after the keyword, if the text begins with it.
#[tactic(auto, using(crate::proofs::lemmas::Stripping::stripped))]
fn past<'t>(keyword: &[u8], text: &'t [u8]) -> Option<&'t [u8]>
    ensures { MatchOption result (starts_with nat_eq text.now keyword.now ≡ false)
        (λ rest. (starts_with nat_eq text.now keyword.now ≡ true) × (rest.now ≡ drop (length keyword.now) text.now)) }
{
    text.strip_prefix(keyword)
}

// A line at the margin, with the block below it.
#[tactic(auto, unfolding(crate::specs::Forms::margin_form))]
fn read_text<'t>(
    alloc: Global,
    state: State<'t>,
    block: &[Binding<'t>],
    text: &'t [u8],
) -> Result<State<'t>, PartFault>
    ensures { Reads result (read_margin state.entry (map binding_view block.now) text.now) }
{
    if let Some(rest) = past(b"rule ", text) {
        return read_rule_line(alloc, state, block, rest);
    }
    if let Some(rest) = past(b"build ", text) {
        return read_build_line(alloc, state, block, rest);
    }
    if let Some(rest) = past(b"default ", text) {
        return read_default_line(alloc, state, block, rest);
    }
    read_margin_line(alloc, state, block, text)
}

// The lines before the first that begins a part.
#[tactic(auto, unfolding(crate::specs::NinjaRead::read_part))]
fn read_before<'t>(alloc: Global, body: &'t [JoinedLine<'t>]) -> Result<(), PartFault>
    ensures { ReadsAs (λ _. nothing_read) result (read_part nothing_read (part_before body.now)) }
{
    if !all_sound(body) {
        return Err(PartFault::NoReading);
    }
    let block = block(alloc, body)?;
    if no_bindings(block.as_slice()) {
        Ok(())
    } else {
        Err(PartFault::NoReading)
    }
}

// A part of the file: the line that begins it, and the lines up to the next such line.
#[tactic(auto, unfolding(crate::specs::NinjaRead::read_part))]
fn read_part<'t>(
    alloc: Global,
    state: State<'t>,
    head: &'t JoinedLine<'t>,
    body: &'t [JoinedLine<'t>],
) -> Result<State<'t>, PartFault>
    ensures { Reads result (read_part state.entry (file_part head.now body.now)) }
{
    if !is_sound(head) || !all_sound(body) {
        return Err(PartFault::NoReading);
    }
    let block = block(alloc, body)?;
    read_text(alloc, state, block.as_slice(), head.text())
}

// How many lines there are before the next that begins a part.
fn body_length(lines: &[JoinedLine]) -> usize
    ensures value { result ≡ prefix_len (λ line. not (begins_part line.text)) lines.now }
    ensures bound { result ≤ length lines.now }
{
    lines.iter().take_while(|line| !begins_part(line)).count()
}

fn fault_at(number: u64, fault: PartFault) -> ReadFault
    ensures { result ≡ part_fault number fault }
{
    match fault {
        PartFault::NoReading => ReadFault::NotNinja(number),
        PartFault::Memory => ReadFault::Memory,
    }
}

// A part of the file: the line that begins it, those below it, and where the next part begins.
#[derive(Drop)]
struct PartLines<'t> {
    head: &'t JoinedLine<'t>,
    body: &'t [JoinedLine<'t>],
    next: usize,
}

fn lines_from<'t>(lines: &'t [JoinedLine<'t>], from: usize) -> &'t [JoinedLine<'t>]
    requires { from ≤ length lines.now }
    ensures { result.now ≡ drop from lines.now }
{
    &lines[from..]
}

// The part that begins at this line. The place is a number: the borrow checker loses a slice of such lines in a loop.
fn part_at<'t>(lines: &'t [JoinedLine<'t>], from: usize) -> Option<PartLines<'t>>
    requires bound { from ≤ length lines.now }
    requires begun { (cut_lines (drop from lines.now)).before ≡ [] }
    ensures { MatchOption result (drop from lines.now ≡ []) (CutsPart lines.now from) }
{
    let left = lines_from(lines, from);
    match left.split_first() {
        None => None,
        Some((head, after)) => {
            let length = body_length(after);
            let body = &after[..length];
            let next = from + 1 + length;
            Some(PartLines { head, body, next })
        }
    }
}

// The parts of the file, where no line stands before the first.
fn read_parts<'t>(alloc: Global, parts: &'t [JoinedLine<'t>]) -> Result<State<'t>, ReadFault>
    requires { (cut_lines parts.now).before ≡ [] }
    ensures { MatchResult result (λ state. read_parts nothing_read (cut_lines parts.now).parts
        ≡ Ok state) (Misreads (read_parts nothing_read (cut_lines parts.now).parts)) }
{
    let mut state = State::new(alloc);
    let mut from = 0;
    while let Some(part) = part_at(parts, from) {
        match read_part(alloc, state, part.head, part.body) {
            Ok(next) => state = next,
            Err(fault) => return Err(fault_at(part.head.number(), fault)),
        }
        from = part.next;
    }
    Ok(state)
}

// All lines of the file.
#[tactic(auto, using(crate::proofs::lemmas::ReaderLemmas::none_before))]
fn read_lines<'t>(alloc: Global, lines: &'t [JoinedLine<'t>]) -> Result<State<'t>, ReadFault>
    ensures { MatchResult result (λ state. read_parts nothing_read (all_parts (cut_lines lines.now))
        ≡ Ok state) (Misreads (read_parts nothing_read (all_parts (cut_lines lines.now)))) }
{
    let (before, parts) = lines.split_at(body_length(lines));
    if let Err(fault) = read_before(alloc, before) {
        return Err(fault_at(1, fault));
    }
    read_parts(alloc, parts)
}

// The plan that all lines of the file say.
fn plan_of_lines<'t>(alloc: Global, lines: &'t [JoinedLine<'t>]) -> Result<Plan, ReadFault>
    ensures { MatchResult result (λ plan. plan_said lines.now ≡ Ok plan) (Misreads (plan_said lines.now)) }
{
    let state = read_lines(alloc, lines)?;
    match state.into_plan() {
        Ok(plan) => Ok(plan),
        Err(_) => Err(ReadFault::Memory),
    }
}

#[tactic(auto, unfolding(crate::specs::NinjaRead::ninja_read))]
fn read(alloc: Global, text: &[u8]) -> Result<Plan, ReadFault>
    ensures { MatchResult result (λ plan. ninja_read text.now ≡ Ok plan) (Misreads (ninja_read text.now)) }
{
    match joined_lines(alloc, text) {
        Ok(lines) => plan_of_lines(alloc, lines.as_slice()),
        Err(_) => Err(ReadFault::Memory),
    }
}

/// Reads a Ninja file (Ninja manual, "Ninja file reference").
///
/// What a plan is printed as is read as that plan.
pub fn read_plan(alloc: Global, text: &[u8]) -> Result<Plan, ReadFault>
    ensures read { MatchResult result (λ plan. ninja_read text.now ≡ Ok plan) (Misreads (ninja_read text.now)) }
    ensures printed { (plan : PlanRead) → IsWritable plan → text.now ≡ plan_text plan
        → MatchResult result (λ copy. copy ≡ plan) (λ fault. fault ≡ MemoryRefused) }
{
    read(alloc, text)
}
