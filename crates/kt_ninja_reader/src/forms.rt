//! The forms of a line.
ghost use Rattle.std.specs.Prelude.{◌≡◌, ◌++◌, ◌∷◌, [], IfOk, OnOk, MatchOption, Some, None};
ghost use Rattle.std.specs.List.{list_any, slice_split};
ghost use Rattle.kt_ninja_reader.specs.Forms.{binding_of, build_after, build_inputs, build_of, build_with, defaults_of};
ghost use Rattle.kt_ninja_reader.specs.Forms.{is_keyword, is_plain_byte, paths_of, rule_name_in, single_name, spelled_words};
ghost use Rattle.kt_ninja_reader.specs.inner.Cutting.{is_own_byte};
ghost use Rattle.kt_ninja_reader.specs.inner.Wording.{bars_cut, binding_view, build_view, inputs_view, key_of};
ghost use Rattle.kt_ninja_reader.specs.inner.Wording.{some_word, two_bars, two_of};
ghost use Rattle.kt_ninja_reader.specs.inner.Refusals.{Reads, ReadsAs};
ghost use Rattle.std.specs.Prelude.{true};

use crate::read_fault::PartFault;
use crate::spelling::Spelling;
use std::alloc::{AllocError, Global};

// What stands between such bytes.
fn parts<'t>(alloc: Global, mark: u8, line: &Spelling<'t>) -> Result<Vec<Spelling<'t>>, AllocError>
    requires { is_own_byte mark ≡ true }
    ensures { IfOk result (λ parts. parts.items ≡ slice_split (is_plain_byte mark) line.now) }
{
    let mut parts = Vec::new(alloc);
    let mut rest = line.copy();
    while let Some((part, after)) = rest.split(mark) {
        parts.push(part)?;
        rest = after;
    }
    parts.push(rest)?;
    Ok(parts)
}

// Adds the word, if it has a piece.
fn add_word<'t>(words: &mut Vec<Spelling<'t>>, word: Spelling<'t>) -> Result<(), AllocError>
    ensures { OnOk result (words.new.items ≡ words.old.items ++ some_word word.entry) }
{
    if !word.is_empty() {
        words.push(word)?;
    }
    Ok(())
}

// What stands between plain spaces.
fn words<'t>(alloc: Global, line: &Spelling<'t>) -> Result<Vec<Spelling<'t>>, AllocError>
    ensures { IfOk result (λ words. words.items ≡ spelled_words line.now) }
{
    let mut words = Vec::new(alloc);
    let mut rest = line.copy();
    while let Some((word, after)) = rest.split(b' ') {
        add_word(&mut words, word)?;
        rest = after;
    }
    add_word(&mut words, rest)?;
    Ok(words)
}

fn has_plain(mark: u8, line: &Spelling) -> bool
    requires { is_own_byte mark ≡ true }
    ensures { result ≡ list_any (is_plain_byte mark) line.now }
{
    line.split(mark).is_some()
}

// The name that one word is.
fn name_in<'t>(words: &[Spelling<'t>]) -> Option<&'t [u8]>
    ensures { MatchOption result (single_name words.now ≡ None) (λ name. single_name words.now ≡ Some name.now) }
{
    match words {
        [word] => word.name(),
        _ => None,
    }
}

/// The name after `rule`.
pub(crate) fn rule_name<'t>(alloc: Global, line: &Spelling<'t>) -> Result<&'t [u8], PartFault>
    ensures { ReadsAs (λ name. name.now) result (rule_name_in line.now) }
{
    let words = words(alloc, line)?;
    match name_in(words.as_slice()) {
        Some(name) => Ok(name),
        None => Err(PartFault::NoReading),
    }
}

/// A variable and what it is set to.
#[derive(Drop)]
pub(crate) struct Binding<'t> {
    pub(crate) key: &'t [u8],
    pub(crate) value: Spelling<'t>,
}

fn is_keyword(name: &[u8]) -> bool
    ensures { result ≡ is_keyword name.now }
{
    name == b"rule".as_slice()
        || name == b"build".as_slice()
        || name == b"default".as_slice()
        || name == b"include".as_slice()
        || name == b"subninja".as_slice()
        || name == b"pool".as_slice()
}

// The key that stands before `=`.
#[tactic(auto, using(crate::proofs::lemmas::LineLemmas::key_free, crate::proofs::lemmas::LineLemmas::key_taken))]
fn key<'t>(alloc: Global, front: &Spelling<'t>) -> Result<&'t [u8], PartFault>
    ensures { ReadsAs (λ key. key.now) result (key_of front.now) }
{
    let words = words(alloc, front)?;
    let Some(name) = name_in(words.as_slice()) else {
        return Err(PartFault::NoReading);
    };
    if is_keyword(name) {
        return Err(PartFault::NoReading);
    }
    Ok(name)
}

/// The binding of a key to what stands after the first `=`.
pub(crate) fn binding_of<'t>(alloc: Global, line: &Spelling<'t>) -> Result<Binding<'t>, PartFault>
    ensures { ReadsAs binding_view result (binding_of line.now) }
{
    let Some((front, value)) = line.split(b'=') else {
        return Err(PartFault::NoReading);
    };
    Ok(Binding {
        key: key(alloc, &front)?,
        value: value.without_lead(),
    })
}

/// What a build line names after its rule.
#[derive(Drop)]
pub(crate) struct BuildInputs<'t> {
    pub(crate) explicit: Vec<Spelling<'t>>,
    pub(crate) implicit: Vec<Spelling<'t>>,
    pub(crate) order_only: Vec<Spelling<'t>>,
}

/// A build line.
#[derive(Drop)]
pub(crate) struct Build<'t> {
    pub(crate) outs: Vec<Spelling<'t>>,
    pub(crate) rule: &'t [u8],
    pub(crate) inputs: BuildInputs<'t>,
}

// Paths without a bar, at least one.
fn paths<'t>(alloc: Global, line: &Spelling<'t>) -> Result<Vec<Spelling<'t>>, PartFault>
    ensures { ReadsAs (λ paths. paths.items) result (paths_of line.now) }
{
    let words = words(alloc, line)?;
    if words.is_empty() || has_plain(b'|', line) {
        return Err(PartFault::NoReading);
    }
    Ok(words)
}

// The two parts, if there are two.
fn two<'t>(parts: &[Spelling<'t>]) -> Option<(Spelling<'t>, Spelling<'t>)>
    ensures { MatchOption result (two_of parts.now ≡ None) (λ both. parts.now ≡ both.0 ∷ both.1 ∷ []) }
{
    match parts {
        [first, second] => Some((first.copy(), second.copy())),
        _ => None,
    }
}

// What stands after two bars, by what stands between them, which is nothing, and after them.
fn after_two_bars<'t>(parts: &[Spelling<'t>]) -> Result<Spelling<'t>, PartFault>
    ensures { Reads result (two_bars parts.now) }
{
    match two(parts) {
        Some((between, order)) if between.is_empty() => Ok(order),
        _ => Err(PartFault::NoReading),
    }
}

// What stands after one bar and after two, by the parts between the bars.
fn after_bars<'t>(bars: &[Spelling<'t>]) -> Result<(Spelling<'t>, Spelling<'t>), PartFault>
    ensures { ReadsAs (λ cut. (cut.0, cut.1)) result (bars_cut bars.now) }
{
    let Some((implicit, later)) = bars.split_first() else {
        return Ok((Spelling::empty(), Spelling::empty()));
    };
    if implicit.begins_with_at() {
        return Err(PartFault::NoReading);
    }
    if later.is_empty() {
        return Ok((implicit.copy(), Spelling::empty()));
    }
    if implicit.is_empty() {
        return Ok((Spelling::empty(), after_two_bars(bars)?));
    }
    Ok((implicit.copy(), after_two_bars(later)?))
}

// Copies of spellings.
fn copy<'t>(alloc: Global, words: &[Spelling<'t>]) -> Result<Vec<Spelling<'t>>, AllocError>
    ensures { IfOk result (λ copies. copies.items ≡ words.now) }
{
    let mut copies = Vec::with_capacity(alloc, words.len())?;
    for word in words {
        copies.push(word.copy())?;
    }
    Ok(copies)
}

// What a build line names after its rule, by the words before its first bar and the parts after it.
fn inputs_of<'t>(
    alloc: Global,
    explicit: &[Spelling<'t>],
    bars: &[Spelling<'t>],
) -> Result<BuildInputs<'t>, PartFault>
    ensures { ReadsAs inputs_view result (build_inputs explicit.now bars.now) }
{
    let (implicit, order_only) = after_bars(bars)?;
    Ok(BuildInputs {
        explicit: copy(alloc, explicit)?,
        implicit: words(alloc, &implicit)?,
        order_only: words(alloc, &order_only)?,
    })
}

// A build line of these outputs, by the words before its first bar and the parts after it.
fn build_with<'t>(
    alloc: Global,
    outs: Vec<Spelling<'t>>,
    front: &[Spelling<'t>],
    bars: &[Spelling<'t>],
) -> Result<Build<'t>, PartFault>
    ensures { ReadsAs build_view result (build_with outs.entry.items front.now bars.now) }
{
    let Some((rule, explicit)) = front.split_first() else {
        return Err(PartFault::NoReading);
    };
    let Some(rule) = rule.name() else {
        return Err(PartFault::NoReading);
    };
    let inputs = inputs_of(alloc, explicit, bars)?;
    Ok(Build { outs, rule, inputs })
}

// As `build_with`, by all that stands after the colon.
fn build_after<'t>(
    alloc: Global,
    outs: Vec<Spelling<'t>>,
    rest: &Spelling<'t>,
) -> Result<Build<'t>, PartFault>
    ensures { ReadsAs build_view result (build_after outs.entry.items (slice_split (is_plain_byte 124) rest.now)) }
{
    let bars = parts(alloc, b'|', rest)?;
    let Some((front, past)) = bars.as_slice().split_first() else {
        return Err(PartFault::NoReading);
    };
    let front = words(alloc, front)?;
    build_with(alloc, outs, front.as_slice(), past)
}

/// What stands after `build`.
#[tactic(auto, using(crate::proofs::lemmas::LineLemmas::build_none, crate::proofs::lemmas::LineLemmas::sides_read))]
pub(crate) fn build_of<'t>(alloc: Global, line: &Spelling<'t>) -> Result<Build<'t>, PartFault>
    ensures { ReadsAs build_view result (build_of line.now) }
{
    let sides = parts(alloc, b':', line)?;
    let Some((outs, rest)) = two(sides.as_slice()) else {
        return Err(PartFault::NoReading);
    };
    let outs = paths(alloc, &outs)?;
    build_after(alloc, outs, &rest)
}

/// What stands after `default`.
pub(crate) fn defaults_of<'t>(
    alloc: Global,
    line: &Spelling<'t>,
) -> Result<Vec<Spelling<'t>>, PartFault>
    ensures { ReadsAs (λ paths. paths.items) result (defaults_of line.now) }
{
    if has_plain(b':', line) {
        return Err(PartFault::NoReading);
    }
    paths(alloc, line)
}
