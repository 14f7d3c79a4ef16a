//! Reads rule lines as entries.
ghost use Rattle.std.specs.Prelude.{◌≡◌, false, option_map, IfOk};
ghost use Rattle.std.specs.List.{list_all, list_any};
ghost use Rattle.kt_text.specs.Match.{has_percent};
ghost use Rattle.kt_text.specs.Words.{is_separator, words_of};
ghost use Rattle.kt_rules.specs.views.Refusals.{GivesExpected};
ghost use Rattle.kt_rules.specs.Refusals.{rule_line_faults};
ghost use Rattle.kt_rules.specs.Entry.{is_nil, kind_of, recipe_on_line, rule_of, rule_with, rules_with};
ghost use Rattle.kt_rules.specs.Entry.{tested_line};
ghost use Rattle.kt_rules.specs.inner.Telling.{Tells};

use crate::fault::RuleFault;
use crate::line::checking::{any_percent, line_refusal};
use crate::line::entry::{Entry, Kind, RecipeLine, first_line};
use crate::line::head::{Separator, cut_head};
use crate::line::head_names::HeadNames;
use crate::line::signs::Signs;
use crate::line::static_pattern::StaticPattern;
use crate::place::Place;
use kt_list::Shared;
use kt_text::is_separator;
use std::alloc::{AllocError, Global};

/// The entry of a rule line.
///
/// `text` is the expanded head and `recipe` the unexpanded text after the first `;`, if there is
/// one. A line without targets is an entry without targets. POSIX.1-2024 make, "Target Rules"; GNU
/// make manual, "Rule Syntax".
///
/// Refuses, with the number of the fault: a line without `:` or with too many, with targets of which only some are
/// patterns, or with a static pattern and a target that is a pattern itself (5); names that kati doesn't accept (20,
/// 22); a bad static pattern, or a target that it doesn't match (21); a group of special targets or patterns, with two
/// colons or with a static pattern (35).
#[tactic(auto, using(crate::proofs::lemmas::line::ReadingLemmas::blank_rule))]
pub fn read_rule(
    alloc: Global,
    text: &[u8],
    recipe: Option<Shared<u8>>,
    place: Place,
) -> Result<Entry, RuleFault>
    ensures { GivesExpected result (rule_of text.now recipe place) }
{
    if is_blank(text) {
        return Ok(entry(alloc, HeadNames::empty(alloc), false, recipe, place)?);
    }
    let head = match cut_head(text) {
        Ok(head) => head,
        Err(refusal) => return Err(refusal.at(alloc, place)),
    };
    let signs = Signs::of(&head);
    match HeadNames::of(alloc, &head, signs) {
        Ok(line) => accepted(alloc, line, signs, recipe, place),
        Err(AllocError) => Err(RuleFault::Memory),
    }
}

// The entry of a line, unless its names are refused.
#[inline(always)]
pub(crate) fn accepted(
    alloc: Global,
    line: HeadNames,
    signs: Signs,
    recipe: Option<Shared<u8>>,
    place: Place,
) -> Result<Entry, RuleFault>
    requires { Tells signs line }
    ensures { GivesExpected result (rule_line_faults place (rules_with (tested_line line) recipe place)) }
{
    if let Some(refusal) = line_refusal(&line, signs) {
        return Err(refusal.at(alloc, place));
    }
    if line.targets.as_slice().is_empty() {
        return Ok(entry(alloc, HeadNames::empty(alloc), false, recipe, place)?);
    }
    Ok(entry(alloc, line, signs.percent, recipe, place)?)
}

// Whether the text has no word.
#[tactic(auto, using(crate::proofs::lemmas::line::ReadingLemmas::blank_words))]
pub(crate) fn is_blank(text: &[u8]) -> bool
    ensures { result ≡ is_nil (words_of text.now) }
{
    has_separators_only(text)
}

fn has_separators_only(text: &[u8]) -> bool
    ensures { result ≡ list_all is_separator text.now }
{
    text.iter().all(|byte| is_separator(*byte))
}

// The entry of a line, given whether its targets may have a percent sign.
fn entry(
    alloc: Global,
    line: HeadNames,
    percent: bool,
    recipe: Option<Shared<u8>>,
    place: Place,
) -> Result<Entry, AllocError>
    requires { percent ≡ false → list_any has_percent line.targets ≡ false }
    ensures { IfOk result (λ entry. entry ≡ rule_with line recipe place) }
{
    let has_percent = percent && any_percent(line.targets.as_slice());
    let kind = kind_of(line.separator, has_percent);
    let recipe = recipe_of(alloc, recipe, &place)?;
    let HeadNames {
        separator: _,
        targets,
        pattern,
        needs,
    } = line;
    let pattern = StaticPattern::of(alloc, pattern)?;
    Ok(Entry {
        alloc,
        kind,
        targets,
        pattern,
        needs,
        recipe,
        place,
    })
}

// The kind of a rule, from its separator and whether its targets have a percent sign.
fn kind_of(separator: Separator, has_percent: bool) -> Kind
    ensures { result ≡ kind_of separator has_percent }
{
    match (separator, has_percent) {
        (Separator::Single, false) => Kind::SingleColon,
        (Separator::Single, true) => Kind::Pattern,
        (Separator::Double, false) => Kind::DoubleColon,
        (Separator::Double, true) => Kind::TerminalPattern,
        (Separator::Grouped, _) => Kind::Group,
    }
}

// The recipe that begins after the semicolon of the rule line, if there is one.
fn recipe_of(
    alloc: Global,
    recipe: Option<Shared<u8>>,
    place: &Place,
) -> Result<Option<Vec<RecipeLine>>, AllocError>
    ensures { IfOk result (λ lines. option_map (λ v. v.items) lines ≡ recipe_on_line recipe place.now) }
{
    let Some(text) = recipe else {
        return Ok(None);
    };
    let place = place.share()?;
    Ok(Some(first_line(alloc, RecipeLine { text, place })?))
}
