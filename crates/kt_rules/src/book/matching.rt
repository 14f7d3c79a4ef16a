//! The pattern rules of a book.
//! Fast: a rule with prerequisites or without a recipe isn't looked at for suffix rules. Spares a look at each target.
ghost use Rattle.std.specs.Prelude.{◌≡◌, ◌++◌, ◌||◌, ◌∷◌, [], IfOk, OnOk, flat_map, option_map, if◌then◌else◌};
ghost use Rattle.kt_rules.specs.Book.{pattern_rule, patterns_in, repeats, unrepeated};
ghost use Rattle.kt_rules.specs.Entry.{Entry};
ghost use Rattle.kt_rules.specs.inner.Patterns.{form_view, has_pattern, stays_before, suffix_rules_at, suffix_rules_in};
ghost use Rattle.kt_rules.specs.Suffixes.{percent, suffix_patterns};
ghost use Rattle.kt_rules.specs.views.Targets.{entry_view, target_view};

use super::book_rule::BookRule;
use super::entries::Entries;
use super::pattern::{Pattern, PatternForm};
use super::pattern_set::PatternSet;
use super::rules::Rules;
use super::suffixes::Suffixes;
use super::target_rule::{TargetRule, is_bare, is_made, is_pattern, may_be_bare};
use crate::copying::{copied_needs, copied_targets};
use crate::line::entry::{Kind, Name, Needs, Target};
use kt_list::Sequence;
use std::alloc::{AllocError, Global};

/// The pattern rules of the entries, suffix rules among them, including those that a later one repeats.
pub(crate) fn candidates<'a>(
    alloc: Global,
    suffixes: &Suffixes,
    rules: &'a Rules,
) -> Result<Vec<Pattern<'a>>, AllocError>
    ensures { IfOk result (λ patterns. patterns.items ≡ flat_map (patterns_in suffixes.now) rules.now.1) }
{
    let mut patterns = Vec::new(alloc);
    for entry in Entries::new(rules) {
        add_entry(alloc, suffixes, entry, &mut patterns)?;
    }
    Ok(patterns)
}

fn add_entry<'a>(
    alloc: Global,
    suffixes: &Suffixes,
    entry: BookRule<'a>,
    patterns: &mut Vec<Pattern<'a>>,
) -> Result<(), AllocError>
    ensures { OnOk result (patterns.new.items
        ≡ patterns.old.items ++ patterns_in suffixes.now (entry_view entry.entry)) }
{
    if is_pattern(entry.kind()) {
        let form = own_form(alloc, entry)?;
        patterns.push(Pattern { entry, form })?;
        return Ok(());
    }
    add_suffix_rules(alloc, suffixes, entry, patterns)
}

// Appends the suffix rules of an entry as pattern rules. Where it can't have one, no target is looked at.
fn add_suffix_rules<'a>(
    alloc: Global,
    suffixes: &Suffixes,
    entry: BookRule<'a>,
    patterns: &mut Vec<Pattern<'a>>,
) -> Result<(), AllocError>
    ensures { OnOk result (patterns.new.items
        ≡ patterns.old.items ++ suffix_rules_in suffixes.now (entry_view entry.entry)) }
{
    if may_be_bare(entry) {
        return add_each_suffix_rule(alloc, suffixes, entry, patterns);
    }
    Ok(())
}

fn add_each_suffix_rule<'a>(
    alloc: Global,
    suffixes: &Suffixes,
    entry: BookRule<'a>,
    patterns: &mut Vec<Pattern<'a>>,
) -> Result<(), AllocError>
    ensures { OnOk result (patterns.new.items
        ≡ patterns.old.items ++ suffix_rules_in suffixes.now (entry_view entry.entry)) }
{
    for target in entry.targets() {
        add_suffix_rule(alloc, suffixes, TargetRule { entry, target }, patterns)?;
    }
    Ok(())
}

// Appends the suffix rule of a target as a pattern rule, if it is one.
fn add_suffix_rule<'a>(
    alloc: Global,
    suffixes: &Suffixes,
    rule: TargetRule<'a>,
    patterns: &mut Vec<Pattern<'a>>,
) -> Result<(), AllocError>
    ensures { OnOk result (patterns.new.items ≡ patterns.old.items
        ++ suffix_rules_at suffixes.now (entry_view rule.entry.entry) (target_view rule.entry.target)) }
{
    if !(is_made(rule.entry.kind(), rule.target.name) && is_bare(rule)) {
        return Ok(());
    }
    if let Some(form) = named_form(alloc, suffixes, rule.target.name)? {
        patterns.push(Pattern {
            entry: rule.entry,
            form,
        })?;
    }
    Ok(())
}

// The targets and prerequisites of a suffix rule with this name as a pattern rule, if the name is that of one.
fn named_form(
    alloc: Global,
    suffixes: &Suffixes,
    name: &[u8],
) -> Result<Option<PatternForm>, AllocError>
    ensures { IfOk result (λ form. (rule : Entry) → option_map (form_view rule) form
        ≡ option_map (pattern_rule rule) (suffix_patterns suffixes.now name.now)) }
{
    if suffixes.contains(name) {
        return Ok(Some(suffix_form(alloc, b"", name)?));
    }
    match suffixes.cut(name) {
        Some(place) => Ok(Some(suffix_form(alloc, &name[place..], &name[..place])?)),
        None => Ok(None),
    }
}

// The targets and prerequisites of an entry that is a pattern rule.
fn own_form(alloc: Global, entry: BookRule<'_>) -> Result<PatternForm, AllocError>
    ensures { IfOk result (λ form. form_view (entry_view entry.entry) form ≡ entry_view entry.entry) }
{
    let targets = copied_targets(alloc, entry.targets())?;
    let needs = copied_needs(alloc, entry.shared_needs())?;
    Ok(PatternForm {
        kind: entry.kind(),
        targets,
        needs,
    })
}

// The form of a suffix rule that makes names with one suffix from names with another.
fn suffix_form(alloc: Global, made: &[u8], needed: &[u8]) -> Result<PatternForm, AllocError>
    ensures { IfOk result (λ form. (rule : Entry)
        → form_view rule form ≡ pattern_rule rule (percent ++ made.now, percent ++ needed.now)) }
{
    let target = Target {
        name: Name::from(with_percent(alloc, made)?),
        stemmed: None,
    };
    let prerequisite = Name::from(with_percent(alloc, needed)?);
    let targets = Vec::from_array(alloc, [target])?;
    let prerequisites = Vec::from_array(alloc, [prerequisite])?;
    Ok(PatternForm {
        kind: Kind::Pattern,
        targets,
        needs: Needs {
            prerequisites: Sequence::from(prerequisites),
            order_only: Sequence::from(Vec::new(alloc)),
        },
    })
}

fn with_percent(alloc: Global, suffix: &[u8]) -> Result<Vec<u8>, AllocError>
    ensures { IfOk result (λ name. name.items ≡ percent ++ suffix.now) }
{
    let mut name = Vec::from_slice(alloc, b"%")?;
    name.extend_from_slice(suffix)?;
    Ok(name)
}

/// The pattern rules that have a recipe and that no later one repeats.
#[tactic(auto, using(crate::proofs::lemmas::book::PatternLemmas::sorted_more))]
pub(crate) fn unrepeated<'a>(
    alloc: Global,
    patterns: Vec<Pattern<'a>>,
) -> Result<Vec<Pattern<'a>>, AllocError>
    ensures { IfOk result (λ kept. kept.items ≡ unrepeated patterns.entry.items) }
{
    let mut left = patterns;
    let mut past = PatternSet::new(alloc);
    let mut kept = Vec::new(alloc);
    while let Some(pattern) = left.pop() {
        sort_in(pattern, &mut kept, &mut past)?;
    }
    kept.reverse();
    Ok(kept)
}

// Appends a pattern rule to those that are kept, if it has a recipe and no later one repeats it.
fn sort_in<'a>(
    pattern: Pattern<'a>,
    kept: &mut Vec<Pattern<'a>>,
    past: &mut PatternSet,
) -> Result<(), AllocError>
    ensures kept { OnOk result (kept.new.items ≡ kept.old.items ++ (if stays_before past.old pattern.entry
        then pattern.entry ∷ [] else [])) }
    ensures past { OnOk result ((rule : Entry)
        → has_pattern past.new rule ≡ (repeats rule pattern.entry || has_pattern past.old rule)) }
{
    let is_last = past.insert(&pattern)?;
    if is_last && pattern.recipe().is_some() {
        kept.push(pattern)?;
    }
    Ok(())
}
