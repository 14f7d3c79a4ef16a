//! Nodes of names from their explicit rules.
ghost use Rattle.std.specs.Prelude.{◌≡◌, IsTrue, None, Some, false, true, MatchOption, fold, map, option_map};
ghost use Rattle.std.specs.Prelude.{IfOk, OnOk};
ghost use Rattle.std.specs.List.{list_any};
ghost use Rattle.kt_text.specs.Words.{Text};
ghost use Rattle.kt_rules.specs.Book.{has_recipe, is_double};
ghost use Rattle.kt_rules.specs.Names.{with_name};
ghost use Rattle.kt_rules.specs.views.Targets.{rule_view, entry_view, targets_view};
ghost use Rattle.kt_rules.specs.Suffixes.{all_needs, suffixes_of};
ghost use Rattle.kt_graph.specs.inner.nodes.GraphBuilder.{AreOf, IsCut};
ghost use Rattle.kt_graph.specs.inner.nodes.Needed.{needed_by_parts};
ghost use Rattle.kt_graph.specs.inner.nodes.Numbering.{SayParts, SaysPart};
ghost use Rattle.kt_graph.specs.inner.nodes.Stored.{part_held, parts_held};
ghost use Rattle.kt_graph.specs.nodes.Node.{first_name, group_of, is_leaf, kind_without, own_part, used_rule};
ghost use Rattle.kt_graph.specs.views.nodes.Node.{instance_view};

use crate::nodes::needing::Needing;
use crate::nodes::node::{Instance, NodeKind};
use crate::nodes::numbering::NameNumbers;
use crate::nodes::part::{NumberedNeeds, NumberedPart, PartRecipe};
use kt_rules::{Book, BookRule, Kind, TargetRule, Targets};
use std::alloc::{AllocError, Global};

/// The rule whose recipe is used, and the rules before it and after it.
#[derive(Clone, Copy)]
pub(crate) struct RecipeRule<'a, 'r> {
    pub(crate) rule: TargetRule<'a>,
    pub(crate) earlier: &'r [TargetRule<'a>],
    pub(crate) later: &'r [TargetRule<'a>],
}

/// The last rule with a recipe, whose recipe is used.
pub(crate) fn used_rule<'a, 'r>(rules: &'r [TargetRule<'a>]) -> Option<RecipeRule<'a, 'r>>
    ensures { MatchOption result (used_rule (map rule_view rules.now) ≡ None)
        (λ used. (used_rule (map rule_view rules.now) ≡ Some (rule_view used.rule))
        × IsCut (map rule_view rules.now) used) }
{
    let mut left = rules;
    while let [earlier @ .., rule] = left {
        if rule.entry.recipe().is_some() {
            return Some(RecipeRule {
                rule: *rule,
                earlier,
                later: &rules[earlier.len() + 1..],
            });
        }
        left = earlier;
    }
    None
}

/// The parts of a name with double-colon rules: each rule is one.
pub(crate) fn double_parts<'a>(
    alloc: Global,
    book: &'a Book,
    names: &mut NameNumbers<'_>,
    rules: &[TargetRule<'a>],
) -> Result<Vec<NumberedPart<'a>>, AllocError>
    ensures say { IfOk result (λ parts. (name : Text) → AreOf name (map rule_view rules.now) → SayParts names.new name
        (map (own_part (suffixes_of book.now)) (map rule_view rules.now)) (parts_held parts.items)) }
    ensures reached { OnOk result (names.new ≡ fold with_name names.old (needed_by_parts
        (map (own_part (suffixes_of book.now)) (map rule_view rules.now)))) }
{
    let mut parts = Vec::with_capacity(alloc, rules.len())?;
    for rule in rules {
        parts.push(double_part(alloc, book, names, *rule)?)?;
    }
    Ok(parts)
}

#[tactic(auto, using(crate::proofs::lemmas::nodes::BuildingLemmas::joined_own))]
fn double_part<'a>(
    alloc: Global,
    book: &'a Book,
    names: &mut NameNumbers<'_>,
    rule: TargetRule<'a>,
) -> Result<NumberedPart<'a>, AllocError>
    ensures says { IfOk result (λ part. SaysPart names.new (rule_view rule.entry).1.name
        (own_part (suffixes_of book.now) (rule_view rule.entry)) (part_held part.part part.needs)) }
    ensures reached { OnOk result (names.new
        ≡ fold with_name names.old (all_needs (own_part (suffixes_of book.now) (rule_view rule.entry)).needs)) }
{
    let mut needs = NumberedNeeds::none(alloc);
    let needing = Needing::after(rule.needs(), &[], &[]);
    names.number_needs(needing, &mut needs)?;
    let part = PartRecipe::of_rule(alloc, book, rule)?;
    Ok(NumberedPart { part, needs })
}

/// Whether one of the rules has two colons.
pub(crate) fn has_double(rules: &[TargetRule]) -> bool
    ensures { result ≡ list_any (λ rule. is_double rule.0.kind) (map rule_view rules.now) }
{
    for rule in rules {
        if is_double(*rule) {
            return true;
        }
    }
    false
}

fn is_double(rule: TargetRule) -> bool
    ensures { result ≡ is_double (rule_view rule.entry).0.kind }
{
    matches!(rule.entry.kind(), Kind::DoubleColon)
}

/// Whether a rule with one colon has a recipe and several targets.
pub(crate) fn makes_several(rule: TargetRule) -> bool
    ensures quick { IsTrue result → (has_recipe (rule_view rule.entry) ≡ true)
        × (is_double (rule_view rule.entry).0.kind ≡ false) }
{
    !is_double(rule) && rule.entry.recipe().is_some() && rule.entry.targets().len() > 1
}

/// The making of a rule, if the rule is a group.
pub(crate) fn group_of(alloc: Global, entry: BookRule<'_>) -> Result<Option<Instance>, AllocError>
    ensures { IfOk result (λ making. option_map instance_view making ≡ group_of (entry_view entry.entry)) }
{
    if !matches!(entry.kind(), Kind::Group) {
        return Ok(None);
    }
    let first = Vec::from_slice(alloc, first_name(entry.targets()))?;
    Ok(Some(Instance::Group(first)))
}

fn first_name<'r>(targets: Targets<'r>) -> &'r [u8]
    ensures { result.now ≡ first_name (targets_view targets.entry) }
{
    match targets.get(0) {
        Some(first) => first.name,
        None => b"",
    }
}

/// The kind of a name without recipe.
pub(crate) fn kind_without(rules: &[TargetRule], is_phony: bool) -> NodeKind
    ensures { result ≡ kind_without (map rule_view rules.now) is_phony }
{
    if !rules.is_empty() {
        NodeKind::Explicit
    } else if is_phony {
        NodeKind::Phony
    } else {
        NodeKind::Leaf
    }
}

/// Whether a name without recipe is a leaf.
pub(crate) fn is_leaf(rules: &[TargetRule], is_phony: bool) -> bool
    ensures { result ≡ is_leaf (kind_without (map rule_view rules.now) is_phony) }
{
    matches!(kind_without(rules, is_phony), NodeKind::Leaf)
}
