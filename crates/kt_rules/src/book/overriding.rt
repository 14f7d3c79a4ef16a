//! The warnings on targets that get a second recipe.
//! Fast: a rule's targets have numbers before it is told which of them have a recipe. Spares a hash a target.
ghost use Rattle.std.specs.Prelude.{◌≡◌, ◌++◌, ◌∷◌, ◌&&◌, ◌<◌, [], IfOk, OnOk, is_some, length, map, if◌then◌else◌};
ghost use Rattle.kt_list.specs.views.Names.{AreBelow, name_at};
ghost use Rattle.kt_rules.specs.Book.{is_made, override_message};
ghost use Rattle.kt_rules.specs.inner.Slots.{first_found, found_targets, noted_messages, spots_at};
ghost use Rattle.kt_rules.specs.views.Targets.{entry_view};
ghost use Rattle.kt_rules.specs.inner.Held.{numbered_target};

use super::Warnings;
use super::book_rule::BookRule;
use super::lists::SpotLists;
use super::rules::Rules;
use super::target_rule::{first_rule, is_made, is_single};
use crate::place::Place;
use kt_list::Sequence;
use std::alloc::{AllocError, Global};

/// The warnings on a rule, given the spots of the rules before it that have a recipe.
pub(crate) fn warnings(
    alloc: Global,
    rules: &Rules,
    recipes: &SpotLists,
    rule: BookRule<'_>,
) -> Result<Warnings, AllocError>
    requires { AreBelow (length rule.names.now) rule.targets.now }
    ensures { IfOk result (λ warnings. warnings
        ≡ noted_messages rules.now.1 (rule.entry.names.now, recipes.now) (entry_view rule.entry)) }
{
    if !(is_single(rule.kind()) && rule.recipe().is_some()) {
        return Ok(Sequence::from(Vec::new(alloc)));
    }
    second_recipes(alloc, rules, recipes, rule)
}

fn second_recipes(
    alloc: Global,
    rules: &Rules,
    recipes: &SpotLists,
    rule: BookRule<'_>,
) -> Result<Warnings, AllocError>
    requires { AreBelow (length rule.names.now) rule.targets.now }
    ensures { IfOk result (λ warnings. warnings ≡ map (override_message (entry_view rule.entry).place)
        (found_targets rules.now.1 (rule.entry.names.now, recipes.now) (entry_view rule.entry))) }
{
    let mut warnings = Vec::new(alloc);
    for number in rule.targets {
        warn(alloc, rules, recipes, rule, *number as usize, &mut warnings)?;
    }
    Ok(Sequence::from(warnings))
}

// Appends the warning on the target whose name has the number, if it gets a second recipe.
fn warn(
    alloc: Global,
    rules: &Rules,
    recipes: &SpotLists,
    rule: BookRule<'_>,
    number: usize,
    warnings: &mut Vec<Sequence<u8>>,
) -> Result<(), AllocError>
    requires { number < length rule.names.now }
    ensures { OnOk result (warnings.new.items ≡ warnings.old.items
        ++ (if is_made (entry_view rule.entry) (numbered_target rule.entry number)
        && is_some (first_found rules.now.1
        (spots_at (rule.entry.names.now, recipes.now) (name_at rule.entry.names.now number)))
        then override_message (entry_view rule.entry).place (numbered_target rule.entry number) ∷ [] else [])) }
{
    let name = rule.names.name_at(number);
    if is_made(rule.kind(), name) && has_recipe(rules, recipes, rule, number) {
        warnings.push(override_message(alloc, rule.place(), name)?)?;
    }
    Ok(())
}

// Whether a rule of the target whose name has the number has a recipe.
fn has_recipe(rules: &Rules, recipes: &SpotLists, rule: BookRule<'_>, number: usize) -> bool
    requires { number < length rule.names.now }
    ensures { result ≡ is_some (first_found rules.now.1
        (spots_at (rule.entry.names.now, recipes.now) (name_at rule.entry.names.now number))) }
{
    // The contract of `len` makes known that the names differ.
    let _count = rule.names.len();
    first_rule(rules, recipes.noted(number)).is_some()
}

fn override_message(alloc: Global, place: &Place, name: &[u8]) -> Result<Sequence<u8>, AllocError>
    ensures { IfOk result (λ text. text ≡ override_message place.now (record { name = name.now; stemmed = None })) }
{
    let mut text = Vec::new(alloc);
    place.append_to(&mut text)?;
    text.extend_from_slice(b": warning: overriding recipe for target '")?;
    text.extend_from_slice(name)?;
    text.push(b'\'')?;
    Ok(Sequence::from(text))
}
