//! Adds what a rule says to the spots, phony names and suffixes of a book.
ghost use Rattle.std.specs.Prelude.{◌≡◌, ◌++◌, [], ◌<◌, ◌≤◌, IfOk, OnErr, OnOk, Some, fold, is_some, if◌then◌else◌, length, slice_get};
ghost use Rattle.kt_text.specs.Words.{Text};
ghost use Rattle.kt_rules.specs.Book.{phony_of};
ghost use Rattle.kt_rules.specs.Names.{with_name};
ghost use Rattle.kt_rules.specs.inner.Slots.{GotRecipes, GotSpots, GrewIn, noted_messages, spots_at, target_spots};
ghost use Rattle.kt_rules.specs.Suffixes.{suffixes_after};
ghost use Rattle.kt_rules.specs.views.Targets.{entry_view};
ghost use Rattle.kt_rules.specs.Entry.{Entry};
ghost use Rattle.kt_rules.specs.inner.Held.{numbered_target};
ghost use Rattle.kt_list.specs.views.Names.{AreBelow};

use super::Warnings;
use super::book_rule::BookRule;
use super::overriding::warnings;
use super::rules::Rules;
use super::special::{learn_phony, learn_suffixes};
use super::spot::Spot;
use super::spots::Spots;
use super::suffixes::Suffixes;
use super::target_rule::is_made;
use kt_list::{Names, Sequence};
use std::alloc::{AllocError, Global};

/// Adds what the rule at a place says, and returns the warnings on targets that get a second recipe. If memory runs
/// out, some targets may be noted, but the names are as they were.
pub(crate) fn learn(
    alloc: Global,
    rules: &Rules,
    spots: &mut Spots,
    phony: &mut Names,
    suffixes: &mut Suffixes,
    place: usize,
) -> Result<Warnings, AllocError>
    ensures told { (rule : Entry) → slice_get rules.now.1 place ≡ Some rule → IfOk result
        (λ warnings. warnings ≡ noted_messages rules.now.1 (rules.now.0, spots.old.recipes) rule) }
    ensures targets_noted { (rule : Entry) → slice_get rules.now.1 place ≡ Some rule → OnOk result
        (GotSpots rule place (rules.now.0, spots.old.targets) (rules.now.0, spots.new.targets)) }
    ensures recipes_noted { (rule : Entry) → slice_get rules.now.1 place ≡ Some rule → OnOk result
        (GotRecipes rule place (rules.now.0, spots.old.recipes) (rules.now.0, spots.new.recipes)) }
    ensures phony_learned { (rule : Entry) → slice_get rules.now.1 place ≡ Some rule → OnOk result
        (phony.new ≡ fold with_name phony.old (phony_of rule)) }
    ensures suffixes_learned { (rule : Entry) → slice_get rules.now.1 place ≡ Some rule → OnOk result
        (suffixes.new ≡ suffixes_after suffixes.old rule) }
    ensures targets_refused { OnErr result
        (GrewIn place (rules.now.0, spots.old.targets) (rules.now.0, spots.new.targets)) }
    ensures recipes_refused { OnErr result
        (GrewIn place (rules.now.0, spots.old.recipes) (rules.now.0, spots.new.recipes)) }
    ensures phony_refused { OnErr result (phony.new ≡ phony.old) }
    ensures suffixes_refused { OnErr result (suffixes.new ≡ suffixes.old) }
    ensures targets_within { length spots.old.targets ≤ length rules.now.0
        → length spots.new.targets ≤ length rules.now.0 }
    ensures recipes_within { length spots.old.recipes ≤ length rules.now.0
        → length spots.new.recipes ≤ length rules.now.0 }
{
    match rules.get(place) {
        Some(rule) => {
            let warnings = warnings(alloc, rules, &spots.recipes, rule)?;
            learn_rule(alloc, spots, phony, suffixes, rule, place)?;
            Ok(warnings)
        }
        None => Ok(Sequence::from(Vec::new(alloc))),
    }
}

fn learn_rule(
    alloc: Global,
    spots: &mut Spots,
    phony: &mut Names,
    suffixes: &mut Suffixes,
    rule: BookRule<'_>,
    place: usize,
) -> Result<(), AllocError>
    requires { AreBelow (length rule.names.now) rule.targets.now }
    ensures targets_noted { OnOk result (GotSpots (entry_view rule.entry) place
        (rule.entry.names.now, spots.old.targets) (rule.entry.names.now, spots.new.targets)) }
    ensures recipes_noted { OnOk result (GotRecipes (entry_view rule.entry) place
        (rule.entry.names.now, spots.old.recipes) (rule.entry.names.now, spots.new.recipes)) }
    ensures phony_learned { OnOk result (phony.new ≡ fold with_name phony.old (phony_of (entry_view rule.entry))) }
    ensures suffixes_learned { OnOk result (suffixes.new ≡ suffixes_after suffixes.old (entry_view rule.entry)) }
    ensures targets_refused { OnErr result (GrewIn place
        (rule.entry.names.now, spots.old.targets) (rule.entry.names.now, spots.new.targets)) }
    ensures recipes_refused { OnErr result (GrewIn place
        (rule.entry.names.now, spots.old.recipes) (rule.entry.names.now, spots.new.recipes)) }
    ensures phony_refused { OnErr result (phony.new ≡ phony.old) }
    ensures suffixes_refused { OnErr result (suffixes.new ≡ suffixes.old) }
    ensures targets_within { length spots.old.targets ≤ length rule.entry.names.now
        → length spots.new.targets ≤ length rule.entry.names.now }
    ensures recipes_within { length spots.old.recipes ≤ length rule.entry.names.now
        → length spots.new.recipes ≤ length rule.entry.names.now }
{
    note_targets(spots, rule, place)?;
    learn_names(alloc, phony, suffixes, rule)
}

// Adds the prerequisites of the rule's special targets. If memory runs out, none is added.
#[tactic(auto, using(crate::proofs::lemmas::book::FindLemmas::take_grown))]
fn learn_names(
    alloc: Global,
    phony: &mut Names,
    suffixes: &mut Suffixes,
    rule: BookRule<'_>,
) -> Result<(), AllocError>
    ensures phony_learned { OnOk result (phony.new ≡ fold with_name phony.old (phony_of (entry_view rule.entry))) }
    ensures suffixes_learned { OnOk result (suffixes.new ≡ suffixes_after suffixes.old (entry_view rule.entry)) }
    ensures phony_refused { OnErr result (phony.new ≡ phony.old) }
    ensures suffixes_refused { OnErr result (suffixes.new ≡ suffixes.old) }
{
    let phony_count = phony.len();
    learn_phony(alloc, phony, rule)?;
    match learn_suffixes(alloc, suffixes, rule) {
        Ok(()) => Ok(()),
        Err(refused) => {
            phony.truncate(phony_count);
            Err(refused)
        }
    }
}

// Notes each target that the rule at a place makes. If memory runs out, some may be noted.
fn note_targets(spots: &mut Spots, rule: BookRule<'_>, place: usize) -> Result<(), AllocError>
    requires { AreBelow (length rule.names.now) rule.targets.now }
    ensures targets_noted { OnOk result (GotSpots (entry_view rule.entry) place
        (rule.entry.names.now, spots.old.targets) (rule.entry.names.now, spots.new.targets)) }
    ensures recipes_noted { OnOk result (GotRecipes (entry_view rule.entry) place
        (rule.entry.names.now, spots.old.recipes) (rule.entry.names.now, spots.new.recipes)) }
    ensures targets_refused { OnErr result (GrewIn place
        (rule.entry.names.now, spots.old.targets) (rule.entry.names.now, spots.new.targets)) }
    ensures recipes_refused { OnErr result (GrewIn place
        (rule.entry.names.now, spots.old.recipes) (rule.entry.names.now, spots.new.recipes)) }
    ensures targets_within { length spots.old.targets ≤ length rule.entry.names.now
        → length spots.new.targets ≤ length rule.entry.names.now }
    ensures recipes_within { length spots.old.recipes ≤ length rule.entry.names.now
        → length spots.new.recipes ≤ length rule.entry.names.now }
{
    for (position, number) in rule.targets.iter().enumerate() {
        let spot = Spot::at(place, position)?;
        note_target(spots, rule, *number as usize, spot)?;
    }
    Ok(())
}

// Notes the target whose name has the number, if the rule makes it.
#[tactic(auto, using(std::proofs::lemmas::Result::on_err_weaker, crate::proofs::lemmas::book::NoteLemmas::grew_at_names))]
fn note_target(
    spots: &mut Spots,
    rule: BookRule<'_>,
    number: usize,
    spot: Spot,
) -> Result<(), AllocError>
    requires { number < length rule.names.now }
    ensures targets_noted { OnOk result ((name : Text) → spots_at (rule.entry.names.now, spots.new.targets) name
        ≡ spots_at (rule.entry.names.now, spots.old.targets) name
        ++ target_spots (entry_view rule.entry) (numbered_target rule.entry number) spot name) }
    ensures recipes_noted { OnOk result ((name : Text) → spots_at (rule.entry.names.now, spots.new.recipes) name
        ≡ spots_at (rule.entry.names.now, spots.old.recipes) name ++ (if is_some (entry_view rule.entry).recipe
        then target_spots (entry_view rule.entry) (numbered_target rule.entry number) spot name else [])) }
    ensures targets_refused { OnErr result (GrewIn spot.entry
        (rule.entry.names.now, spots.old.targets) (rule.entry.names.now, spots.new.targets)) }
    ensures recipes_refused { OnErr result (GrewIn spot.entry
        (rule.entry.names.now, spots.old.recipes) (rule.entry.names.now, spots.new.recipes)) }
    ensures targets_within { length spots.old.targets ≤ length rule.entry.names.now
        → length spots.new.targets ≤ length rule.entry.names.now }
    ensures recipes_within { length spots.old.recipes ≤ length rule.entry.names.now
        → length spots.new.recipes ≤ length rule.entry.names.now }
{
    // The contract of `len` makes known that the names differ.
    let _count = rule.names.len();
    if !is_made(rule.kind(), rule.names.name_at(number)) {
        return Ok(());
    }
    spots.note(number, spot, rule.recipe().is_some())
}
