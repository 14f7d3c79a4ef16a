//! Why a book refuses an entry.
ghost use Rattle.std.specs.Prelude.{◌≡◌, ◌||◌, option_map, is_none, ◌&&◌};
ghost use Rattle.std.specs.List.{list_any};
ghost use Rattle.kt_rules.specs.Book.{beside_group_in, both_colons_in, differ_in_colons, is_beside_group, is_double};
ghost use Rattle.kt_rules.specs.Book.{is_group, is_made, recipes_of, refusal_of, rules_of, two_recipes_in, xor};
ghost use Rattle.kt_rules.specs.inner.Refusals.{ReportsFault, refusal_view};
ghost use Rattle.kt_rules.specs.Refusals.{rule_line_fault};
ghost use Rattle.kt_rules.specs.views.Targets.{target_view};

use super::Book;
use super::spots::spots_of;
use super::target_rule::{first_rule, has_recipe, is_double, is_group, is_made};
use crate::fault::RuleFault;
use crate::line::entry::{Entry, Kind};
use crate::place::Place;
use crate::refusal::Refusal;
use crate::target::TargetView;
use std::alloc::Global;

impl Book {
    // Why an entry is refused, given the entries of the book.
    #[tactic(auto, unfolding(crate::specs::Book::refusal_of))]
    pub(crate) fn refusal<'a>(&self, entry: &'a Entry) -> Option<Refusal<'a>>
        ensures { option_map refusal_view result ≡ refusal_of self.now entry.now }
    {
        if is_group(entry.kind()) && !has_recipe(entry) {
            return Some(Refusal::BadGroup);
        }
        if let Some(target) = self.both_colons(entry) {
            return Some(Refusal::BothColons(target.name));
        }
        match self.two_recipes(entry) {
            Some(target) => Some(Refusal::TwoRecipes(target.name)),
            None => None,
        }
    }

    // The first target that has rules with the other number of colons. Where no rule has two, none is looked at.
    fn both_colons<'a>(&self, entry: &'a Entry) -> Option<TargetView<'a>>
        ensures { option_map target_view result ≡ both_colons_in self.now entry.now }
    {
        if !is_double(entry.kind()) && !self.rules.may_have_double() {
            return None;
        }
        self.first_of_both_colons(entry)
    }

    fn first_of_both_colons<'a>(&self, entry: &'a Entry) -> Option<TargetView<'a>>
        ensures { option_map target_view result ≡ both_colons_in self.now entry.now }
    {
        for target in entry.targets() {
            if self.differs(entry, target) {
                return Some(target);
            }
        }
        None
    }

    // The first target that gets a second recipe, where one of the two is a group's.
    fn two_recipes<'a>(&self, entry: &'a Entry) -> Option<TargetView<'a>>
        ensures { option_map target_view result ≡ two_recipes_in self.now entry.now }
    {
        if !has_recipe(entry) {
            return None;
        }
        self.beside_group(entry)
    }

    // Where there is no group, no target is looked at.
    fn beside_group<'a>(&self, entry: &'a Entry) -> Option<TargetView<'a>>
        ensures { option_map target_view result ≡ beside_group_in self.now entry.now }
    {
        if !is_group(entry.kind()) && !self.rules.may_have_group() {
            return None;
        }
        self.first_beside_group(entry)
    }

    fn first_beside_group<'a>(&self, entry: &'a Entry) -> Option<TargetView<'a>>
        ensures { option_map target_view result ≡ beside_group_in self.now entry.now }
    {
        for target in entry.targets() {
            if self.is_beside_group(entry, target) {
                return Some(target);
            }
        }
        None
    }

    // Whether the entry makes the target, which has rules with the other number of colons.
    fn differs(&self, entry: &Entry, target: TargetView<'_>) -> bool
        ensures { result ≡ (is_made entry.now (target_view target.entry)
            && list_any (differ_in_colons entry.now) (rules_of self.now (target_view target.entry).name)) }
    {
        is_made(entry.kind(), target.name) && self.has_other_colons(entry, target.name)
    }

    // Whether the entry makes the target, which already has a recipe, and one of the two is a group's.
    fn is_beside_group(&self, entry: &Entry, target: TargetView<'_>) -> bool
        ensures { result ≡ (is_made entry.now (target_view target.entry)
            && list_any (is_beside_group entry.now) (recipes_of self.now (target_view target.entry).name)) }
    {
        is_made(entry.kind(), target.name) && self.has_group(entry, target.name)
    }

    // Whether a target has rules with the other number of colons. Its first rule decides: all have the same number.
    fn has_other_colons(&self, entry: &Entry, name: &[u8]) -> bool
        ensures { result ≡ list_any (differ_in_colons entry.now) (rules_of self.now name.now) }
    {
        let kind = entry.kind();
        match first_rule(
            &self.rules,
            spots_of(&self.rules, &self.spots.targets, name),
        ) {
            Some(rule) => differ_in_colons(kind, rule.entry.kind()),
            None => false,
        }
    }

    // Whether a target has a recipe, and one of the two is a group's. Its first rule with one decides: if one is a
    // group, all are.
    fn has_group(&self, entry: &Entry, name: &[u8]) -> bool
        ensures { result ≡ list_any (is_beside_group entry.now) (recipes_of self.now name.now) }
    {
        let kind = entry.kind();
        match first_rule(
            &self.rules,
            spots_of(&self.rules, &self.spots.recipes, name),
        ) {
            Some(rule) => either_is_group(kind, rule.entry.kind()),
            None => false,
        }
    }
}

fn differ_in_colons(kind: Kind, earlier: Kind) -> bool
    ensures { result ≡ xor (is_double earlier) (is_double kind) }
{
    if is_double(earlier) {
        !is_double(kind)
    } else {
        is_double(kind)
    }
}

fn either_is_group(kind: Kind, earlier: Kind) -> bool
    ensures { result ≡ (is_group kind || is_group earlier) }
{
    is_group(kind) || is_group(earlier)
}

/// The fault for refusing the rule at a place.
pub(crate) fn fault_of(alloc: Global, place: &Place, refusal: Refusal) -> RuleFault
    ensures { ReportsFault result (rule_line_fault place.now (refusal_view refusal.entry)) }
{
    match place.share() {
        Ok(place) => refusal.at(alloc, place),
        Err(_refused) => RuleFault::Memory,
    }
}
