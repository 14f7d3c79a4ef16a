//! For each target, by number, the rules that make it.
//! Fast: where a target stands is noted by its name's number, once for all its rules, and found by that number. Spares
//! three hashes of a one-line rule, and a hash for each name in the graph.
ghost use Rattle.std.specs.Prelude.{◌≡◌, ◌++◌, ◌∷◌, [], ℕ, ◌≤◌, ◌<◌, OnErr, OnOk, if◌then◌else◌, length, nat_eq};
ghost use Rattle.kt_rules.specs.inner.Lists.{list_at};
ghost use Rattle.kt_rules.specs.inner.Slots.{ForgotFrom, GrewAt, spots_at};

use super::lists::SpotLists;
use super::rules::Rules;
use super::spot::Spot;
use std::alloc::{AllocError, Global};

/// The spots of all targets, and of the targets whose rule has a recipe.
#[derive(Drop)]
pub(crate) struct Spots {
    pub(crate) targets: SpotLists,
    pub(crate) recipes: SpotLists,
}

impl Spots {
    /// No spots.
    pub(crate) fn new(alloc: Global) -> Spots
        ensures targets { result.targets ≡ [] }
        ensures recipes { result.recipes ≡ [] }
    {
        Spots {
            targets: SpotLists::new(alloc),
            recipes: SpotLists::new(alloc),
        }
    }

    /// Notes a spot of the name with this number. If memory runs out, it may be noted among one of the two only.
    pub(crate) fn note(
        &mut self,
        number: usize,
        spot: Spot,
        has_recipe: bool,
    ) -> Result<(), AllocError>
        ensures targets_noted { OnOk result ((other : ℕ) → list_at self.new.targets other
            ≡ list_at self.old.targets other ++ (if nat_eq other number then spot ∷ [] else [])) }
        ensures recipes_noted { OnOk result ((other : ℕ) → list_at self.new.recipes other
            ≡ list_at self.old.recipes other ++ (if has_recipe then (if nat_eq other number then spot ∷ [] else [])
            else [])) }
        ensures targets_refused { OnErr result (GrewAt spot.entry self.old.targets self.new.targets) }
        ensures recipes_refused { OnErr result (GrewAt spot.entry self.old.recipes self.new.recipes) }
        ensures targets_within { (count : ℕ) → length self.old.targets ≤ count → number < count
            → length self.new.targets ≤ count }
        ensures recipes_within { (count : ℕ) → length self.old.recipes ≤ count → number < count
            → length self.new.recipes ≤ count }
    {
        self.targets.note(number, spot)?;
        if has_recipe {
            self.recipes.note(number, spot)?;
        }
        Ok(())
    }

    /// Takes the spots away that aren't of the rules before a place. Takes no memory.
    pub(crate) fn forget(&mut self, place: usize)
        ensures targets { ForgotFrom place self.old.targets self.new.targets }
        ensures recipes { ForgotFrom place self.old.recipes self.new.recipes }
        ensures targets_many { length self.new.targets ≡ length self.old.targets }
        ensures recipes_many { length self.new.recipes ≡ length self.old.recipes }
    {
        self.targets.forget(place);
        self.recipes.forget(place);
    }
}

/// The spots of a name that may have this number: then they are found without hashing.
pub(crate) fn spots_by_number<'a>(
    rules: &Rules,
    lists: &'a SpotLists,
    name: &[u8],
    number: usize,
) -> &'a [Spot]
    ensures { result.now ≡ spots_at (rules.now.0, lists.now) name.now }
{
    if rules.has_number(name, number) {
        lists.noted(number)
    } else {
        spots_of(rules, lists, name)
    }
}

/// The spots of a name.
pub(crate) fn spots_of<'a>(rules: &Rules, lists: &'a SpotLists, name: &[u8]) -> &'a [Spot]
    ensures { result.now ≡ spots_at (rules.now.0, lists.now) name.now }
{
    match rules.number_of(name) {
        Some(number) => lists.noted(number),
        None => &[],
    }
}
