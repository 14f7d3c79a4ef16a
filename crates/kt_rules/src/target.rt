//! Targets, borrowed from their entry.
//! Fast: an entry holds the names of its line once, and a target of it is a view. Spares the product: a static pattern
//! of T targets and P prerequisites takes T + P.
ghost use Rattle.std.specs.Prelude.{◌≡◌, option_map, length, Some, slice_get};
ghost use Rattle.std.specs.Iterator.{YieldsFirstBy, item_count};
ghost use Rattle.kt_rules.specs.Entry.{stemmed, stemmed_of, target_of};
ghost use Rattle.kt_rules.specs.views.Targets.{listed_needs, target_view, targets_view, text_in};
ghost use Rattle.kt_rules.specs.declared.line.entry.Needs.{Needs as AllNeeds};

use crate::listed::{AnyNames, ListedNeeds};
use kt_text::match_pattern;

/// A target of an entry. In a static pattern rule, its stem and prerequisites are computed when they are requested.
#[derive(Clone, Copy)]
pub struct TargetView<'a> {
    pub name: &'a [u8],
    pub(crate) pattern: Option<&'a [u8]>,
    /// In a static pattern rule, the prerequisites before the stem is put in.
    pub(crate) needs: ListedNeeds<'a>,
}

impl<'a> TargetView<'a> {
    /// The stem, if a static pattern matches the name (GNU make manual, "Static Pattern Rules").
    pub fn stem(&self) -> Option<&'a [u8]>
        ensures { option_map (λ stem. stemmed (listed_needs self.now.needs) stem.now) result
            ≡ (target_view self.now).stemmed }
    {
        stem_of(self.pattern, self.name)
    }
}

// The stem of a name in a static pattern, if there is one and it matches.
#[tactic(auto, unfolding(crate::specs::Entry::stemmed_of))]
fn stem_of<'a>(pattern: Option<&[u8]>, name: &'a [u8]) -> Option<&'a [u8]>
    ensures { (needs : AllNeeds) → option_map (λ stem. stemmed needs stem.now) result
        ≡ stemmed_of (text_in pattern.entry) needs name.now }
{
    match pattern {
        None => None,
        Some(pattern) => stem_in(pattern, name),
    }
}

#[tactic(auto, unfolding(crate::specs::Entry::stemmed_of))]
fn stem_in<'a>(pattern: &[u8], name: &'a [u8]) -> Option<&'a [u8]>
    ensures { (needs : AllNeeds) → option_map (λ stem. stemmed needs stem.now) result
        ≡ stemmed_of (Some pattern.now) needs name.now }
{
    let stem = match_pattern(pattern, name)?;
    Some(&name[stem])
}

/// The targets of an entry, in order.
#[derive(Drop)]
pub struct Targets<'a> {
    pub(crate) names: AnyNames<'a>,
    pub(crate) pattern: Option<&'a [u8]>,
    pub(crate) needs: ListedNeeds<'a>,
}

impl<'a> Targets<'a> {
    /// The number of targets that remain. Takes no memory.
    pub fn len(&self) -> usize
        ensures { result ≡ length (targets_view self.now) }
    {
        self.names.len()
    }

    /// The target at a place among those that remain. Takes no memory.
    pub fn get(&self, place: usize) -> Option<TargetView<'a>>
        ensures { option_map target_view result ≡ slice_get (targets_view self.now) place }
    {
        let name = self.names.get(place)?;
        Some(self.view(name))
    }

    fn view(&self, name: &'a [u8]) -> TargetView<'a>
        ensures { target_view result ≡ target_of (text_in self.now.pattern) (listed_needs self.now.needs) name.now }
    {
        TargetView {
            name,
            pattern: self.pattern,
            needs: self.needs,
        }
    }
}

impl<'a> Iterator for Targets<'a> {
    type Item = TargetView<'a>;

    ghost next_gives = { YieldsFirstBy target_view targets_view };

    ghost remaining = { item_count targets_view };

    fn next(&mut self) -> Option<TargetView<'a>> {
        let (listed, after) = self.names.split_first()?;
        self.names = after;
        Some(self.view(listed.name))
    }
}
