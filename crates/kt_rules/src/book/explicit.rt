//! The explicit rules of a target.
ghost use Rattle.std.specs.Prelude.{◌≡◌, ◌&&◌, ◌∷◌, [], MatchOption, is_some, option_map};
ghost use Rattle.std.specs.Iterator.{YieldsFirstBy, item_count};
ghost use Rattle.std.specs.List.{list_any};
ghost use Rattle.kt_rules.specs.inner.Slots.{explicit_left, explicit_rule};
ghost use Rattle.kt_rules.specs.views.Targets.{rule_view};
ghost use Rattle.kt_rules.specs.inner.SuffixCuts.{is_bare_at};
ghost use Rattle.kt_rules.specs.Suffixes.{suffix_patterns};

use super::rules::Rules;
use super::spot::Spot;
use super::suffix::is_suffix_name;
use super::suffixes::Suffixes;
use super::target_rule::{TargetRule, has_bare, is_bare, rule_at};
use std::marker::Model;

/// The explicit rules of a target, in order.
#[derive(Drop)]
pub struct Explicit<'a> {
    rules: &'a Rules,
    spots: &'a [Spot],
    // Rules with the form of suffix rules are skipped: the target's name is that of suffix rules.
    skips_bare: bool,
}

impl<'a> Model for Explicit<'a> {
    ghost use Rattle.std.specs.Prelude.{List};
    ghost use Rattle.kt_rules.specs.Entry.{Entry};
    ghost use Rattle.kt_rules.specs.declared.line.entry.Target.{Target};

    ghost Value = { List (Entry × Target) };

    ghost use Rattle.kt_rules.specs.inner.Slots.{explicit_left};

    ghost view = { λ left. explicit_left left.skips_bare left.rules.now.1 left.spots.now };
}

impl<'a> Explicit<'a> {
    pub(crate) fn new(rules: &'a Rules, spots: &'a [Spot], skips_bare: bool) -> Explicit<'a>
        ensures { result ≡ explicit_left skips_bare rules.now.1 spots.now }
    {
        Explicit {
            rules,
            spots,
            skips_bare,
        }
    }
}

impl<'a> Iterator for Explicit<'a> {
    type Item = TargetRule<'a>;

    ghost next_gives = { YieldsFirstBy rule_view (λ rules. rules) };

    ghost remaining = { item_count (λ rules. rules) };

    fn next(&mut self) -> Option<TargetRule<'a>> {
        let (rule, spots) = first_explicit(self.rules, self.spots, self.skips_bare)?;
        self.spots = spots;
        Some(rule)
    }
}

/// Whether the rules at the spots of this name that have the form of suffix rules are suffix rules. If none has that
/// form, the name isn't tested.
pub(crate) fn skips_bare(suffixes: &Suffixes, rules: &Rules, spots: &[Spot], name: &[u8]) -> bool
    ensures { result ≡ (list_any (is_bare_at rules.now.1) spots.now
        && is_some (suffix_patterns suffixes.now name.now)) }
{
    has_bare(rules, spots) && is_suffix_name(suffixes, name)
}

// The first explicit rule at one of the spots, and the spots after it.
#[tactic(auto, unfolding(crate::specs::inner::Slots::explicit_left))]
fn first_explicit<'a>(
    rules: &'a Rules,
    spots: &'a [Spot],
    skips_bare: bool,
) -> Option<(TargetRule<'a>, &'a [Spot])>
    ensures { MatchOption result (explicit_left skips_bare rules.now.1 spots.now ≡ [])
        (λ cut. explicit_left skips_bare rules.now.1 spots.now ≡ rule_view cut.0
        ∷ explicit_left skips_bare rules.now.1 cut.1.now) }
{
    let mut left = spots;
    while let [spot, after @ ..] = left {
        left = after;
        if let Some(rule) = explicit_at(rules, *spot, skips_bare) {
            return Some((rule, after));
        }
    }
    None
}

// The rule at a spot, if it is explicit.
fn explicit_at(rules: &Rules, spot: Spot, skips_bare: bool) -> Option<TargetRule<'_>>
    ensures { option_map rule_view result ≡ explicit_rule skips_bare rules.now.1 spot }
{
    let rule = rule_at(rules, spot)?;
    if is_bare(rule) && skips_bare {
        None
    } else {
        Some(rule)
    }
}
