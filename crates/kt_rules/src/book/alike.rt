//! Rules that need the same.
//! Fast: that two names need the same is told by the numbers of lists, not by what is in them. Spares a look at each
//! prerequisite of each member of a group.
ghost use Rattle.std.specs.Prelude.{◌≡◌, IsTrue};
ghost use Rattle.kt_rules.specs.views.Targets.{rule_view};
ghost use Rattle.kt_rules.specs.inner.Alike.{AreAlike, IsCommon, NeedSame};

use super::rules::Rules;
use super::spot::Spot;
use super::target_rule::{TargetRule, is_bare, rule_at};

/// Whether the explicit rules at spots need the same as those at others, told by the places of the rules.
#[tactic(auto, using(crate::proofs::lemmas::book::AlikeLemmas::alike_none))]
pub(crate) fn need_same(rules: &Rules, spots: &[Spot], others: &[Spot]) -> bool
    ensures quick { IsTrue result → NeedSame rules.now.1 spots.now others.now }
{
    let mut left = spots;
    let mut others_left = others;
    while let Some((spot, after)) = left.split_first() {
        match others_left.split_first() {
            Some((other, others_after)) if are_alike(rules, *spot, *other) => {
                left = after;
                others_left = others_after;
            }
            _ => return false,
        }
    }
    others_left.is_empty()
}

// Whether both spots are in rules that are explicit for any name, and give all their targets the same.
fn are_alike(rules: &Rules, spot: Spot, other: Spot) -> bool
    ensures quick { IsTrue result → AreAlike rules.now.1 spot other }
{
    if !rules.say_same(spot.entry as usize, other.entry as usize) {
        return false;
    }
    match rule_at(rules, spot) {
        Some(rule) => match rule_at(rules, other) {
            Some(second) => is_common(rule) && is_common(second),
            None => false,
        },
        None => false,
    }
}

// Whether a rule is explicit whatever name its target has, and the target needs what all of its targets need.
fn is_common(rule: TargetRule) -> bool
    ensures quick { IsTrue result → IsCommon (rule_view rule.entry) }
{
    !is_bare(rule) && rule.target.stem().is_none()
}
