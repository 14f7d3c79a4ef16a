//! A rule seen from one of its targets.
ghost use Rattle.std.specs.Prelude.{◌≡◌, not, ◌&&◌, is_some, option_map};
ghost use Rattle.std.specs.List.{list_any};
ghost use Rattle.kt_rules.specs.Book.{is_double, is_explicit, is_group, is_pattern};
ghost use Rattle.kt_rules.specs.inner.Slots.{first_found, spot_rule, target_rule};
ghost use Rattle.kt_rules.specs.views.Targets.{rule_view, entry_view, needs_view};
ghost use Rattle.kt_rules.specs.inner.SuffixCuts.{is_bare_at, may_be_bare};
ghost use Rattle.kt_rules.specs.Suffixes.{is_bare, is_single};
ghost use Rattle.kt_rules.specs.Entry.{needs_for};
ghost use Rattle.kt_rules.specs.Names.{is_special};

use super::book_rule::BookRule;
use super::rules::Rules;
use super::spot::Spot;
use super::suffix::is_suffix_name;
use super::suffixes::Suffixes;
use crate::line::entry::{Entry, Kind};
use crate::line::refused::is_special;
use crate::needs::NeedsView;
use crate::target::TargetView;

/// A rule seen from one of its targets.
#[derive(Clone, Copy)]
pub struct TargetRule<'a> {
    /// The entry, which may have other targets.
    pub entry: BookRule<'a>,
    /// One of its targets.
    pub target: TargetView<'a>,
}

impl<'a> TargetRule<'a> {
    /// The prerequisites of the target in this rule.
    pub fn needs(self) -> NeedsView<'a>
        ensures { needs_view result ≡ needs_for (rule_view self.entry).0 (rule_view self.entry).1 }
    {
        self.entry.needs(self.target)
    }
}

// Whether a rule of a kind makes a target by name: a pattern rule doesn't, and a special target isn't made.
pub(crate) fn is_made(kind: Kind, name: &[u8]) -> bool
    ensures { result ≡ (not (is_pattern kind) && not (is_special name.now)) }
{
    !is_pattern(kind) && !is_special(name)
}

pub(crate) fn is_single(kind: Kind) -> bool
    ensures { result ≡ is_single kind }
{
    matches!(kind, Kind::SingleColon)
}

pub(crate) fn is_double(kind: Kind) -> bool
    ensures { result ≡ is_double kind }
{
    matches!(kind, Kind::DoubleColon)
}

pub(crate) fn is_group(kind: Kind) -> bool
    ensures { result ≡ is_group kind }
{
    matches!(kind, Kind::Group)
}

pub(crate) fn is_pattern(kind: Kind) -> bool
    ensures { result ≡ is_pattern kind }
{
    matches!(kind, Kind::Pattern | Kind::TerminalPattern)
}

pub(crate) fn has_recipe(entry: &Entry) -> bool
    ensures { result ≡ is_some entry.now.recipe }
{
    entry.recipe().is_some()
}

// Whether the rule has the form of a suffix rule: one colon, a recipe, and no prerequisites.
pub(crate) fn is_bare(rule: TargetRule) -> bool
    ensures { result ≡ is_bare (rule_view rule.entry) }
{
    is_single(rule.entry.kind()) && rule.entry.recipe().is_some() && rule.needs().is_empty()
}

// Whether a rule may have the form of a suffix rule for one of its targets. A static pattern may give it prerequisites.
pub(crate) fn may_be_bare(rule: BookRule<'_>) -> bool
    ensures { result ≡ may_be_bare (entry_view rule.entry) }
{
    is_single(rule.kind()) && rule.recipe().is_some() && rule.shared_needs().is_empty()
}

// Whether an entry is an explicit rule for one of its targets.
pub(crate) fn is_explicit(suffixes: &Suffixes, rule: TargetRule) -> bool
    ensures { result ≡ is_explicit suffixes.now (rule_view rule.entry) }
{
    let name = rule.target.name;
    is_made(rule.entry.kind(), name) && !(is_bare(rule) && is_suffix_name(suffixes, name))
}

// The rule at a spot.
pub(crate) fn rule_at(rules: &Rules, spot: Spot) -> Option<TargetRule<'_>>
    ensures { option_map rule_view result ≡ spot_rule rules.now.1 spot }
{
    let entry = rules.get(spot.entry as usize)?;
    target_at(entry, spot.target as usize)
}

// Whether one of the rules at the spots has the form of a suffix rule.
pub(crate) fn has_bare(rules: &Rules, spots: &[Spot]) -> bool
    ensures { result ≡ list_any (is_bare_at rules.now.1) spots.now }
{
    spots.iter().any(|spot| is_bare_at(rules, *spot))
}

fn is_bare_at(rules: &Rules, spot: Spot) -> bool
    ensures { result ≡ is_bare_at rules.now.1 spot }
{
    match rule_at(rules, spot) {
        Some(rule) => is_bare(rule),
        None => false,
    }
}

fn target_at<'a>(entry: BookRule<'a>, number: usize) -> Option<TargetRule<'a>>
    ensures { option_map rule_view result ≡ target_rule (entry_view entry.entry) number }
{
    let target = entry.targets().get(number)?;
    Some(TargetRule { entry, target })
}

// The first rule at one of the spots.
#[tactic(auto, unfolding(crate::specs::inner::Slots::found))]
pub(crate) fn first_rule<'a>(rules: &'a Rules, spots: &[Spot]) -> Option<TargetRule<'a>>
    ensures { option_map rule_view result ≡ first_found rules.now.1 spots.now }
{
    for spot in spots {
        if let Some(rule) = rule_at(rules, *spot) {
            return Some(rule);
        }
    }
    None
}
