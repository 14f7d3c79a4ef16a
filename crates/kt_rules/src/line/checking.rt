//! The tests that the names of a rule line must pass.
ghost use Rattle.std.specs.Prelude.{◌≡◌, ◌||◌, None, false, find, if◌then◌else◌, map, not, option_map};
ghost use Rattle.std.specs.List.{list_all, list_any};
ghost use Rattle.std.specs.Option.{option_or};
ghost use Rattle.kt_text.specs.Match.{has_percent};
ghost use Rattle.kt_rules.specs.Names.{is_among, is_refused_name, is_special, is_without_effect, wait_name};
ghost use Rattle.kt_rules.specs.inner.Remembered.{needs_wait};
ghost use Rattle.kt_rules.specs.inner.Telling.{Tells};
ghost use Rattle.kt_rules.specs.RuleLine.{first_refusal, fits, is_bad_group, line_refusal, mixes_patterns};
ghost use Rattle.kt_rules.specs.RuleLine.{name_refusal, option_list, target_refusal, tested_needs};
ghost use Rattle.kt_rules.specs.inner.Heads.{refusal_in};

use crate::line::entry::{Name, Needs};
use crate::line::head::Separator;
use crate::line::head_names::HeadNames;
use crate::line::refused::{
    WAIT, are_same, is_refused_name, is_refused_target, is_special, is_without_effect,
};
use crate::line::signs::Signs;
use crate::refusal::Refusal;
use kt_text::{has_percent, match_pattern};

// The refusal of the first test that fails.
#[tactic(auto, unfolding(crate::specs::RuleLine::line_refusal, crate::specs::RuleLine::first_refusal))]
pub(crate) fn line_refusal(line: &HeadNames, signs: Signs) -> Option<Refusal<'_>>
    requires { Tells signs line.now }
    ensures { refusal_in result ≡ line_refusal line.now }
{
    if let Some(name) = name_refusal(line, signs.telling) {
        return Some(Refusal::RefusedName(name));
    }
    if mixes_patterns(line, signs.percent) {
        return Some(Refusal::MissingSeparator);
    }
    if is_bad_group(line) {
        return Some(Refusal::BadGroup);
    }
    if let Some(refusal) = first_target_refusal(&line.pattern, line.targets.as_slice()) {
        return Some(refusal);
    }
    if waits(line) {
        return Some(Refusal::RefusedTarget(WAIT));
    }
    None
}

// The first name that is refused.
fn name_refusal(line: &HeadNames, telling: bool) -> Option<&[u8]>
    requires { telling ≡ false → name_refusal line.now ≡ None }
    ensures { option_map (λ name. name.now) result ≡ name_refusal line.now }
{
    if telling { refused_name(line) } else { None }
}

// As `name_refusal`, name by name.
#[tactic(auto, using(crate::proofs::lemmas::line::TestingLemmas::search_steps), unfolding(crate::specs::RuleLine::name_refusal))]
#[inline(never)]
fn refused_name(line: &HeadNames) -> Option<&[u8]>
    ensures { option_map (λ name. name.now) result ≡ name_refusal line.now }
{
    if let Some(name) = refused_among(line.targets.as_slice()) {
        return Some(name);
    }
    if let Some(name) = refused_pattern(&line.pattern) {
        return Some(name);
    }
    tested_refusal(line)
}

// The first of the tested prerequisites that is refused.
#[tactic(auto, using(crate::proofs::lemmas::line::TestingLemmas::search_steps), unfolding(crate::specs::RuleLine::tested_needs))]
fn tested_refusal(line: &HeadNames) -> Option<&[u8]>
    ensures { option_map (λ name. name.now) result ≡ find is_refused_name (tested_needs line.now) }
{
    if all_without_effect(line.targets.as_slice()) {
        return None;
    }
    if let Some(name) = refused_among(line.needs.get().prerequisites.as_slice()) {
        return Some(name);
    }
    refused_among(line.needs.get().order_only.as_slice())
}

fn refused_pattern(pattern: &Option<Name>) -> Option<&[u8]>
    ensures { option_map (λ name. name.now) result ≡ find is_refused_name (option_list pattern.now) }
{
    match pattern {
        Some(name) if is_refused_name(name.as_slice()) => Some(name.as_slice()),
        _ => None,
    }
}

fn refused_among(names: &[Name]) -> Option<&[u8]>
    ensures { option_map (λ name. name.now) result ≡ find is_refused_name names.now }
{
    for name in names {
        if is_refused_name(name.as_slice()) {
            return Some(name.as_slice());
        }
    }
    None
}

// Whether no target has an effect, so that the prerequisites aren't tested.
fn all_without_effect(targets: &[Name]) -> bool
    ensures { result ≡ list_all is_without_effect targets.now }
{
    targets
        .iter()
        .all(|target| is_without_effect(target.as_slice()))
}

// Whether a target has a percent sign in a static pattern rule or beside a target without one.
#[tactic(auto, unfolding(crate::specs::RuleLine::mixes_patterns))]
fn mixes_patterns(line: &HeadNames, percent: bool) -> bool
    requires { percent ≡ false → list_any has_percent line.now.targets ≡ false }
    ensures { result ≡ mixes_patterns line.now }
{
    percent
        && any_percent(line.targets.as_slice())
        && (line.pattern.is_some() || !all_percent(line.targets.as_slice()))
}

pub(crate) fn any_percent(targets: &[Name]) -> bool
    ensures { result ≡ list_any has_percent targets.now }
{
    targets.iter().any(|target| has_percent(target.as_slice()))
}

fn all_percent(targets: &[Name]) -> bool
    ensures { result ≡ list_all has_percent targets.now }
{
    targets.iter().all(|target| has_percent(target.as_slice()))
}

// Whether a group has a target that is special or has a percent sign.
#[tactic(auto, unfolding(crate::specs::RuleLine::is_bad_group))]
fn is_bad_group(line: &HeadNames) -> bool
    ensures { result ≡ is_bad_group line.now }
{
    match line.separator {
        Separator::Grouped => any_ungroupable(line.targets.as_slice()),
        Separator::Single | Separator::Double => false,
    }
}

fn any_ungroupable(targets: &[Name]) -> bool
    ensures { result ≡ list_any (λ target. is_special target || has_percent target) targets.now }
{
    targets.iter().any(|target| is_special(target.as_slice()) || has_percent(target.as_slice()))
}

// The first refusal of a target.
#[tactic(auto, unfolding(crate::specs::RuleLine::first_refusal))]
fn first_target_refusal<'a>(pattern: &Option<Name>, targets: &'a [Name]) -> Option<Refusal<'a>>
    ensures { refusal_in result ≡ first_refusal (map (target_refusal pattern.now) targets.now) }
{
    for target in targets {
        if let Some(refusal) = target_refusal(pattern, target.as_slice()) {
            return Some(refusal);
        }
    }
    None
}

// Why a target is refused, if it is.
#[tactic(auto, unfolding(crate::specs::RuleLine::target_refusal))]
fn target_refusal<'a>(pattern: &Option<Name>, target: &'a [u8]) -> Option<Refusal<'a>>
    ensures { refusal_in result ≡ target_refusal pattern.now target.now }
{
    if is_refused_target(target) {
        return Some(Refusal::RefusedTarget(target));
    }
    if fits(pattern, target) {
        None
    } else {
        Some(Refusal::BadStaticPattern(target))
    }
}

// Whether the static pattern, if there is one, matches the target.
fn fits(pattern: &Option<Name>, target: &[u8]) -> bool
    ensures { result ≡ fits pattern.now target.now }
{
    match pattern {
        None => true,
        Some(pattern) => match_pattern(pattern.as_slice(), target).is_some(),
    }
}

// Whether a tested prerequisite is `.WAIT`.
#[tactic(auto, using(crate::proofs::lemmas::line::TestingLemmas::search_steps), unfolding(crate::specs::RuleLine::tested_needs))]
fn waits(line: &HeadNames) -> bool
    ensures { result ≡ is_among (tested_needs line.now) wait_name }
{
    if all_without_effect(line.targets.as_slice()) {
        return false;
    }
    line.needs.wait()
}

// Whether `.WAIT` is a prerequisite.
pub(crate) fn needs_wait(needs: &Needs) -> bool
    ensures { result ≡ needs_wait needs.now }
{
    any_waits(needs.prerequisites.as_slice()) || any_waits(needs.order_only.as_slice())
}

fn any_waits(names: &[Name]) -> bool
    ensures { result ≡ is_among names.now wait_name }
{
    names.iter().any(|name| are_same(WAIT, name.as_slice()))
}
