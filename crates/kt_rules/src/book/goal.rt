//! The default goal of the rules.
ghost use Rattle.std.specs.Prelude.{◌≡◌, ◌&&◌, ◌==◌, not, option_map, find};
ghost use Rattle.std.specs.List.{list_any};
ghost use Rattle.kt_rules.specs.Book.{begins_with_dot, first_goal_by, is_goal, may_be_goal};
ghost use Rattle.kt_rules.specs.inner.Goals.{goal_in};
ghost use Rattle.kt_rules.specs.views.Targets.{rule_view, entry_view};

use super::book_rule::BookRule;
use super::entries::Entries;
use super::rules::Rules;
use super::suffix::is_suffix_name;
use super::suffixes::Suffixes;
use super::target_rule::{TargetRule, is_bare, is_made};

/// The first target of an explicit rule that may be the default goal.
pub(crate) fn first_goal<'a>(suffixes: &Suffixes, rules: &'a Rules) -> Option<&'a [u8]>
    ensures { option_map (λ name. name.now) result ≡ first_goal_by suffixes.now rules.now.1 }
{
    for entry in Entries::new(rules) {
        match goal_in(suffixes, entry) {
            Some(name) => return Some(name),
            None => {}
        }
    }
    None
}

// The first of an entry's targets that may be the default goal.
fn goal_in<'a>(suffixes: &Suffixes, entry: BookRule<'a>) -> Option<&'a [u8]>
    ensures { option_map (λ name. name.now) result ≡ goal_in suffixes.now (entry_view entry.entry) }
{
    for target in entry.targets() {
        if is_made(entry.kind(), target.name) && is_goal(suffixes, TargetRule { entry, target }) {
            return Some(target.name);
        }
    }
    None
}

fn is_goal(suffixes: &Suffixes, rule: TargetRule) -> bool
    ensures { result ≡ is_goal suffixes.now (rule_view rule.entry) }
{
    let name = rule.target.name;
    may_be_goal(name) && !(is_bare(rule) && is_suffix_name(suffixes, name))
}

// Whether a target of this name may be the default goal: it doesn't begin with a dot, or it holds a slash.
fn may_be_goal(name: &[u8]) -> bool
    ensures { result ≡ may_be_goal name.now }
{
    !begins_with_dot(name) || has_slash(name)
}

fn begins_with_dot(name: &[u8]) -> bool
    ensures { result ≡ begins_with_dot name.now }
{
    match name {
        [first, ..] => *first == b'.',
        [] => false,
    }
}

fn has_slash(name: &[u8]) -> bool
    ensures { result ≡ list_any (λ byte. byte == 47) name.now }
{
    name.iter().any(|byte| *byte == b'/')
}
