//! The pattern rules of a search.
ghost use Rattle.std.specs.Prelude.{◌≡◌, option_map, slice_get, IfOk};
ghost use Rattle.kt_rules.specs.Entry.{Entry};
ghost use Rattle.kt_graph.specs.search.Candidates.{matching_from};
ghost use Rattle.kt_graph.specs.inner.search.Ends.{AreAllNoted, candidates_numbered};

use crate::search::ends::TargetEnds;
use kt_rules::Pattern;
use std::alloc::{AllocError, Global};
use std::marker::Model;

/// Pattern rules in order of definition, found by the ends of their targets.
#[derive(Drop)]
pub(crate) struct Patterns<'a> {
    rules: Vec<Pattern<'a>>,
    ends: TargetEnds,
}

impl<'a> Model for Patterns<'a> {
    ghost use Rattle.std.specs.Prelude.{List};
    ghost use Rattle.kt_rules.specs.Entry.{Entry};

    ghost Value = { List Entry };

    ghost use Rattle.kt_graph.specs.inner.search.Ends.{AreAllNoted};

    ghost view = { λ patterns. patterns.rules.items };

    ghost invariant = { λ patterns. AreAllNoted patterns.ends patterns.rules.items };
}

impl<'a> Patterns<'a> {
    pub(crate) fn of(alloc: Global, rules: Vec<Pattern<'a>>) -> Result<Patterns<'a>, AllocError>
        ensures { IfOk result (λ patterns. patterns ≡ rules.entry.items) }
    {
        let ends = ends_of(alloc, rules.as_slice())?;
        Ok(Patterns { rules, ends })
    }

    pub(crate) fn rules(&self) -> &[Pattern<'a>]
        ensures { result.now ≡ self.now }
    {
        self.rules.as_slice()
    }

    /// The rule with a number.
    pub(crate) fn get(&self, number: usize) -> Option<&Pattern<'a>>
        ensures { option_map (λ rule. rule.now) result ≡ slice_get self.now number }
    {
        self.rules.as_slice().get(number)
    }

    /// The numbers of the rules with a target that ends as the name does, in order. Each rule that makes the name is
    /// among them.
    pub(crate) fn numbers(&self, name: &[u8]) -> Result<Vec<usize>, AllocError>
        ensures { IfOk result (λ numbers. candidates_numbered self.now name.now numbers.items
            ≡ matching_from 0 self.now name.now) }
    {
        let mut numbers = self.ends.found(name)?;
        numbers.sort()?;
        numbers.dedup();
        Ok(numbers)
    }
}

// The ends of the targets of rules.
fn ends_of(alloc: Global, rules: &[Pattern]) -> Result<TargetEnds, AllocError>
    ensures { IfOk result (λ ends. AreAllNoted ends rules.now) }
{
    let mut ends = TargetEnds::none(alloc);
    for (number, rule) in rules.iter().enumerate() {
        ends.note_targets(rule.targets(), number)?;
    }
    Ok(ends)
}
