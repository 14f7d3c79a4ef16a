//! The targets and prerequisites of the pattern rules so far.
ghost use Rattle.std.specs.Prelude.{◌≡◌, ◌||◌, false, not, map, IfOk, OnOk};
ghost use Rattle.kt_rules.specs.Book.{repeats};
ghost use Rattle.kt_rules.specs.Entry.{Entry};
ghost use Rattle.kt_rules.specs.inner.Patterns.{IsKeyOf, has_pattern, held};

use super::pattern::Pattern;
use crate::line::entry::{Name, Target};
use indexmap::IndexSet;
use std::alloc::{AllocError, Global};

/// The targets and prerequisites of a pattern rule: a rule with the same ones repeats it.
#[derive(PartialEq, Eq, Hash, Drop)]
pub(crate) struct PatternKey {
    targets: Vec<Vec<u8>>,
    prerequisites: Vec<Vec<u8>>,
    order_only: Vec<Vec<u8>>,
}

/// A set of pattern rules that compares them by targets and prerequisites.
#[derive(Drop)]
pub(crate) struct PatternSet {
    alloc: Global,
    keys: IndexSet<PatternKey>,
}

impl PatternSet {
    pub(crate) fn new(alloc: Global) -> PatternSet
        ensures { (rule : Entry) → has_pattern result rule ≡ false }
    {
        PatternSet {
            alloc,
            keys: IndexSet::new(alloc),
        }
    }

    /// Adds a pattern rule, and returns whether it repeats none of the others.
    #[tactic(auto, using(crate::proofs::lemmas::book::PatternLemmas::key_added))]
    pub(crate) fn insert(&mut self, pattern: &Pattern) -> Result<bool, AllocError>
        ensures told { IfOk result (λ is_new. is_new ≡ not (has_pattern self.old pattern.now)) }
        ensures added { OnOk result ((rule : Entry)
            → has_pattern self.new rule ≡ (repeats rule pattern.now || has_pattern self.old rule)) }
    {
        let key = key_of(self.alloc, pattern)?;
        let is_new = self.keys.insert(key)?;
        Ok(is_new)
    }
}

fn key_of(alloc: Global, pattern: &Pattern) -> Result<PatternKey, AllocError>
    ensures { IfOk result (IsKeyOf pattern.now) }
{
    let needs = pattern.needs();
    Ok(PatternKey {
        targets: target_names(alloc, pattern.targets())?,
        prerequisites: copied(alloc, needs.prerequisites.as_slice())?,
        order_only: copied(alloc, needs.order_only.as_slice())?,
    })
}

fn target_names(alloc: Global, targets: &[Target]) -> Result<Vec<Vec<u8>>, AllocError>
    ensures { IfOk result (λ names. held names.items ≡ map (λ target. target.name) targets.now) }
{
    let mut names = Vec::new(alloc);
    for target in targets {
        names.push(Vec::from_slice(alloc, target.name.as_slice())?)?;
    }
    Ok(names)
}

fn copied(alloc: Global, names: &[Name]) -> Result<Vec<Vec<u8>>, AllocError>
    ensures { IfOk result (λ copies. held copies.items ≡ names.now) }
{
    let mut copies = Vec::new(alloc);
    for name in names {
        copies.push(Vec::from_slice(alloc, name.as_slice())?)?;
    }
    Ok(copies)
}
