//! For each target, the numbers of the entries of its explicit rules.
ghost use Rattle.std.specs.Prelude.{◌≡◌, ◌++◌, ◌&&◌, ◌∷◌, [], IfOk, OnOk, bytes_eq, if◌then◌else◌};
ghost use Rattle.kt_text.specs.Words.{Text};
ghost use Rattle.kt_rules.specs.views.Book.{explicit_numbers, numbers_in};
ghost use Rattle.kt_rules.specs.Book.{is_explicit};
ghost use Rattle.kt_rules.specs.views.Indexes.{noted_at};
ghost use Rattle.kt_rules.specs.views.Targets.{rule_view, entry_view};
ghost use Rattle.kt_rules.specs.Suffixes.{suffixes_of};

use super::book_rule::BookRule;
use super::target_rule::TargetRule;
use super::{Book, Entries};
use crate::index::Index;
use std::alloc::AllocError;

impl Book {
    /// For each name, the numbers of the entries of its explicit rules, in the order of `explicit`: an entry's number
    /// is its place among `entries`, from 0.
    ///
    /// Targets of one group have the same number, so a group's members are found without comparing lists. An `Err` is
    /// out of memory.
    pub fn entry_numbers(&self) -> Result<Index<usize>, AllocError>
        ensures { IfOk result (λ index. (name : Text) → noted_at index name ≡ explicit_numbers self.now name) }
    {
        let mut index = Index::new(self.alloc);
        // The number of rules must be known: it bounds the number of each.
        let _count = self.rules.len();
        for (number, entry) in Entries::new(&self.rules).enumerate() {
            self.note_entry(&mut index, entry, number)?;
        }
        Ok(index)
    }

    // Notes an entry's number at each target for which it is an explicit rule.
    fn note_entry(
        &self,
        index: &mut Index<usize>,
        entry: BookRule<'_>,
        number: usize,
    ) -> Result<(), AllocError>
        ensures { OnOk result ((name : Text) → noted_at index.new name ≡ noted_at index.old name
            ++ numbers_in (suffixes_of self.now) name (number, entry_view entry.entry)) }
    {
        for target in entry.targets() {
            self.note_rule(index, TargetRule { entry, target }, number)?;
        }
        Ok(())
    }

    // Notes the number of a rule's entry at its target, if the rule is explicit.
    fn note_rule(
        &self,
        index: &mut Index<usize>,
        rule: TargetRule,
        number: usize,
    ) -> Result<(), AllocError>
        ensures { OnOk result ((name : Text) → noted_at index.new name ≡ noted_at index.old name
            ++ (if bytes_eq name rule.entry.target.name.now && is_explicit (suffixes_of self.now) (rule_view rule.entry)
            then number ∷ [] else [])) }
    {
        if !self.is_explicit(rule) {
            return Ok(());
        }
        index.note(rule.target.name, number)
    }
}
