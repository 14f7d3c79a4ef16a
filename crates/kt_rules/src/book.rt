//! The rules of a makefile, as a list of entries.
ghost use Rattle.std.specs.Prelude.{◌≡◌, ◌++◌, ◌∷◌, [], All, IfOk, None, OnErr, OnOk, find, flat_map, nat_eq};
ghost use Rattle.std.specs.Prelude.{IsTrue, option_map};
ghost use Rattle.std.specs.List.{Contains, ends_with};
ghost use Rattle.kt_rules.specs.views.Book.{AreMadeAlike, GroupsStandAlone};
ghost use Rattle.kt_rules.specs.Book.{added, explicit_rules, first_goal_of, is_explicit, is_phony, override_messages};
ghost use Rattle.kt_rules.specs.Book.{patterns_of, refusal_of};
ghost use Rattle.kt_rules.specs.Known.{named_by};
ghost use Rattle.kt_rules.specs.views.Known.{names_in};
ghost use Rattle.kt_rules.specs.views.Refusals.{GivesExpected};
ghost use Rattle.kt_rules.specs.views.Targets.{rule_view};
ghost use Rattle.kt_rules.specs.Suffixes.{suffixes_of};

mod alike;
mod book_names;
mod book_rule;
mod entries;
mod explicit;
mod few;
mod goal;
mod kinds;
mod lists;
mod matching;
mod noting;
mod numbers;
mod overriding;
mod pattern;
mod pattern_set;
mod refusing;
mod row;
mod rules;
mod special;
mod spot;
mod spots;
mod suffix;
mod suffixes;
mod target_rule;

use crate::fault::RuleFault;
use crate::line::entry::{Entry, Name};
use alike::need_same;
pub use book_names::BookNames;
pub use book_rule::BookRule;
pub use entries::Entries;
pub use explicit::Explicit;
use explicit::skips_bare;
use kt_list::{Names, Sequence};
use matching::{candidates, unrepeated};
use noting::learn;
pub use pattern::Pattern;
use refusing::fault_of;
use rules::Rules;
use special::is_among;
use spots::{Spots, spots_by_number, spots_of};
use std::alloc::{AllocError, Global};
use std::marker::Model;
use suffixes::Suffixes;
pub use target_rule::TargetRule;
use target_rule::is_explicit;

/// Message lines, without their newlines.
pub type Warnings = Sequence<Sequence<u8>>;

/// The rules of a makefile, in the order in which they were added.
///
/// Rules are looked up by target: a lookup costs the same in a long book as in a short one.
#[derive(Drop)]
pub struct Book {
    alloc: Global,
    rules: Rules,
    // For each target, by the number of its name, the rules that make it.
    spots: Spots,
    phony: Names,
    suffixes: Suffixes,
}

impl Model for Book {
    ghost use Rattle.std.specs.Prelude.{List};
    ghost use Rattle.kt_rules.specs.Entry.{Entry};

    ghost Value = { List Entry };

    ghost use Rattle.kt_rules.specs.inner.Held.{HoldsAll};

    ghost view = { λ book. book.rules.1 };

    ghost invariant = { λ book. HoldsAll book.rules book.spots.targets book.spots.recipes book.phony book.suffixes };
}

impl Book {
    /// A book without rules.
    pub fn new(alloc: Global) -> Result<Book, AllocError>
        ensures { IfOk result (λ book. book ≡ []) }
    {
        let suffixes = Suffixes::start(alloc)?;
        let rules = Rules::new(alloc);
        let spots = Spots::new(alloc);
        let phony = Names::new(alloc);
        Ok(Book {
            alloc,
            rules,
            spots,
            phony,
            suffixes,
        })
    }

    /// Adds the rules of an entry, and returns the warnings on targets that get a second recipe.
    ///
    /// Refuses, in this order: a group without a recipe; a target that has rules with one colon and with two; a target
    /// with two recipes, one of them a group's. So a group shares no target with another entry that has a recipe. More
    /// than 4,294,967,295 entries, targets or prerequisites are refused as if memory were.
    #[tactic(auto, using(crate::proofs::lemmas::book::AddLemmas::answers_refused))]
    pub fn add(&mut self, entry: Entry) -> Result<Warnings, RuleFault>
        ensures answers { GivesExpected result (added self.old entry (refusal_of self.old entry)) }
        ensures grown { OnOk result (self.new ≡ self.old ++ entry ∷ []) }
        ensures refused { OnErr result (self.new ≡ self.old) }
        ensures groups { GroupsStandAlone self.new }
    {
        let result = match self.refusal(&entry) {
            Some(refusal) => Err(fault_of(self.alloc, entry.place(), refusal)),
            None => self.add_accepted(entry),
        };
        // Naming a field makes the book's invariant known, which `groups` needs.
        let _rules = &self.rules;
        result
    }

    /// Frees what is kept only for the next entry, so it is called after the last one. More can be added all the same.
    /// Takes no memory.
    pub fn finish_adding(&mut self)
        ensures { self.new ≡ self.old }
    {
        self.rules.forget_last();
    }

    /// All entries, in order. Takes no memory.
    ///
    /// A group shares no target with another entry that has a recipe.
    pub fn entries(&self) -> Entries<'_>
        ensures all { result ≡ self.now }
        ensures groups { GroupsStandAlone self.now }
    {
        Entries::new(&self.rules)
    }

    /// Whether an entry is an explicit rule for one of its targets, given the suffixes so far. Takes no memory.
    pub fn is_explicit(&self, rule: TargetRule) -> bool
        ensures { result ≡ is_explicit (suffixes_of self.now) (rule_view rule.entry) }
    {
        is_explicit(&self.suffixes, rule)
    }

    /// The explicit rules of a target, in order. Takes no memory.
    ///
    /// A suffix rule isn't explicit; the suffixes so far decide what is one (GNU make manual, "Old-Fashioned Suffix
    /// Rules").
    pub fn explicit(&self, name: &[u8]) -> Explicit<'_>
        ensures { result ≡ explicit_rules self.now name.now }
    {
        let rules = &self.rules;
        let spots = spots_of(rules, &self.spots.targets, name);
        Explicit::new(rules, spots, skips_bare(&self.suffixes, rules, spots, name))
    }

    /// As `explicit`, for a name that may have this number in `name_table`: then they are found without hashing. Takes
    /// no memory.
    pub fn explicit_at(&self, name: &[u8], number: usize) -> Explicit<'_>
        ensures { result ≡ explicit_rules self.now name.now }
    {
        let rules = &self.rules;
        let spots = spots_by_number(rules, &self.spots.targets, name, number);
        Explicit::new(rules, spots, skips_bare(&self.suffixes, rules, spots, name))
    }

    /// Whether the explicit rules of two names need the same, as those of a group's members do: told by the places of
    /// the rules, without a look at a prerequisite, so `false` says nothing. The names may have these numbers in
    /// `name_table`. Takes no memory.
    pub fn are_made_alike(
        &self,
        name: &[u8],
        number: usize,
        other: &[u8],
        other_number: usize,
    ) -> bool
        ensures quick { IsTrue result → AreMadeAlike self.now name.now other.now }
    {
        let rules = &self.rules;
        let spots = spots_by_number(rules, &self.spots.targets, name, number);
        let others = spots_by_number(rules, &self.spots.targets, other, other_number);
        need_same(rules, spots, others)
    }

    /// All names that stand in the rules, by numbers: a needed name tells its number in this table (`NeededName`).
    ///
    /// Others may stand there, too.
    pub fn name_table(&self) -> &Names
        ensures { All (Contains result.now) (flat_map names_in self.now) }
    {
        self.rules.names()
    }

    /// The names that the rules mention: the targets of explicit rules, their prerequisites, and the phony names.
    pub fn names(&self) -> Result<BookNames<'_>, AllocError>
        ensures { IfOk result (λ names. names ≡ flat_map (named_by (suffixes_of self.now)) self.now) }
    {
        BookNames::of(self.alloc, &self.rules, &self.suffixes)
    }

    /// Whether the name is a prerequisite of `.PHONY` (POSIX.1-2024 make, "Target Rules"). Takes no memory.
    pub fn is_phony(&self, name: &[u8]) -> bool
        ensures { result ≡ is_phony self.now name.now }
    {
        is_among(&self.phony, name)
    }

    /// The suffixes, in order (POSIX.1-2024 make, "Inference Rules"). Takes no memory.
    pub fn suffixes(&self) -> &Names
        ensures { result.now ≡ suffixes_of self.now }
    {
        self.suffixes.names()
    }

    /// The first of the suffixes that the name ends with. Takes no memory.
    pub fn suffix_of(&self, name: &[u8]) -> Option<&[u8]>
        ensures { option_map (λ suffix. suffix.now) result ≡ find
            (λ suffix. ends_with nat_eq name.now suffix) (suffixes_of self.now) }
    {
        self.suffixes.end_of(name)
    }

    /// The first target of an explicit rule that doesn't begin with a dot or that holds a slash (GNU
    /// make manual, "How `make` Processes a Makefile"). Takes no memory.
    pub fn first_goal(&self) -> Option<&[u8]>
        ensures { option_map (λ name. name.now) result ≡ first_goal_of self.now }
    {
        goal::first_goal(&self.suffixes, &self.rules)
    }

    /// The pattern rules that have a recipe and that no later one repeats, in order, each suffix rule
    /// in its place (GNU make manual, "Pattern Rules", "Canceling Implicit Rules", "Old-Fashioned
    /// Suffix Rules").
    #[tactic(auto, using(crate::proofs::lemmas::book::PatternLemmas::patterns_kept))]
    pub fn patterns(&self) -> Result<Vec<Pattern<'_>>, AllocError>
        ensures { IfOk result (λ patterns. patterns.items ≡ patterns_of self.now) }
    {
        let candidates = candidates(self.alloc, &self.suffixes, &self.rules)?;
        Ok(unrepeated(self.alloc, candidates)?)
    }

    fn add_accepted(&mut self, entry: Entry) -> Result<Warnings, RuleFault>
        requires { refusal_of self.old entry ≡ None }
        ensures answers { GivesExpected result (added self.old entry None) }
        ensures grown { OnOk result (self.new ≡ self.old ++ entry ∷ []) }
        ensures refused { OnErr result (self.new ≡ self.old) }
    {
        Ok(self.accept(entry)?)
    }

    // Adds an entry that isn't refused, and returns the warnings on second recipes.
    fn accept(&mut self, entry: Entry) -> Result<Warnings, AllocError>
        requires { refusal_of self.old entry ≡ None }
        ensures told { IfOk result (λ warnings. warnings ≡ override_messages self.old entry) }
        ensures grown { OnOk result (self.new ≡ self.old ++ entry ∷ []) }
        ensures refused { OnErr result (self.new ≡ self.old) }
    {
        let place = self.rules.len();
        self.rules.push(entry)?;
        let learned = learn(
            self.alloc,
            &self.rules,
            &mut self.spots,
            &mut self.phony,
            &mut self.suffixes,
            place,
        );
        match learned {
            Ok(warnings) => Ok(warnings),
            Err(refused) => {
                self.spots.forget(place);
                self.rules.truncate(place);
                Err(refused)
            }
        }
    }
}
