//! Rules as a makefile writes them.
ghost use Rattle.std.specs.Prelude.{◌≡◌, ◌<◌, ◌^◌, [], ◌∷◌, length, option_map, IfOk, OnErr, OnOk};
ghost use Rattle.kt_rules.specs.Entry.{needs_for, no_needs, with_line};
ghost use Rattle.kt_rules.specs.views.Targets.{needs_view, target_view, targets_view};

use crate::line::held_needs::HeldNeeds;
use crate::line::static_pattern::StaticPattern;
use crate::listed::{AnyNames, ListedNeeds};
use crate::needs::{NeedsView, shared_needs};
use crate::place::Place;
use crate::target::{TargetView, Targets};
use kt_list::{Sequence, Shared, Text};
use std::alloc::{AllocError, Global};
use std::marker::Model;

/// The bytes of a target or a prerequisite, unquoted and without a leading `./`.
pub type Name = Text;

/// How an entry makes its targets.
#[derive(Clone, Copy, Debug, PartialEq, Eq)]
pub enum Kind {
    /// A rule for each target, which the other rules of that target join (`:`).
    SingleColon,
    /// A rule for each target, separate from its other rules (`::`; GNU make manual, "Double-Colon Rules").
    DoubleColon,
    /// One rule that makes all targets (`&:`; GNU make manual, "Multiple Targets in a Rule").
    Group,
    /// One rule for all names that match its targets (`:`; GNU make manual, "Pattern Rules").
    Pattern,
    /// As `Pattern`, but no implicit rule is searched for to make its prerequisites (`::`; GNU make manual,
    /// "Match-Anything Pattern Rules").
    TerminalPattern,
}

/// The prerequisites of a target, in order and with repeats.
#[derive(Debug, Drop)]
pub struct Needs {
    pub prerequisites: Sequence<Name>,
    /// The prerequisites after `|` (GNU make manual, "Types of Prerequisites").
    pub order_only: Sequence<Name>,
}

impl Needs {
    pub(crate) fn none(alloc: Global) -> Needs
        ensures { result ≡ no_needs }
    {
        Needs {
            prerequisites: Sequence::from(Vec::new(alloc)),
            order_only: Sequence::from(Vec::new(alloc)),
        }
    }
}

/// The stem and prerequisites of a target in a static pattern rule (GNU make manual, "Static Pattern Rules").
#[derive(Debug, Drop)]
pub struct StemmedNeeds {
    pub stem: Name,
    /// With the stem put in for the percent sign.
    pub needs: Needs,
}

/// A target of an entry.
#[derive(Debug, Drop)]
pub struct Target {
    pub name: Name,
    /// The stem and prerequisites from the static pattern, if the entry has one.
    pub stemmed: Option<StemmedNeeds>,
}

/// A line of a recipe, unexpanded.
#[derive(Debug, Drop)]
pub struct RecipeLine {
    pub text: Shared<u8>,
    pub place: Place,
}

/// A rule line with its recipe.
///
/// An entry without targets makes nothing. Special targets are among the others.
#[derive(Drop)]
pub struct Entry {
    pub(crate) alloc: Global,
    pub(crate) kind: Kind,
    pub(crate) targets: Sequence<Name>,
    /// The target pattern of a static pattern rule.
    pub(crate) pattern: StaticPattern,
    /// In a static pattern rule, before the stem is put in.
    pub(crate) needs: HeldNeeds,
    pub(crate) recipe: Option<Vec<RecipeLine>>,
    pub(crate) place: Place,
}

impl Model for Entry {
    ghost use Rattle.std.specs.Prelude.{option_map};
    ghost use Rattle.kt_rules.specs.Entry.{Entry, rule_by};

    ghost Value = { Entry };

    ghost view = { λ s. rule_by s.kind s.targets s.pattern s.needs
        (option_map (λ lines. lines.items) s.recipe) s.place };
}

impl Entry {
    /// How the entry makes its targets.
    pub fn kind(&self) -> Kind
        ensures { result ≡ self.now.kind }
    {
        self.kind
    }

    /// The targets, in order and without repeats.
    pub fn targets(&self) -> Targets<'_>
        ensures all { targets_view result ≡ self.now.targets }
        ensures few { length self.now.targets < 2 ^ 63 }
    {
        Targets {
            names: AnyNames::Own(self.targets.as_slice()),
            pattern: self.pattern.text(),
            needs: ListedNeeds::of(self.needs.get()),
        }
    }

    /// The prerequisites of one of the targets.
    pub fn needs<'a>(&'a self, target: TargetView<'a>) -> NeedsView<'a>
        ensures { needs_view result ≡ needs_for self.now (target_view target.entry) }
    {
        match target.stem() {
            Some(stem) => NeedsView::stemmed(target.needs, stem),
            None => shared_needs(self.pattern.text(), ListedNeeds::of(self.needs.get())),
        }
    }

    /// The lines of the recipe, if there is one.
    pub fn recipe(&self) -> Option<&[RecipeLine]>
        ensures { option_map (λ lines. lines.now) result ≡ self.now.recipe }
    {
        match &self.recipe {
            Some(lines) => Some(lines.as_slice()),
            None => None,
        }
    }

    /// The place of the rule line.
    pub fn place(&self) -> &Place
        ensures { result.now ≡ self.now.place }
    {
        &self.place
    }

    /// Adds a line to the end of the recipe, which is created if there is none.
    pub fn push(&mut self, text: Shared<u8>, place: Place) -> Result<(), AllocError>
        ensures pushed { OnOk result (self.new ≡ with_line self.old (record { text = text; place = place })) }
        ensures refused { OnErr result (self.new ≡ self.old) }
    {
        let line = RecipeLine { text, place };
        match &mut self.recipe {
            Some(lines) => lines.push(line)?,
            None => self.recipe = Some(first_line(self.alloc, line)?),
        }
        Ok(())
    }
}

// A recipe with its first line.
pub(crate) fn first_line(alloc: Global, line: RecipeLine) -> Result<Vec<RecipeLine>, AllocError>
    ensures { IfOk result (λ lines. lines.items ≡ line ∷ []) }
{
    let mut lines = Vec::with_capacity(alloc, 1)?;
    lines.push(line)?;
    Ok(lines)
}
