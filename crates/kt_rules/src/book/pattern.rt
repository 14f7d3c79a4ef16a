//! Pattern rules, suffix rules among them.
ghost use Rattle.std.specs.Prelude.{◌≡◌, option_map};
ghost use Rattle.kt_rules.specs.Book.{is_terminal};

use super::book_rule::BookRule;
use crate::line::entry::{Kind, Needs, RecipeLine, Target};
use crate::place::Place;
use std::marker::Model;

/// A pattern rule, or a suffix rule as the pattern rule that it is equivalent to (GNU make manual, "Pattern Rules",
/// "Old-Fashioned Suffix Rules").
#[derive(Drop)]
pub struct Pattern<'a> {
    pub(crate) entry: BookRule<'a>,
    pub(crate) form: PatternForm,
}

/// The targets and prerequisites of a pattern rule.
#[derive(Drop)]
pub(crate) struct PatternForm {
    // For a suffix rule, this isn't the kind of its entry.
    pub(crate) kind: Kind,
    pub(crate) targets: Vec<Target>,
    pub(crate) needs: Needs,
}

impl<'a> Model for Pattern<'a> {
    ghost use Rattle.kt_rules.specs.Entry.{Entry};

    ghost Value = { Entry };

    ghost use Rattle.kt_rules.specs.inner.Patterns.{form_view};
    ghost use Rattle.kt_rules.specs.views.Targets.{entry_view};

    ghost view = { λ pattern. form_view (entry_view pattern.entry) pattern.form };
}

impl<'a> Pattern<'a> {
    /// The targets, each with a percent sign.
    pub fn targets(&self) -> &[Target]
        ensures { result.now ≡ self.now.targets }
    {
        self.form.targets.as_slice()
    }

    /// The prerequisites of all targets.
    pub fn needs(&self) -> &Needs
        ensures { result.now ≡ self.now.needs }
    {
        &self.form.needs
    }

    /// Whether the rule is terminal: no implicit rule is searched for to make its prerequisites (GNU make manual,
    /// "Match-Anything Pattern Rules").
    pub fn is_terminal(&self) -> bool
        ensures { result ≡ is_terminal self.now.kind }
    {
        matches!(self.form.kind, Kind::TerminalPattern)
    }

    /// The lines of the recipe, if there is one.
    pub fn recipe(&self) -> Option<&'a [RecipeLine]>
        ensures { option_map (λ lines. lines.now) result ≡ self.now.recipe }
    {
        self.entry.recipe()
    }

    /// The place of the rule line.
    pub fn place(&self) -> &'a Place
        ensures { result.now ≡ self.now.place }
    {
        self.entry.place()
    }
}
