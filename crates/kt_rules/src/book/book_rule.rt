//! A rule of a book.
ghost use Rattle.std.specs.Prelude.{◌≡◌, option_map};
ghost use Rattle.kt_rules.specs.Entry.{needs_for};
ghost use Rattle.kt_rules.specs.views.Targets.{entry_view, line_needs, listed_needs, needs_view, target_view};
ghost use Rattle.kt_rules.specs.views.Targets.{targets_view};
ghost use Rattle.kt_rules.specs.inner.Held.{numbered_target};

use crate::line::entry::{Kind, RecipeLine};
use crate::listed::{AnyNames, ListedNeeds, NumberedNames};
use crate::needs::{NeedsView, shared_needs};
use crate::place::Place;
use crate::target::{TargetView, Targets};
use kt_list::Names;

/// A rule line with its recipe, as a book holds it.
#[derive(Clone, Copy)]
pub struct BookRule<'a> {
    pub(crate) names: &'a Names,
    pub(crate) kind: Kind,
    pub(crate) targets: &'a [u32],
    /// The target pattern of a static pattern rule.
    pub(crate) pattern: Option<&'a [u8]>,
    pub(crate) prerequisites: &'a [u32],
    pub(crate) order_only: &'a [u32],
    pub(crate) recipe: Option<&'a [RecipeLine]>,
    pub(crate) place: &'a Place,
}

impl<'a> BookRule<'a> {
    /// How the rule makes its targets.
    pub fn kind(self) -> Kind
        ensures { result ≡ (entry_view self.entry).kind }
    {
        self.kind
    }

    /// The targets, in order and without repeats.
    pub fn targets(self) -> Targets<'a>
        ensures { targets_view result ≡ (entry_view self.entry).targets }
    {
        let names = self.names;
        let numbers = self.targets;
        Targets {
            names: AnyNames::ByNumber(NumberedNames { names, numbers }),
            pattern: self.pattern,
            needs: self.listed(),
        }
    }

    // The target whose name has this number.
    pub(crate) fn target(self, number: usize) -> TargetView<'a>
        ensures { target_view result ≡ numbered_target self.entry number }
    {
        TargetView {
            name: self.names.name_at(number),
            pattern: self.pattern,
            needs: self.listed(),
        }
    }

    /// The prerequisites of one of the targets.
    pub fn needs(self, target: TargetView<'a>) -> NeedsView<'a>
        ensures { needs_view result ≡ needs_for (entry_view self.entry) (target_view target.entry) }
    {
        match target.stem() {
            Some(stem) => NeedsView::stemmed(target.needs, stem),
            None => self.shared_needs(),
        }
    }

    // The prerequisites that all targets share: none in a static pattern rule.
    pub(crate) fn shared_needs(self) -> NeedsView<'a>
        ensures { needs_view result ≡ (entry_view self.entry).needs }
    {
        shared_needs(self.pattern, self.listed())
    }

    /// The lines of the recipe, if there is one.
    pub fn recipe(self) -> Option<&'a [RecipeLine]>
        ensures { option_map (λ lines. lines.now) result ≡ (entry_view self.entry).recipe }
    {
        self.recipe
    }

    /// The place of the rule line.
    pub fn place(self) -> &'a Place
        ensures { result.now ≡ (entry_view self.entry).place }
    {
        self.place
    }

    // The prerequisites, without a stem.
    fn listed(self) -> ListedNeeds<'a>
        ensures { listed_needs result ≡ line_needs self.entry }
    {
        let names = self.names;
        ListedNeeds {
            prerequisites: AnyNames::ByNumber(NumberedNames {
                names,
                numbers: self.prerequisites,
            }),
            order_only: AnyNames::ByNumber(NumberedNames {
                names,
                numbers: self.order_only,
            }),
        }
    }
}
