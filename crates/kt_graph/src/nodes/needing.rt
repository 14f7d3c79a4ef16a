//! What the rules of a name need together.
ghost use Rattle.std.specs.Prelude.{◌≡◌, [], map};
ghost use Rattle.kt_rules.specs.Entry.{no_needs};
ghost use Rattle.kt_rules.specs.views.Targets.{rule_view, names_view, needs_view};
ghost use Rattle.kt_graph.specs.inner.nodes.Needed.{joined_after, needed_as, needing_view};

use kt_rules::{NeededNames, NeedsView, TargetRule};

/// The prerequisites of a part: those that come first, and those of rules, one after another.
#[derive(Clone, Copy)]
pub(crate) struct Needing<'n, 'r, 'a> {
    pub(crate) first: Option<NeedsView<'n>>,
    pub(crate) earlier: &'r [TargetRule<'a>],
    pub(crate) later: &'r [TargetRule<'a>],
}

/// Which of the prerequisites of a rule.
#[derive(Clone, Copy)]
pub(crate) enum Sort {
    Prerequisite,
    OrderOnly,
}

impl<'n, 'r, 'a> Needing<'n, 'r, 'a> {
    pub(crate) fn after(
        needs: NeedsView<'n>,
        earlier: &'r [TargetRule<'a>],
        later: &'r [TargetRule<'a>],
    ) -> Needing<'n, 'r, 'a>
        ensures { needing_view result ≡ joined_after (needs_view needs.entry) (map rule_view earlier.now)
            (map rule_view later.now) }
    {
        let first = Some(needs);
        Needing {
            first,
            earlier,
            later,
        }
    }

    pub(crate) fn of_rules(rules: &'r [TargetRule<'a>]) -> Needing<'n, 'r, 'a>
        ensures { needing_view result ≡ joined_after no_needs (map rule_view rules.now) [] }
    {
        let first: Option<NeedsView<'n>> = None;
        Needing {
            first,
            earlier: rules,
            later: &[],
        }
    }
}

/// The prerequisites of one sort.
pub(crate) fn needed_as<'n>(needs: NeedsView<'n>, sort: Sort) -> NeededNames<'n>
    ensures { names_view result ≡ needed_as sort (needs_view needs.entry) }
{
    match sort {
        Sort::Prerequisite => needs.prerequisites(),
        Sort::OrderOnly => needs.order_only(),
    }
}
