//! Which kinds of rules there may be.
//! Fast: where no rule has two colons and none is a group, no target is looked up for them. Spares two look-ups a
//! target.
ghost use Rattle.std.specs.Prelude.{◌≡◌, true};
ghost use Rattle.kt_rules.specs.declared.line.entry.Kind.{Kind as AnyKind};
ghost use Rattle.kt_rules.specs.inner.Held.{sees};

use super::target_rule::{is_double, is_group};
use crate::line::entry::Kind;

/// Whether there may be rules with two colons, and groups: where there are none, no target has to be looked up for
/// them.
#[derive(Clone, Copy)]
pub(crate) struct Kinds {
    pub(crate) double: bool,
    pub(crate) group: bool,
}

impl Kinds {
    /// Neither.
    pub(crate) fn none() -> Kinds {
        Kinds {
            double: false,
            group: false,
        }
    }

    /// These kinds, and that of one more rule.
    /// Idle: both kinds.
    pub(crate) fn with(self, kind: Kind) -> Kinds
        ensures quick_kept { (other : AnyKind) → sees self other ≡ true → sees result other ≡ true }
        ensures quick_added { sees result kind ≡ true }
    {
        Kinds {
            double: self.double || is_double(kind),
            group: self.group || is_group(kind),
        }
    }
}
