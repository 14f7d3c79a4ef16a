//! Why a rule is refused; a refusal needs no memory.
ghost use Rattle.std.specs.Prelude.{◌≡◌};
ghost use Rattle.kt_rules.specs.inner.Refusals.{ReportsFault, refusal_view};
ghost use Rattle.kt_rules.specs.Refusals.{rule_line_fault, kind_and_name};

use crate::fault::RuleFault;
use crate::fault_kind::FaultKind;
use crate::place::Place;
use kt_list::Sequence;
use std::alloc::Global;

/// What is wrong with a rule, and the name that the message is about.
#[derive(Clone, Copy, Debug)]
pub(crate) enum Refusal<'a> {
    MissingSeparator,
    RefusedName(&'a [u8]),
    BadStaticPattern(&'a [u8]),
    RefusedTarget(&'a [u8]),
    BadGroup,
    /// A target has rules of one colon and of two.
    BothColons(&'a [u8]),
    /// A target has two recipes, one of them a group's.
    TwoRecipes(&'a [u8]),
}

impl<'a> Refusal<'a> {
    /// The fault for a rule at a place.
    pub(crate) fn at(self, alloc: Global, place: Place) -> RuleFault
        ensures { ReportsFault result (rule_line_fault place (refusal_view self.entry)) }
    {
        let (kind, name) = self.kind_and_name();
        match kind.words_with(alloc, name) {
            Ok(words) => RuleFault::Refused {
                number: kind.number(),
                place,
                words: Sequence::from(words),
            },
            Err(_refused) => RuleFault::Memory,
        }
    }

    // The kind of the fault, and the name in its message, which is empty if the message has none.
    fn kind_and_name(self) -> (FaultKind, &'a [u8])
        ensures { (result.0, result.1.now) ≡ kind_and_name (refusal_view self.entry) }
    {
        match self {
            Refusal::MissingSeparator => (FaultKind::MissingSeparator, b""),
            Refusal::RefusedName(name) => (FaultKind::RefusedName, name),
            Refusal::BadStaticPattern(name) => (FaultKind::BadStaticPattern, name),
            Refusal::RefusedTarget(name) => (FaultKind::RefusedTarget, name),
            Refusal::BadGroup => (FaultKind::BadGroup, b""),
            Refusal::BothColons(name) => (FaultKind::SingleAndDoubleColon, name),
            Refusal::TwoRecipes(name) => (FaultKind::TwoRecipes, name),
        }
    }
}
