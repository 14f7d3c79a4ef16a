//! What is wrong with the names that goals need; a trouble needs no memory.
ghost use Rattle.std.specs.Prelude.{◌≡◌};
ghost use Rattle.kt_graph.specs.views.faults.Faults.{ReportsTrouble};
ghost use Rattle.kt_graph.specs.faults.Faults.{trouble_kind_and_name};
ghost use Rattle.kt_graph.specs.inner.faults.Troubles.{trouble_view};

use crate::faults::fault::GraphFault;
use kt_list::Sequence;
use kt_rules::FaultKind;
use std::alloc::Global;

/// What is wrong, and the name that the message is about.
#[derive(Clone, Copy)]
pub(crate) enum Trouble<'g> {
    /// No rule makes a goal.
    NoRule(&'g [u8]),
    /// A name depends on itself.
    Circular(&'g [u8]),
    /// A name is reserved for kati.
    Reserved,
    /// Two made names are names of one file.
    OneFile(&'g [u8]),
}

impl<'g> Trouble<'g> {
    /// The fault that reports it.
    pub(crate) fn fault(self, alloc: Global) -> GraphFault
        ensures { ReportsTrouble result (trouble_view self.entry) }
    {
        let (kind, name) = self.kind_and_name();
        match kind.words_with(alloc, name) {
            Ok(words) => GraphFault::Refused {
                number: kind.number(),
                words: Sequence::from(words),
            },
            Err(_refused) => GraphFault::Memory,
        }
    }

    // The kind of the fault, and the name in its message, which is empty if the message has none.
    fn kind_and_name(self) -> (FaultKind, &'g [u8])
        ensures { (result.0, result.1.now) ≡ trouble_kind_and_name (trouble_view self.entry) }
    {
        match self {
            Trouble::NoRule(goal) => (FaultKind::NoRule, goal),
            Trouble::Circular(name) => (FaultKind::Circular, name),
            Trouble::Reserved => (FaultKind::ReservedName, b""),
            Trouble::OneFile(name) => (FaultKind::TwoTargetsOfOneFile, name),
        }
    }
}
