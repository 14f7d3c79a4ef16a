//! Faults of a makefile with their messages.
ghost use Rattle.kt_eval.specs.Step.{fault_of};
ghost use Rattle.kati.specs.inner.Stops.{IsFaultOf};

use kt_eval::{Fault, Stop};
use kt_rules::{FaultKind, Place};
use std::alloc::Global;

/// The stop for a fault of this kind about this name, or for out of memory while its message is made.
pub(crate) fn stop_on(alloc: Global, kind: FaultKind, name: &[u8], place: Option<Place>) -> Stop
    ensures { IsFaultOf (fault_of place kind name.now) result }
{
    match Fault::new(alloc, kind, name, place) {
        Ok(fault) => Stop::Fault(fault),
        Err(_refused) => Stop::Memory,
    }
}
