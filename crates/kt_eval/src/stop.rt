//! Why the reading of a makefile stops.
ghost use Rattle.std.specs.Prelude.{◌≡◌};
ghost use Rattle.kt_eval.specs.views.Outcome.{rule_stop};
ghost use Rattle.kt_eval.specs.declared.stop.Stop.TheVariants.{Memory};

use crate::fault::Fault;
use kt_rules::RuleFault;
use std::alloc::{AllocError, AllocFailed};

/// Why nothing more is read or expanded.
#[derive(Debug, Drop)]
pub enum Stop {
    /// The makefile has a fault.
    Fault(Fault),
    /// The file with this name couldn't be read.
    Device(String),
    /// Out of memory.
    Memory,
}

impl From<AllocError> for Stop {
    ghost from_gives = { λ _ stop. stop ≡ Memory };

    fn from(_refused: AllocError) -> Stop {
        Stop::Memory
    }
}

impl From<RuleFault> for Stop {
    ghost from_gives = { λ refused stop. stop ≡ rule_stop refused };

    fn from(refused: RuleFault) -> Stop {
        match refused {
            RuleFault::Refused {
                number,
                place,
                words,
            } => Stop::Fault(Fault {
                place: Some(place),
                number,
                words,
            }),
            RuleFault::Memory => Stop::Memory,
        }
    }
}

impl<T: Drop> From<AllocFailed<T>> for Stop {
    ghost from_gives = { λ _ stop. stop ≡ Memory };

    fn from(_refused: AllocFailed<T>) -> Stop {
        Stop::Memory
    }
}
