//! Why a rule is refused.
ghost use Rattle.std.specs.Prelude.{◌≡◌};
ghost use Rattle.kt_rules.specs.declared.fault.RuleFault.TheVariants.{Memory};

use crate::place::Place;
use bstr::BStr;
use kt_list::Sequence;
use std::alloc::AllocError;
use thiserror::Error;

/// Why a rule is refused.
#[derive(Debug, Drop, Error)]
pub enum RuleFault {
    /// Out of memory.
    #[error("out of memory")]
    Memory,
    /// The makefile has a fault.
    #[error("{told} [E{number:02}]", told = BStr::new(.words.as_slice()))]
    Refused {
        /// The number at the end of the fault line, such as 5 in `[E05]`.
        number: u8,
        /// The place of the rule line.
        place: Place,
        /// The message of the fault line, as bytes: names are copied into it as they are.
        words: Sequence<u8>,
    },
}

impl From<AllocError> for RuleFault {
    ghost from_gives = { λ _ fault. fault ≡ Memory };

    fn from(_refused: AllocError) -> RuleFault {
        RuleFault::Memory
    }
}
