//! Why there is no graph.
ghost use Rattle.std.specs.Prelude.{◌≡◌};
ghost use Rattle.kt_graph.specs.declared.faults.fault.GraphFault.TheVariants.{Memory};

use bstr::BStr;
use kt_list::Sequence;
use std::alloc::AllocError;
use thiserror::Error;

/// Why there is no graph.
#[derive(Debug, Drop, Error)]
pub enum GraphFault {
    /// Out of memory.
    #[error("out of memory")]
    Memory,
    /// The makefile has a fault, which belongs to no line.
    #[error("{told} [E{number:02}]", told = BStr::new(.words.as_slice()))]
    Refused {
        /// The number at the end of the fault line, such as 27 in `[E27]`.
        number: u8,
        /// The message of the fault line, as bytes: names are copied into it as they are.
        words: Sequence<u8>,
    },
}

impl From<AllocError> for GraphFault {
    ghost from_gives = { λ _ fault. fault ≡ Memory };

    fn from(_refused: AllocError) -> GraphFault {
        GraphFault::Memory
    }
}
