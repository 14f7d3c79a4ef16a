//! Why a text has no reading.
ghost use Rattle.std.specs.Prelude.{◌≡◌};
ghost use Rattle.kt_ninja_reader.specs.declared.read_fault.PartFault.TheVariants.{Memory};

use std::alloc::{AllocError, AllocFailed};
use thiserror::Error;

/// What keeps a text from being read as a Ninja file.
#[derive(Clone, Copy, Debug, PartialEq, Eq, Error)]
pub enum ReadFault {
    /// The text up to the next line that begins a statement says no plan. The number is that of the line that began
    /// the statement before it, from 1.
    #[error("line {0}: not a Ninja file that can be read")]
    NotNinja(u64),
    /// Memory was refused.
    #[error("out of memory")]
    Memory,
}

// Why a part of the text has no value.
#[derive(Clone, Copy, Debug, PartialEq, Eq)]
pub(crate) enum PartFault {
    NoReading,
    Memory,
}

impl From<AllocError> for PartFault {
    ghost from_gives = { λ _ fault. fault ≡ Memory };

    fn from(_refused: AllocError) -> PartFault {
        PartFault::Memory
    }
}

impl<T: Drop> From<AllocFailed<T>> for PartFault {
    ghost from_gives = { λ _ fault. fault ≡ Memory };

    fn from(_refused: AllocFailed<T>) -> PartFault {
        PartFault::Memory
    }
}
