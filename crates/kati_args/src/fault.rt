//! Why words ask for no translation.
ghost use Rattle.std.specs.Prelude.{◌≡◌};

use std::alloc::AllocError;
use thiserror::Error;

/// Why the words ask for no translation.
#[derive(Debug, Drop, Error)]
pub enum ArgFault {
    /// They ask for this text, which says how the program is called.
    #[error("{0}")]
    Help(String),
    /// They are no command line: what is wrong with them, and how the program is called.
    #[error("{0}")]
    Usage(String),
    /// The first word with an equals sign before which no macro's name stands.
    #[error("kati: bad macro {0}")]
    BadMacro(String),
    #[error("kati: no memory")]
    Memory,
}

impl From<AllocError> for ArgFault {
    ghost use Rattle.kati_args.specs.declared.fault.ArgFault.TheVariants.{Memory};

    ghost from_gives = { λ _ fault. fault ≡ Memory };

    fn from(_: AllocError) -> Self {
        ArgFault::Memory
    }
}
