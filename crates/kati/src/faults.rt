//! Why a run doesn't come to its end.
ghost use Rattle.std.specs.Prelude.{◌≡◌};
ghost use Rattle.kati.specs.declared.faults.RunFault.TheVariants.{Memory};

use std::alloc::AllocError;
use thiserror::Error;

/// Why a run didn't come to its end.
#[derive(Debug, Drop, Error)]
pub enum RunFault {
    /// The device of the file with this name failed.
    #[error("kati: cannot read {0}")]
    Read(String),
    /// The output failed.
    #[error("kati: cannot write")]
    WriteOut,
    /// The error output failed.
    #[error("kati: cannot write")]
    WriteErr,
    #[error("kati: no memory")]
    Memory,
}

impl From<AllocError> for RunFault {
    ghost from_gives = { λ _ e. e ≡ Memory };

    fn from(_: AllocError) -> RunFault {
        RunFault::Memory
    }
}

impl RunFault {
    ghost use Rattle.std.specs.Prelude.{◌≡◌};
    ghost use Rattle.kati.specs.Exits.{fault_code};

    /// The exit status: 3 after a failure of a device, 4 if memory ran out.
    pub fn exit_code(&self) -> u8
        ensures { result ≡ fault_code self.now }
    {
        match self {
            RunFault::Read(_) | RunFault::WriteOut | RunFault::WriteErr => 3,
            RunFault::Memory => 4,
        }
    }
}
