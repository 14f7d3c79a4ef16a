//! A logical line and why there are none.
ghost use Rattle.std.specs.Prelude.{◌≡◌};
ghost use Rattle.kt_text.specs.declared.line.LineFault.TheVariants.{Memory};

use std::alloc::AllocError;
use std::ops::Range;
use thiserror::Error;

/// A logical line of a text.
#[derive(Debug, Drop, PartialEq, Eq)]
pub struct Line {
    /// Its bytes in the text, in bytes from the text's begin: without its last newline, without a
    /// carriage return before that, and without a backslash that continues to nothing.
    pub span: Range<usize>,
    /// The number of its first physical line, from 1.
    pub number: u64,
    /// Whether it begins with a tab.
    pub tab: bool,
}

/// Why a text has no lines.
#[derive(Clone, Copy, Debug, PartialEq, Eq, Error)]
pub enum LineFault {
    /// The text has a NUL, in the physical line of this number.
    #[error("NUL byte in line {0}")]
    Nul(u64),
    /// Memory was refused.
    #[error("out of memory")]
    Memory,
}

impl From<AllocError> for LineFault {
    ghost from_gives = { λ _ fault. fault ≡ Memory };

    fn from(_refused: AllocError) -> LineFault {
        LineFault::Memory
    }
}
