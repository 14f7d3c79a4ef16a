//! What stands at a place of a masked line.
ghost use Rattle.std.specs.Prelude.{◌≡◌, ◌==◌, ℕ};
ghost use Rattle.kt_syntax.specs.Mask.{inside};
ghost use Rattle.kt_syntax.specs.inner.Symbols.{symbol_view};

use std::marker::Model;

/// A byte of a line, or what stands for one: a space for each byte of a continuation, and `inside`
/// for each byte of a reference.
///
/// A contract sees it as a number, and `inside` as one that no byte has.
#[derive(Drop)]
pub(crate) struct Symbol {
    outside: Option<u8>,
}

impl Model for Symbol {
    ghost Value = { ℕ };

    ghost view = { λ symbol. symbol_view symbol.outside };
}

impl Symbol {
    // A byte outside references.
    pub(crate) fn of(byte: u8) -> Symbol
        ensures { result ≡ byte }
    {
        Symbol {
            outside: Some(byte),
        }
    }

    // A byte of a reference.
    pub(crate) fn inside() -> Symbol
        ensures { result ≡ inside }
    {
        Symbol { outside: None }
    }

    // This symbol once more.
    pub(crate) fn copy(&self) -> Symbol
        ensures { result ≡ self.now }
    {
        Symbol {
            outside: self.outside,
        }
    }

    // Whether this byte stands here, outside references.
    pub(crate) fn is(&self, byte: u8) -> bool
        ensures { result ≡ (self.now == byte) }
    {
        match self.outside {
            Some(own) => own == byte,
            None => false,
        }
    }

    pub(crate) fn is_inside(&self) -> bool
        ensures { result ≡ (self.now == inside) }
    {
        match self.outside {
            Some(_byte) => false,
            None => true,
        }
    }
}
