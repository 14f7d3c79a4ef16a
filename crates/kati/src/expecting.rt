//! An output that expects a text.
//! Fast: `--check` prints the plan into an output that expects the file's text, and reads the file only where they
//! differ. Spares the reading of a file that kati wrote.
ghost use Rattle.std.specs.Prelude.{◌≡◌, ◌≤◌, ◌+◌, ◌++◌, Some, length, take, true, IfSome};

use kt_ninja::{Sink, SinkFault};

/// A sink that takes what stands next in a text, and fails at a piece that doesn't. It takes no memory.
#[derive(Drop)]
pub(crate) struct Expecting<'a> {
    text: &'a [u8],
    taken: usize,
    failures: u64,
}

impl<'a> Expecting<'a> {
    /// It expects the whole text.
    pub(crate) fn new(text: &'a [u8]) -> Expecting<'a>
        ensures text { result.text.now ≡ text.now }
        ensures taken { result.taken ≡ 0 }
    {
        Expecting {
            text,
            taken: 0,
            failures: 0,
        }
    }

    /// Whether what it has taken is this text. No contract of a sink says that it still expects the text that it was
    /// made with, so the texts are compared.
    pub(crate) fn has_taken(&self, text: &[u8]) -> bool
        ensures quick { result ≡ true → take self.now.taken self.now.text.now ≡ text.now }
    {
        self.taken <= self.text.len() && &self.text[..self.taken] == text
    }
}

// How much of a text is taken after this piece, if the piece is what stands next.
fn after(text: &[u8], taken: usize, piece: &[u8]) -> Option<usize>
    ensures quick { IfSome result (λ more. (more ≡ taken + length piece.now) × (more ≤ length text.now)
        × (take more text.now ≡ take taken text.now ++ piece.now)) }
{
    if taken <= text.len() && text[taken..].starts_with(piece) {
        Some(taken + piece.len())
    } else {
        None
    }
}

impl<'a> Sink for Expecting<'a> {
    ghost seen = { λ s. record { written = Some (take s.taken s.text.now); failed = s.failures } };

    fn write(&mut self, piece: &[u8]) -> Result<usize, SinkFault> {
        match after(self.text, self.taken, piece) {
            Some(taken) => {
                self.taken = taken;
                Ok(piece.len())
            }
            None => {
                self.failures = self.failures.saturating_add(1);
                Err(SinkFault)
            }
        }
    }

    fn failures(&self) -> u64 {
        self.failures
    }
}
