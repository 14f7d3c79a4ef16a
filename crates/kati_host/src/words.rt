//! The command line that the host gives a program.
ghost use Rattle.std.specs.Prelude.{◌≤◌};
ghost use Rattle.kati_host.specs.Refused.{RefusesWordless};
ghost use Rattle.kati_host.specs.declared.words.Wordless.TheVariants.{NotText};

use kati::{RunFault, USAGE, finish};
use kt_ninja::{Sink, put};
use std::env;
use std::io::ErrorKind;

/// Why the host gave no words.
#[derive(Debug, Drop, Clone, Copy, PartialEq, Eq)]
pub enum Wordless {
    /// A word isn't UTF-8.
    NotText,
    Memory,
}

/// The words of the command line, the first of which is the program's name.
pub fn words_of(rt: &HostRuntime) -> Result<Vec<String>, Wordless> {
    let words = env::args(rt).map_err(|error| match error.kind() {
        ErrorKind::OutOfMemory => Wordless::Memory,
        _ => Wordless::NotText,
    })?;
    words.collect(rt.alloc()).map_err(|_| Wordless::Memory)
}

impl Wordless {
    ghost use Rattle.std.specs.Prelude.{◌≤◌};
    ghost use Rattle.kati_host.specs.Refused.{RefusesWordless};

    /// The exit status of a program that got no words, after reporting why, as far as the error output takes it.
    pub fn refuse<E: Sink>(self, err: &mut E) -> u8
        ensures told { RefusesWordless self result (E.seen err.old) (E.seen err.new) }
        ensures counts { (E.seen err.old).failed ≤ (E.seen err.new).failed }
    {
        match self {
            Wordless::NotText => refuse_bytes(err),
            Wordless::Memory => finish(err, Err(RunFault::Memory)),
        }
    }
}

fn refuse_bytes<E: Sink>(err: &mut E) -> u8
    ensures told { RefusesWordless NotText result (E.seen err.old) (E.seen err.new) }
    ensures counts { (E.seen err.old).failed ≤ (E.seen err.new).failed }
{
    let _ = put(err, b"kati: a word is not UTF-8\n");
    USAGE
}
