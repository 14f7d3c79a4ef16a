//! The names of a run as text.
ghost use Rattle.std.specs.Prelude.{◌≡◌, IfOk, map, string_bytes};
ghost use Rattle.kati.specs.Names.{NamesAfter, PutsNames, behind_output};

use crate::faults::RunFault;
use crate::status::Status;
use kt_eval::Files;
use kt_ninja::{Sink, put};
use std::alloc::{AllocError, Global};

/// A NUL, and then each name on a line of its own.
fn behind_output(alloc: Global, names: &[String]) -> Result<Vec<u8>, AllocError>
    ensures { IfOk result (λ text. text.items ≡ behind_output (map string_bytes names.now)) }
{
    let mut text = Vec::new(alloc);
    text.push(b'\0')?;
    for name in names {
        text.extend_from_slice(name.as_bytes())?;
        text.push(b'\n')?;
    }
    Ok(text)
}

/// Writes the names after a run with this status, all at once. If memory runs out, nothing more is written.
fn put_names<O: Sink>(
    alloc: Global,
    status: Status,
    names: &[String],
    out: &mut O,
) -> Result<Status, RunFault>
    ensures { PutsNames status result (map string_bytes names.now) (O.seen out.old) (O.seen out.new) }
{
    let text = behind_output(alloc, names)?;
    match put(out, text.as_slice()) {
        Ok(()) => Ok(status),
        Err(_) => Err(RunFault::WriteOut),
    }
}

/// How the program ends after a run. If the run came to its end, even with a fault of the makefile, writes the names
/// that were asked for.
pub(crate) fn with_names<F: Files, O: Sink>(
    alloc: Global,
    run: Result<Status, RunFault>,
    files: &F,
    out: &mut O,
) -> Result<Status, RunFault>
    ensures { NamesAfter run result (F.seen files.now).names (O.seen out.old) (O.seen out.new) }
{
    match run {
        Ok(status) => put_names(alloc, status, files.asked(), out),
        Err(fault) => Err(fault),
    }
}
