//! The program kati-asked, over any files and outputs.
ghost use Rattle.std.specs.Prelude.{map, string_bytes};
ghost use Rattle.kati.specs.Devices.{devices};
ghost use Rattle.kati.specs.Names.{AskedExits, NamingExits};

use super::naming::with_names;
use crate::program::{finish, refuse};
use crate::running::run;
use kati_args::{Args, args_of};
use kt_eval::Files;
use kt_ninja::Sink;
use std::alloc::Global;

/// The text before kati's help.
const HELP_LEAD: &[u8] =
    b"kati-asked runs kati, and writes the names that it asks for behind a NUL:\n\n";

/// The exit status of a run of kati with these arguments, which writes the names asked for behind its plan.
fn names_of_run<F: Files, O: Sink, E: Sink>(
    alloc: Global,
    args: &Args,
    files: &mut F,
    out: &mut O,
    err: &mut E,
) -> u8
    ensures { NamingExits args.now result
        (devices (F.seen files.old) (O.seen out.old) (E.seen err.old))
        (devices (F.seen files.new) (O.seen out.new) (E.seen err.new)) }
{
    let ran = run(alloc, args, files, out, err);
    let ended = with_names(alloc, ran, files, out);
    finish(err, ended)
}

/// The whole program kati-asked on these words, which are kati's, and the first of which is its name: a run of kati,
/// and then, behind a NUL, each name that the run asked for, in order, on a line of the output. Names of files that
/// don't exist are among them. So one run gives the plan and what it hangs on.
///
/// The names are written if the run came to its end, even with a fault of the makefile. Error output and exit status
/// are kati's; the status is also 3 if the names can't be written, and 4 if memory runs out for them.
pub fn asked_names<F: Files, O: Sink, E: Sink>(
    alloc: Global,
    words: &[String],
    files: &mut F,
    out: &mut O,
    err: &mut E,
) -> u8
    ensures { AskedExits (map string_bytes words.now) result
        (devices (F.seen files.old) (O.seen out.old) (E.seen err.old))
        (devices (F.seen files.new) (O.seen out.new) (E.seen err.new)) }
{
    match args_of(alloc, words) {
        Ok(args) => names_of_run(alloc, &args, files, out, err),
        Err(fault) => refuse(HELP_LEAD, out, err, &fault),
    }
}
