//! The program: kati-asked on the host's words, files and outputs.
#![tactic(auto)]

ghost use Rattle.std.specs.Prelude.{map, string_bytes};
ghost use Rattle.kati.specs.Devices.{devices};
ghost use Rattle.kati.specs.Names.{AskedExits};

use kati::asked_names;
use kati_host::{HostFiles, HostSink, words_of};
use kt_eval::Files;
use kt_ninja::Sink;
use std::alloc::Global;
use std::io::Write;
use std::process::ExitCode;

/// kati-asked on the host. What the two outputs took and the exit status are what these words mean, for each store that
/// agrees with all that the host's files answered.
fn asked_on_host<'a, O: Write + Drop, E: Write + Drop>(
    alloc: Global,
    words: &[String],
    files: &mut HostFiles<'a>,
    out: &mut HostSink<O>,
    err: &mut HostSink<E>,
) -> u8
    ensures { AskedExits (map string_bytes words.now) result
        (devices (⟦<HostFiles<'a> as Files>⟧.seen files.old) (⟦<HostSink<O> as Sink>⟧.seen out.old)
        (⟦<HostSink<E> as Sink>⟧.seen err.old))
        (devices (⟦<HostFiles<'a> as Files>⟧.seen files.new) (⟦<HostSink<O> as Sink>⟧.seen out.new)
        (⟦<HostSink<E> as Sink>⟧.seen err.new)) }
{
    asked_names(alloc, words, files, out, err)
}

fn main(rt: HostRuntime) -> ExitCode {
    let mut files = HostFiles::new(&rt);
    let mut out = HostSink::new(rt.stdout());
    let mut err = HostSink::new(rt.stderr());
    let code = match words_of(&rt) {
        Ok(words) => asked_on_host(rt.alloc(), words.as_slice(), &mut files, &mut out, &mut err),
        Err(wordless) => wordless.refuse(&mut err),
    };
    ExitCode::from(code)
}
