//! The program, over any files and outputs.
ghost use Rattle.std.specs.Prelude.{◌≡◌, ◌≤◌, ◌++◌, codes, IfErr, OnErr, OnOk, map, string_bytes};
ghost use Rattle.kt_list.specs.Counters.{Rises};
ghost use Rattle.kt_ninja.specs.Written.{GrowsByFront, Takes};
ghost use Rattle.kati.specs.Devices.{devices};
ghost use Rattle.kati.specs.Exits.{exit_code};
ghost use Rattle.kati.specs.AfterRun.{KatiExits};
ghost use Rattle.kati.specs.ErrorOutput.{GivesHelp, RefusesBy, WritesOrFails, fault_words};

use crate::faults::RunFault;
use crate::running::run;
use crate::status::Status;
use kati_args::{ArgFault, args_of};
use kt_eval::Files;
use kt_ninja::{Sink, WriteFault, put};
use std::alloc::Global;

/// The exit status if the words are no command line.
pub const USAGE: u8 = 64;

/// Writes the words, the name and a newline, as far as the sink takes them.
fn put_line<E: Sink>(err: &mut E, words: &[u8], name: &str) -> Result<(), WriteFault>
    ensures told { WritesOrFails (words.now ++ (name.now ++ codes "\n")) (E.seen err.old) (E.seen err.new) }
    ensures counts { (E.seen err.old).failed ≤ (E.seen err.new).failed }
{
    put(err, words)?;
    put(err, name.as_bytes())?;
    put(err, b"\n")
}

/// Writes the text, as far as the sink takes it.
fn tell_text<E: Sink>(err: &mut E, text: &[u8])
    ensures told { WritesOrFails text.now (E.seen err.old) (E.seen err.new) }
    ensures counts { (E.seen err.old).failed ≤ (E.seen err.new).failed }
{
    let _ = put(err, text);
}

/// Writes the line of these words and this name, as far as the sink takes it.
fn tell_line<E: Sink>(err: &mut E, words: &[u8], name: &str)
    ensures told { WritesOrFails (words.now ++ (name.now ++ codes "\n")) (E.seen err.old) (E.seen err.new) }
    ensures counts { (E.seen err.old).failed ≤ (E.seen err.new).failed }
{
    let _ = put_line(err, words, name);
}

/// Reports why a run didn't come to its end, as far as the sink takes it. Takes no memory.
fn tell<E: Sink>(err: &mut E, fault: &RunFault)
    ensures told { WritesOrFails (fault_words fault.now) (E.seen err.old) (E.seen err.new) }
    ensures counts { (E.seen err.old).failed ≤ (E.seen err.new).failed }
{
    match fault {
        RunFault::Read(name) => tell_line(err, b"kati: cannot read ", name.as_str()),
        RunFault::WriteOut | RunFault::WriteErr => tell_text(err, b"kati: cannot write\n"),
        RunFault::Memory => tell_text(err, b"kati: no memory\n"),
    }
}

/// The exit status of a run. If the run didn't come to its end, reports why.
pub fn finish<E: Sink>(err: &mut E, ended: Result<Status, RunFault>) -> u8
    ensures code { result ≡ exit_code ended }
    ensures quiet { OnOk ended (err.new ≡ err.old) }
    ensures told { IfErr ended (λ fault. WritesOrFails (fault_words fault) (E.seen err.old) (E.seen err.new)) }
    ensures counts { (E.seen err.old).failed ≤ (E.seen err.new).failed }
{
    match ended {
        Ok(status) => u8::from(status),
        Err(fault) => {
            tell(err, &fault);
            fault.exit_code()
        }
    }
}

/// Writes the lead and the help, as far as the sink takes them.
fn put_help<O: Sink>(out: &mut O, lead: &[u8], text: &str) -> Result<(), WriteFault>
    ensures ok { OnOk result (Takes (O.seen out.old) (O.seen out.new) (lead.now ++ text.now)) }
    ensures fault { OnErr result (GrowsByFront (O.seen out.old) (O.seen out.new) (lead.now ++ text.now)) }
    ensures failed { OnErr result (Rises (O.seen out.old).failed (O.seen out.new).failed) }
    ensures steady { OnOk result ((O.seen out.new).failed ≡ (O.seen out.old).failed) }
{
    put(out, lead)?;
    put(out, text.as_bytes())
}

/// Writes the help, and returns the exit status.
fn give_help<O: Sink, E: Sink>(lead: &[u8], out: &mut O, err: &mut E, text: &str) -> u8
    ensures { GivesHelp (lead.now ++ text.now) result (O.seen out.old) (O.seen out.new) (E.seen err.old)
        (E.seen err.new) }
{
    match put_help(out, lead, text) {
        Ok(()) => 0,
        Err(_) => finish(err, Err(RunFault::WriteOut)),
    }
}

/// The exit status of words that ask for no run, after writing the help or why. `lead` comes before the help.
pub fn refuse<O: Sink, E: Sink>(lead: &[u8], out: &mut O, err: &mut E, fault: &ArgFault) -> u8
    ensures { RefusesBy lead.now fault.now result (O.seen out.old) (O.seen out.new) (E.seen err.old)
        (E.seen err.new) }
{
    match fault {
        ArgFault::Help(text) => give_help(lead, out, err, text.as_str()),
        ArgFault::Usage(text) => {
            tell_text(err, text.as_bytes());
            USAGE
        }
        ArgFault::BadMacro(word) => {
            tell_line(err, b"kati: bad macro ", word.as_str());
            USAGE
        }
        ArgFault::Memory => finish(err, Err(RunFault::Memory)),
    }
}

/// The whole program on these words, the first of which is its name: the command line, a run, a line on the error
/// output if the run didn't come to its end, and the exit status.
///
/// The status is 0 if the plan was written or the file to be checked is the plan, 1 if that file isn't, 2 after a fault
/// of the makefile, 3 after a failure of a device, 4 if memory ran out, and 64 if the words are no command line.
pub fn whole<F: Files, O: Sink, E: Sink>(
    alloc: Global,
    words: &[String],
    files: &mut F,
    out: &mut O,
    err: &mut E,
) -> u8
    ensures { KatiExits (map string_bytes words.now) result
        (devices (F.seen files.old) (O.seen out.old) (E.seen err.old))
        (devices (F.seen files.new) (O.seen out.new) (E.seen err.new)) }
{
    match args_of(alloc, words) {
        Ok(args) => {
            let ended = run(alloc, &args, files, out, err);
            finish(err, ended)
        }
        Err(fault) => refuse(b"", out, err, &fault),
    }
}
