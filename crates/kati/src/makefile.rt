//! The makefile, with the macros of the command line.
ghost use Rattle.std.specs.Prelude.{◌≡◌, ◌≤◌, ℕ, List, [], IfOk, None, OnOk};
ghost use Rattle.kt_eval.specs.files.Files.{AgreeWith, Store};
ghost use Rattle.kt_eval.specs.views.files.Files.{AnswersGrow};
ghost use Rattle.kt_text.specs.Words.{Text};
ghost use Rattle.kt_eval.specs.views.reading.Machine.{ComesBefore, new_machine, read_by, reading_by, traced_by};
ghost use Rattle.kt_eval.specs.reading.Machine.{Makefile as MakefileSeen, Trace, read_of};
ghost use Rattle.kt_eval.specs.reading.Machine.{traced};
ghost use Rattle.kt_list.specs.Prefixes.{IsPrefix};
ghost use Rattle.kt_eval.specs.views.Outcome.{Gives, IfCut, Blames, BlamesBy};
ghost use Rattle.kt_eval.specs.Outcome.{StepEnd, left_of};
ghost use Rattle.kati.specs.Makefile.{command_line_table, makefile_names, makefile_read, with_macro};
ghost use Rattle.kati.specs.inner.Views.{read_view};

use kati_args::{Args, MacroWord as Definition, Word};
use kt_eval::{Files, Flavour, Machine, Macro, Macros, Makefile, Origin, Reading, Stop, Value};
use kt_list::Sequence;
use kt_rules::Book;
use std::alloc::{AllocError, Global};

/// The macros and rules of the makefile, and its messages, including those before a fault.
pub(crate) fn makefile_read<F: Files>(
    alloc: Global,
    args: &Args,
    files: &mut F,
) -> (Vec<Sequence<u8>>, Result<Makefile, Stop>)
    ensures gives { (store : Store) → AgreeWith store (F.seen files.new).answers → Gives read_view result.1
        (traced result.0.items (F.seen files.new).names)
        (makefile_read args.now store (traced [] (F.seen files.old).names)) }
    ensures asked { (store : Store) → AgreeWith store (F.seen files.new).answers → IsPrefix (F.seen files.new).names
        (left_of (makefile_read args.now store (traced [] (F.seen files.old).names))).asked }
    ensures grows { AnswersGrow (F.seen files.old).answers (F.seen files.new).answers }
    ensures counts { (F.seen files.old).failed ≤ (F.seen files.new).failed }
    ensures blames { Blames result.1 (F.seen files.old) (F.seen files.new) }
{
    match machine_of(alloc, args) {
        Ok(machine) => read(machine, &args.makefile, files),
        Err(_refused) => (Vec::new(alloc), Err(Stop::Memory)),
    }
}

// A machine that has read only the command line.
fn machine_of(alloc: Global, args: &Args) -> Result<Machine, AllocError>
    ensures { IfOk result (λ machine. machine ≡ new_machine args.now.limit (command_line_table args.now.macros)) }
{
    Machine::new(alloc, macros_of(alloc, args.macros.as_slice())?, args.limit)
}

#[tactic(auto, unfolding(crate::specs::Makefile::command_line_table))]
fn macros_of(alloc: Global, definitions: &[Definition]) -> Result<Macros, AllocError>
    ensures { IfOk result (λ macros. macros ≡ command_line_table definitions.now) }
{
    let mut macros = Macros::new(alloc);
    for definition in definitions {
        set(alloc, &mut macros, definition)?;
    }
    Ok(macros)
}

// The value has no blanks before it.
fn set(alloc: Global, macros: &mut Macros, definition: &Definition) -> Result<(), AllocError>
    ensures { OnOk result (macros.new ≡ with_macro macros.old definition.now) }
{
    let value = Macro {
        flavour: Flavour::Deferred,
        origin: Origin::CommandLine,
        value: Value::copied(alloc, kt_text::trim_start(definition.value.as_slice()))?,
    };
    macros.insert(Vec::from_slice(alloc, definition.name.as_slice())?, value)
}

// Reads the makefile, and ends the machine.
fn read<F: Files>(
    machine: Machine,
    name: &Option<Word>,
    files: &mut F,
) -> (Vec<Sequence<u8>>, Result<Makefile, Stop>)
    ensures reads { machine.refusal ≡ None → (store : Store) → AgreeWith store (F.seen files.new).answers
        → Gives read_view result.1 (traced result.0.items (F.seen files.new).names)
        (reading_by store (makefile_names name.now) machine (F.seen files.old).names) }
    ensures asked { machine.refusal ≡ None → (store : Store) → AgreeWith store (F.seen files.new).answers
        → IsPrefix (F.seen files.new).names
        (left_of (reading_by store (makefile_names name.now) machine (F.seen files.old).names)).asked }
    ensures grows { AnswersGrow (F.seen files.old).answers (F.seen files.new).answers }
    ensures counts { (F.seen files.old).failed ≤ (F.seen files.new).failed }
    ensures blames { machine.refusal ≡ None
        → Blames result.1 (F.seen files.old) (F.seen files.new) }
{
    let mut machine = machine;
    let ended = read_by_name(&mut machine, name, files);
    told_and_read(ended, machine.finish())
}

// Reads the file with this name, or the first of the default names of a makefile that exists.
fn read_by_name<F: Files>(
    machine: &mut Machine,
    name: &Option<Word>,
    files: &mut F,
) -> Result<(), Stop>
    ensures reads { machine.old.refusal ≡ None → (store : Store) → AgreeWith store (F.seen files.new).answers
        → Gives (λ _. read_by machine.new) result (traced_by machine.new (F.seen files.new).names)
        (reading_by store (makefile_names name.now) machine.old (F.seen files.old).names) }
    ensures cut { machine.old.refusal ≡ None → (store : Store) → AgreeWith store (F.seen files.new).answers
        → IfCut result (ComesBefore (traced_by machine.new (F.seen files.new).names)
        (left_of (reading_by store (makefile_names name.now) machine.old (F.seen files.old).names))) }
    ensures grows { AnswersGrow (F.seen files.old).answers (F.seen files.new).answers }
    ensures counts { (F.seen files.old).failed ≤ (F.seen files.new).failed }
    ensures blames { machine.old.refusal ≡ None
        → Blames result (F.seen files.old) (F.seen files.new) }
{
    match name {
        Some(name) => machine.read_file(files, &[name.as_str()]),
        None => machine.read_file(files, &["makefile", "Makefile"]),
    }
}

// The messages, and the makefile unless its reading was stopped.
fn told_and_read(
    ended: Result<(), Stop>,
    reading: Reading,
) -> (Vec<Sequence<u8>>, Result<Makefile, Stop>)
    ensures gives { (asked : List Text) (end : StepEnd Trace MakefileSeen)
        → Gives (λ _. read_of reading.macros reading.book) ended (traced reading.messages asked) end
        → Gives read_view result.1 (traced result.0.items asked) end }
    ensures blames { (old new : ℕ) (asked : List Text) → BlamesBy ended old new asked
        → BlamesBy result.1 old new asked }
{
    let Reading {
        macros,
        book,
        messages,
    } = reading;
    (messages.into_vec(), makefile_if(ended, macros, book))
}

fn makefile_if(ended: Result<(), Stop>, macros: Macros, book: Book) -> Result<Makefile, Stop>
    ensures gives { (trace : Trace) (end : StepEnd Trace MakefileSeen)
        → Gives (λ _. read_of macros book) ended trace end
        → Gives read_view result trace end }
    ensures blames { (old new : ℕ) (asked : List Text) → BlamesBy ended old new asked → BlamesBy result old new asked }
{
    match ended {
        Ok(()) => Ok(Makefile { macros, book }),
        Err(stop) => Err(stop),
    }
}
