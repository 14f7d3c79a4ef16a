//! `run` and `translate`, called as a library's user calls them.
use crate::in_memory::{ran_in_memory, translated_in_memory};
use crate::sameness::same;
use kati::{Args, Outcome, RunFault, Status, args_of};
use kati_doubles::{files_of, put_messages, sink_of, words_of};
use kt_eval::{Fault, Files, MemFiles};
use kt_ninja::MemSink;
use kt_ninja_doubles::plan_of;
use kt_rules::Place;
use std::alloc::Global;
use std::process::Abort;

/// What a makefile comes to: a plan as a short text, or the file and line, the number and the words of a fault.
#[derive(Clone, Copy)]
enum Means {
    Plan(&'static [u8]),
    Fault(Option<(&'static [u8], u64)>, u8, &'static [u8]),
}

/// A makefile over memory.
#[derive(Clone, Copy)]
struct Row {
    label: &'static str,
    words: &'static [&'static str],
    files: &'static [(&'static str, &'static [u8])],
    /// The names that a translation asks for; where a file is checked, a run asks for that as well.
    names: &'static [&'static str],
    messages: &'static [u8],
    means: Means,
    /// How a run of it ends, and what it leaves on both outputs.
    status: Status,
    out: &'static [u8],
    err: &'static [u8],
}

const BOTH: &[&str] = &["makefile", "Makefile"];

const ROWS: [Row; 7] = [
    Row {
        label: "one rule",
        words: &[],
        files: &[("Makefile", b"a.o: a.c\n\tcc -c a.c -o a.o\n")],
        names: BOTH,
        messages: b"",
        means: Means::Plan(b"a.o,;=/bin/sh -c 'cc -c a.c -o a.o';a.c,;;#>a.o,"),
        status: Status::Done,
        out: b"# kati\nrule r0\n command = /bin/sh -c 'cc -c a.c -o a.o'\nbuild a.o: r0 a.c\ndefault a.o\n",
        err: b"",
    },
    Row {
        label: "canned recipe",
        words: &[],
        files: &[(
            "Makefile",
            b"define go\n@echo one\n-false\nendef\nt:\n\t$(go)\n",
        )],
        names: BOTH,
        messages: b"",
        means: Means::Plan(b"t,;=/bin/sh -c 'echo one' && { /bin/sh -c 'false' || :; };;;#>t,"),
        status: Status::Done,
        out: b"# kati\nrule r0\n command = /bin/sh -c 'echo one' && { /bin/sh -c 'false' || :; }\n\
            build t: r0\ndefault t\n",
        err: b"",
    },
    Row {
        label: "chain of pattern rules",
        words: &["--files", "l"],
        files: &[
            (
                "Makefile",
                b"%.o: %.c ; cc $<\n%.c: %.y ; yacc $<\nall: x.o\n",
            ),
            ("l", b"./x.y\n"),
        ],
        names: &["l", "makefile", "Makefile"],
        messages: b"",
        means: Means::Plan(
            b"all,;;x.o,;;#x.c,;=/bin/sh -c 'yacc x.y';x.y,;;#x.o,;=/bin/sh -c 'cc x.c';x.c,;;#>all,",
        ),
        status: Status::Done,
        out: b"# kati\nbuild all: phony x.o\nrule r0\n command = /bin/sh -c 'yacc x.y'\n\
            build x.c: r0 x.y\nrule r1\n command = /bin/sh -c 'cc x.c'\nbuild x.o: r1 x.c\n\
            default all\n",
        err: b"",
    },
    Row {
        label: "one file included twice",
        words: &["-f", "m"],
        files: &[("m", b"include a.mk\ninclude a.mk\n"), ("a.mk", b"")],
        names: &["m", "a.mk", "a.mk"],
        messages: b"",
        means: Means::Fault(None, 26, b"no targets"),
        status: Status::Fault,
        out: b"",
        err: b"kati: *** no targets [E26]\n",
    },
    Row {
        label: "check after a message",
        words: &["--check", "o"],
        files: &[
            ("Makefile", b"$(info hi)\nt: ; true\n"),
            (
                "o",
                b"# kati\nrule r0\n command = /bin/sh -c 'true'\nbuild t: r0\ndefault t\n",
            ),
        ],
        names: BOTH,
        messages: b"hi\n",
        means: Means::Plan(b"t,;=/bin/sh -c 'true';;;#>t,"),
        status: Status::Done,
        out: b"",
        err: b"hi\n",
    },
    Row {
        label: "check of another plan",
        words: &["--check", "o"],
        files: &[
            ("Makefile", b"t: ; true\n"),
            ("o", b"build t: phony\ndefault t\n"),
        ],
        names: BOTH,
        messages: b"",
        means: Means::Plan(b"t,;=/bin/sh -c 'true';;;#>t,"),
        status: Status::Differs,
        out: b"",
        err: b"",
    },
    Row {
        label: "message, then fault",
        words: &[],
        files: &[("Makefile", b"$(info hi)\nifdef X\n")],
        names: BOTH,
        messages: b"hi\n",
        means: Means::Fault(Some((b"Makefile", 2)), 12, b"missing endif"),
        status: Status::Fault,
        out: b"",
        err: b"hi\nMakefile:2: *** missing endif [E12]\n",
    },
];

const AMPLE: (usize, usize) = (4096, 4096);

fn args(rt: &impl Abort, alloc: Global, row: &Row) -> Args {
    let words = words_of(alloc, "kati", row.words).expect(rt, "memory");
    args_of(alloc, words.as_slice())
        .ok()
        .expect(rt, "words that are taken")
}

fn files(rt: &impl Abort, alloc: Global, row: &Row, nth: u64) -> MemFiles {
    files_of(alloc, row.files, nth).expect(rt, "memory")
}

/// The number, from 1, of the read after so many.
fn after(reads: usize) -> u64 {
    (reads as u64).saturating_add(1)
}

/// Translates. It stands apart so that what the contract says burdens no other proof.
fn translated(alloc: Global, args: &Args, files: &mut MemFiles) -> Result<Outcome, RunFault> {
    translated_in_memory(alloc, args, files)
}

/// Runs. It stands apart as well.
fn ran(
    alloc: Global,
    args: &Args,
    files: &mut MemFiles,
    out: &mut MemSink,
    err: &mut MemSink,
) -> Result<Status, RunFault> {
    ran_in_memory(alloc, args, files, out, err)
}

fn is_at(found: &Option<Place>, wanted: Option<(&[u8], u64)>) -> bool {
    match (found, wanted) {
        (Some(place), Some((file, line))) => place.file.as_slice() == file && place.line == line,
        (None, None) => true,
        _ => false,
    }
}

fn is_fault(found: &Fault, place: Option<(&[u8], u64)>, number: u8, words: &[u8]) -> bool {
    is_at(&found.place, place) && found.number == number && found.words.as_slice() == words
}

/// Whether an outcome is what the row says, its plan compared as a value.
fn is_meant(alloc: Global, outcome: &Outcome, row: &Row) -> bool {
    let mut messages = Vec::new(alloc);
    put_messages(&mut messages, outcome.messages.as_slice());
    let is_result = match (&outcome.result, row.means) {
        (Ok(plan), Means::Plan(text)) => *plan == plan_of(alloc, text),
        (Err(fault), Means::Fault(place, number, words)) => is_fault(fault, place, number, words),
        _ => false,
    };
    is_result && messages.as_slice() == row.messages
}

/// Whether these names were asked for.
fn has_asked(files: &MemFiles, names: &[&str]) -> bool {
    let asked = files.asked();
    asked.len() == names.len()
        && asked
            .iter()
            .zip(names)
            .all(|(found, wanted)| found.as_str() == *wanted)
}

#[test]
fn a_translation_is_its_outcome(rt: HostRuntime) {
    for row in ROWS {
        let args = args(&rt, rt.alloc(), &row);
        let mut files = files(&rt, rt.alloc(), &row, 0);
        match translated(rt.alloc(), &args, &mut files) {
            Ok(outcome) => same(&rt, row.label, is_meant(rt.alloc(), &outcome, &row), true),
            Err(fault) => assert!(rt; false, "{}: {fault}", row.label),
        }
        same(&rt, row.label, has_asked(&files, row.names), true);
    }
}

fn is_read_fault<T>(ended: &Result<T, RunFault>, name: &str) -> bool {
    match ended {
        Err(RunFault::Read(found)) => found.as_str() == name,
        _ => false,
    }
}

/// Translates the row where one of its reads fails, each in turn.
fn check_reads(rt: &impl Abort, alloc: Global, row: &Row, names: &[&str]) {
    let args = args(rt, alloc, row);
    for (before, name) in names.iter().enumerate() {
        let mut files = files(rt, alloc, row, after(before));
        let ended = translated(alloc, &args, &mut files);
        same(rt, (row.label, name), is_read_fault(&ended, name), true);
    }
}

#[test]
fn a_translation_tells_the_read_that_fails(rt: HostRuntime) {
    for row in ROWS {
        check_reads(&rt, rt.alloc(), &row, row.names);
    }
}

/// How a run ends.
#[derive(Clone, Copy)]
enum End<'a> {
    Gives(Status),
    Read(&'a str),
    WriteOut,
    WriteErr,
}

fn is_end(ended: &Result<Status, RunFault>, wanted: End) -> bool {
    match (ended, wanted) {
        (Ok(status), End::Gives(expected)) => *status == expected,
        (Err(RunFault::Read(name)), End::Read(expected)) => name.as_str() == expected,
        (Err(RunFault::WriteOut), End::WriteOut) => true,
        (Err(RunFault::WriteErr), End::WriteErr) => true,
        _ => false,
    }
}

/// Which read fails, and the room and the step of each output.
type Devices = (u64, (usize, usize), (usize, usize));

/// Runs the row by these devices, and compares how that ends and what it leaves.
fn check(
    rt: &impl Abort,
    alloc: Global,
    row: &Row,
    devices: Devices,
    wanted: End,
    held: (&[u8], &[u8]),
) {
    let args = args(rt, alloc, row);
    let mut files = files(rt, alloc, row, devices.0);
    let mut out = sink_of(alloc, devices.1).expect(rt, "memory");
    let mut err = sink_of(alloc, devices.2).expect(rt, "memory");
    let ended = ran(alloc, &args, &mut files, &mut out, &mut err);
    same(rt, row.label, is_end(&ended, wanted), true);
    same(rt, row.label, out.as_slice(), held.0);
    same(rt, row.label, err.as_slice(), held.1);
}

#[test]
fn a_run_gives_its_status(rt: HostRuntime) {
    for row in ROWS {
        let wanted = End::Gives(row.status);
        check(
            &rt,
            rt.alloc(),
            &row,
            (0, AMPLE, AMPLE),
            wanted,
            (row.out, row.err),
        );
    }
}

/// Runs the row where one of its reads fails, each in turn.
fn run_reads(rt: &impl Abort, alloc: Global, row: &Row, names: &[&str]) {
    for (before, name) in names.iter().enumerate() {
        let devices = (after(before), AMPLE, AMPLE);
        check(rt, alloc, row, devices, End::Read(name), (b"", b""));
    }
}

#[test]
fn a_run_tells_the_read_that_fails(rt: HostRuntime) {
    for row in ROWS {
        run_reads(&rt, rt.alloc(), &row, row.names);
    }
}

/// The file that is to be checked is read after the messages are written.
#[test]
fn a_run_tells_the_check_that_fails(rt: HostRuntime) {
    for row in ROWS {
        if let ["--check", name] = row.words {
            let devices = (after(row.names.len()), AMPLE, AMPLE);
            check(
                &rt,
                rt.alloc(),
                &row,
                devices,
                End::Read(name),
                (b"", row.err),
            );
        }
    }
}

#[test]
fn a_run_tells_an_output_that_fails(rt: HostRuntime) {
    for row in ROWS {
        for (room, _) in row.out.iter().enumerate() {
            let devices = (0, (room, 4096), AMPLE);
            check(
                &rt,
                rt.alloc(),
                &row,
                devices,
                End::WriteOut,
                (&row.out[..room], row.err),
            );
        }
        for (room, _) in row.err.iter().enumerate() {
            let devices = (0, AMPLE, (room, 4096));
            check(
                &rt,
                rt.alloc(),
                &row,
                devices,
                End::WriteErr,
                (b"", &row.err[..room]),
            );
        }
    }
}
