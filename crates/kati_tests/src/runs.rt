//! Runs over memory, whose files and outputs may fail.
use crate::sameness::same;
use kati::{RunFault, finish, whole};
use kati_doubles::{files_of, sink_of, words_of};
use kt_eval::{Files, MemFiles};
use kt_ninja::MemSink;
use kt_testing::put;
use std::alloc::Global;
use std::process::Abort;

/// A run whose devices don't fail: its label, the words after the program's name, the files, the names that it asks
/// for, the exit status, the output and the error output.
type Row = (
    &'static str,
    &'static [&'static str],
    &'static [(&'static str, &'static [u8])],
    &'static [&'static str],
    u8,
    &'static [u8],
    &'static [u8],
);

const ONE_RULE: &[u8] = b"a.o: a.c\n\tcc -c a.c -o a.o\n";

const ONE_RULE_TEXT: &[u8] =
    b"# kati\nrule r0\n command = /bin/sh -c 'cc -c a.c -o a.o'\nbuild a.o: r0 a.c\ndefault a.o\n";

const BOTH: &[&str] = &["makefile", "Makefile"];

/// Runs whose files and outputs fail in turn.
const ROWS: [Row; 8] = [
    (
        "one rule",
        &[],
        &[("Makefile", ONE_RULE)],
        BOTH,
        0,
        ONE_RULE_TEXT,
        b"",
    ),
    (
        "macro of the command line",
        &["CC=tcc"],
        &[("Makefile", b"CC = cc\na: ; $(CC) $@\n")],
        BOTH,
        0,
        b"# kati\nrule r0\n command = /bin/sh -c 'tcc a'\nbuild a: r0\ndefault a\n",
        b"",
    ),
    (
        "order-only prerequisites",
        &[],
        &[("Makefile", b"t: x | x y\n\techo $^ - $|\n")],
        BOTH,
        0,
        b"# kati\nrule r0\n command = /bin/sh -c 'echo x - y'\nbuild t: r0 x || y\ndefault t\n",
        b"",
    ),
    (
        "one file included twice",
        &["-f", "m"],
        &[("m", b"include a.mk\ninclude a.mk\n"), ("a.mk", b"")],
        &["m", "a.mk", "a.mk"],
        2,
        b"",
        b"kati: *** no targets [E26]\n",
    ),
    (
        "check of its own output",
        &["--check", "o"],
        &[
            ("Makefile", b"t: ; echo \"it's $$HOME\"\n"),
            (
                "o",
                b"# kati\nrule r0\n command = /bin/sh -c 'echo \"it'\\''s $$HOME\"'\nbuild t: r0\ndefault t\n",
            ),
        ],
        &["makefile", "Makefile", "o"],
        0,
        b"",
        b"",
    ),
    (
        "rules made by eval",
        &["a", "b"],
        &[(
            "Makefile",
            b"define R\n$(1): $(1).c ; cc $(1).c\nendef\n$(foreach p,a b,$(eval $(call R,$(p))))\n",
        )],
        BOTH,
        0,
        b"# kati\nrule r0\n command = /bin/sh -c 'cc a.c'\nbuild a: r0 a.c\n\
          rule r1\n command = /bin/sh -c 'cc b.c'\nbuild b: r1 b.c\ndefault a b\n",
        b"",
    ),
    (
        "chain of pattern rules",
        &["--files", "l"],
        &[
            (
                "Makefile",
                b"%.o: %.c ; cc $<\n%.c: %.y ; yacc $<\nall: x.o\n",
            ),
            ("l", b"./x.y\n"),
        ],
        &["l", "makefile", "Makefile"],
        0,
        b"# kati\nbuild all: phony x.o\nrule r0\n command = /bin/sh -c 'yacc x.y'\n\
          build x.c: r0 x.y\nrule r1\n command = /bin/sh -c 'cc x.c'\nbuild x.o: r1 x.c\n\
          default all\n",
        b"",
    ),
    // Both outputs get something.
    (
        "message in a recipe",
        &[],
        &[("Makefile", b"t: ; echo $(info hi)x\n")],
        BOTH,
        0,
        b"# kati\nrule r0\n command = /bin/sh -c 'echo x'\nbuild t: r0\ndefault t\n",
        b"hi\n",
    ),
];

/// Further runs.
const FURTHER: [Row; 12] = [
    (
        "makefile before Makefile",
        &[],
        &[("makefile", ONE_RULE)],
        &["makefile"],
        0,
        ONE_RULE_TEXT,
        b"",
    ),
    (
        "goal of the command line",
        &["a.o"],
        &[("Makefile", ONE_RULE)],
        BOTH,
        0,
        ONE_RULE_TEXT,
        b"",
    ),
    (
        "GNUmakefile alone",
        &[],
        &[("GNUmakefile", ONE_RULE)],
        BOTH,
        2,
        b"",
        b"kati: *** no makefile [E03]\n",
    ),
    (
        "empty makefile",
        &[],
        &[("Makefile", b"")],
        BOTH,
        2,
        b"",
        b"kati: *** no targets [E26]\n",
    ),
    (
        "macro alone",
        &[],
        &[("Makefile", b"A = 1\n")],
        BOTH,
        2,
        b"",
        b"kati: *** no targets [E26]\n",
    ),
    (
        "NUL on the second line",
        &[],
        &[("Makefile", b"a: b\nc\0")],
        BOTH,
        2,
        b"",
        b"Makefile:2: *** NUL byte [E01]\n",
    ),
    (
        "NUL after a continuation",
        &[],
        &[("Makefile", b"a \\\nb\0\n")],
        BOTH,
        2,
        b"",
        b"Makefile:2: *** NUL byte [E01]\n",
    ),
    (
        "two NULs",
        &[],
        &[("Makefile", b"\0\n\0")],
        BOTH,
        2,
        b"",
        b"Makefile:1: *** NUL byte [E01]\n",
    ),
    (
        "cycle of one",
        &[],
        &[("Makefile", b"a: a\n\tx\n")],
        BOTH,
        2,
        b"",
        b"kati: *** circular: a [E28]\n",
    ),
    (
        "check of the makefile itself",
        &["--check", "Makefile"],
        &[("Makefile", ONE_RULE)],
        &["makefile", "Makefile", "Makefile"],
        1,
        b"",
        b"",
    ),
    (
        "check of no file",
        &["--check", "plan"],
        &[("Makefile", ONE_RULE)],
        &["makefile", "Makefile", "plan"],
        1,
        b"",
        b"",
    ),
    (
        "bad macro word",
        &["CC:=x"],
        &[("Makefile", ONE_RULE)],
        &[],
        64,
        b"",
        b"kati: bad macro CC:=x\n",
    ),
];

const CANNOT_WRITE: &[u8] = b"kati: cannot write\n";

/// Which read fails, or 0, and the room of each output and how much it takes in a call.
type Devices = (u64, (usize, usize), (usize, usize));

const AMPLE: (usize, usize) = (4096, 4096);

fn put_name(told: &mut Vec<u8>, name: &str) {
    put(told, name.as_bytes());
    put(told, b"\n");
}

/// The end of an outcome: the exit status, and what both outputs hold.
fn put_end(told: &mut Vec<u8>, status: u8, out: &[u8], err: &[&[u8]]) {
    put(told, &[status]);
    put(told, b"\nout: ");
    put(told, out);
    put(told, b"\nerr: ");
    for part in err {
        put(told, part);
    }
}

/// An outcome as one text: the names that were asked for, and the end.
fn wanted(alloc: Global, names: &[&str], status: u8, out: &[u8], err: &[&[u8]]) -> Vec<u8> {
    let mut told = Vec::new(alloc);
    for name in names {
        put_name(&mut told, name);
    }
    put_end(&mut told, status, out, err);
    told
}

/// Calls. It stands apart so that what the contract says burdens no other proof.
fn exit(
    alloc: Global,
    words: &[String],
    files: &mut MemFiles,
    out: &mut MemSink,
    err: &mut MemSink,
) -> u8 {
    whole(alloc, words, files, out, err)
}

/// Appends the outcome of the program on the row's words and files, with these devices; returns how often each output
/// was called.
fn put_run(
    told: &mut Vec<u8>,
    rt: &impl Abort,
    alloc: Global,
    row: &Row,
    (nth, out, err): Devices,
) -> (u64, u64) {
    let words = words_of(alloc, "kati", row.1).expect(rt, "memory");
    let mut files = files_of(alloc, row.2, nth).expect(rt, "memory");
    let mut out = sink_of(alloc, out).expect(rt, "memory");
    let mut err = sink_of(alloc, err).expect(rt, "memory");
    let status = exit(alloc, words.as_slice(), &mut files, &mut out, &mut err);
    for name in files.asked() {
        put_name(told, name.as_str());
    }
    put_end(told, status, out.as_slice(), &[err.as_slice()]);
    (out.calls(), err.calls())
}

/// The run of a row with these devices asks for these names and ends so.
fn check(
    rt: &impl Abort,
    alloc: Global,
    row: &Row,
    devices: Devices,
    names: &[&str],
    status: u8,
    (out, err): (&[u8], &[&[u8]]),
) {
    let wanted = wanted(alloc, names, status, out, err);
    let mut told = Vec::new(alloc);
    let _calls = put_run(&mut told, rt, alloc, row, devices);
    same(rt, row.0, told.as_slice(), wanted.as_slice());
}

/// With ample room each text is written by one call, and by a byte a call it is the same text.
fn check_ends(rt: &impl Abort, alloc: Global, row: &Row) {
    let mut told = Vec::new(alloc);
    let calls = put_run(&mut told, rt, alloc, row, (0, AMPLE, AMPLE));
    let wanted = wanted(alloc, row.3, row.4, row.5, &[row.6]);
    same(rt, row.0, told.as_slice(), wanted.as_slice());
    if row.4 < 64 {
        same(
            rt,
            row.0,
            calls,
            (u64::from(!row.5.is_empty()), u64::from(!row.6.is_empty())),
        );
    }
    let slow = (4096, 1);
    check(
        rt,
        alloc,
        row,
        (0, slow, slow),
        row.3,
        row.4,
        (row.5, &[row.6]),
    );
}

#[test]
fn ends_with_ample_room_and_by_a_byte_a_call(rt: HostRuntime) {
    for row in ROWS {
        check_ends(&rt, rt.alloc(), &row);
    }
    for row in FURTHER {
        check_ends(&rt, rt.alloc(), &row);
    }
}

/// Each read that fails ends the run: its name is reported, and nothing is written.
#[test]
fn stops_at_each_read_that_fails(rt: HostRuntime) {
    for row in ROWS {
        for before in 0..row.3.len() {
            let names = &row.3[..before + 1];
            if let Some(name) = names.last() {
                let told: [&[u8]; 3] = [b"kati: cannot read ", name.as_bytes(), b"\n"];
                let devices = (names.len() as u64, AMPLE, AMPLE);
                check(&rt, rt.alloc(), &row, devices, names, 3, (b"", &told));
            }
        }
    }
}

/// An output that fails after any number of bytes holds these, and the run ends there.
#[test]
fn stops_at_each_byte_of_the_output(rt: HostRuntime) {
    for row in ROWS {
        for room in 0..row.5.len() {
            let told = [row.6, CANNOT_WRITE];
            let held = (&row.5[..room], told.as_slice());
            check(
                &rt,
                rt.alloc(),
                &row,
                (0, (room, 4096), AMPLE),
                row.3,
                3,
                held,
            );
        }
    }
}

/// Of an error output that fails nothing more is written, and the output gets nothing.
#[test]
fn stops_at_each_byte_of_the_error_output(rt: HostRuntime) {
    for row in ROWS {
        for room in 0..row.6.len() {
            let told = [&row.6[..room]];
            let held = (b"".as_slice(), told.as_slice());
            check(
                &rt,
                rt.alloc(),
                &row,
                (0, AMPLE, (room, 4096)),
                row.3,
                3,
                held,
            );
        }
    }
}

/// Outputs that answer 0 to every piece.
#[test]
fn stops_at_outputs_that_stall(rt: HostRuntime) {
    for row in ROWS {
        if !row.5.is_empty() {
            let told = [row.6, CANNOT_WRITE];
            let held = (b"".as_slice(), told.as_slice());
            check(&rt, rt.alloc(), &row, (0, (4096, 0), AMPLE), row.3, 3, held);
        }
        if !row.6.is_empty() {
            let held = (b"".as_slice(), [].as_slice());
            check(&rt, rt.alloc(), &row, (0, AMPLE, (4096, 0)), row.3, 3, held);
        }
    }
}

/// The line that is told of a fault is what the fault displays; with the exit status.
fn check_told(rt: &impl Abort, alloc: Global, fault: RunFault, status: u8) {
    let line = format!(in alloc; "{fault}\n").expect(rt, "memory");
    let mut err = sink_of(alloc, AMPLE).expect(rt, "memory");
    assert_eq!(rt; finish(&mut err, Err(fault)), status);
    assert_eq!(rt; err.as_slice(), line.as_bytes());
}

#[test]
fn tells_what_a_fault_displays(rt: HostRuntime) {
    let name = "a b.mk".to_string(rt.alloc()).expect(&rt, "memory");
    check_told(&rt, rt.alloc(), RunFault::Read(name), 3);
    check_told(&rt, rt.alloc(), RunFault::WriteOut, 3);
    check_told(&rt, rt.alloc(), RunFault::WriteErr, 3);
    check_told(&rt, rt.alloc(), RunFault::Memory, 4);
}
