//! Runs over memory, whose files and outputs may fail.
use crate::sameness::same;
use kati::asked_names;
use kati_doubles::{files_of, sink_of, words_of};
use kt_eval::MemFiles;
use kt_ninja::MemSink;
use kt_testing::put;
use std::alloc::Global;
use std::process::Abort;

/// A run whose devices don't fail: its label, the words after the program's name, the files, the plan and the names
/// that are written, the exit status, and the error output.
type Row = (
    &'static str,
    &'static [&'static str],
    &'static [(&'static str, &'static [u8])],
    &'static [u8],
    &'static [&'static str],
    u8,
    &'static [u8],
);

const RULE: &[u8] = b"a.o: a.c\n\tcc -c a.c -o a.o\n";

const RULE_TEXT: &[u8] =
    b"# kati\nrule r0\n command = /bin/sh -c 'cc -c a.c -o a.o'\nbuild a.o: r0 a.c\ndefault a.o\n";

const X_TEXT: &[u8] = b"# kati\nrule r0\n command = /bin/sh -c 'x'\nbuild t: r0\ndefault t\n";

const ROWS: [Row; 9] = [
    (
        "Makefile",
        &[],
        &[("Makefile", RULE)],
        RULE_TEXT,
        &["makefile", "Makefile"],
        0,
        b"",
    ),
    (
        "makefile",
        &[],
        &[("makefile", RULE)],
        RULE_TEXT,
        &["makefile"],
        0,
        b"",
    ),
    // Absent names are among them, and one that is asked for twice.
    (
        "included and absent files",
        &["-f", "m"],
        &[
            ("m", b"include a.mk\n-include b.mk\ninclude a.mk\nt: ; x\n"),
            ("a.mk", b"-include c.mk\n"),
        ],
        X_TEXT,
        &["m", "a.mk", "c.mk", "b.mk", "a.mk", "c.mk"],
        0,
        b"",
    ),
    (
        "list of files",
        &["--files", "l"],
        &[
            ("Makefile", b"%.o: %.c ; cc $<\nall: x.o\n"),
            ("l", b"x.c\n"),
        ],
        b"# kati\nbuild all: phony x.o\nrule r0\n command = /bin/sh -c 'cc x.c'\n\
          build x.o: r0 x.c\ndefault all\n",
        &["l", "makefile", "Makefile"],
        0,
        b"",
    ),
    // The file to be checked is asked for last.
    (
        "checked file",
        &["--check", "o"],
        &[("Makefile", RULE)],
        b"",
        &["makefile", "Makefile", "o"],
        1,
        b"",
    ),
    (
        "message",
        &[],
        &[("Makefile", b"$(info hi)\nt: ; x\n")],
        X_TEXT,
        &["makefile", "Makefile"],
        0,
        b"hi\n",
    ),
    // The names up to a fault of the makefile.
    (
        "fault after an absent file",
        &[],
        &[
            ("Makefile", b"include a.mk\ninclude no.mk\ninclude b.mk\n"),
            ("a.mk", b""),
        ],
        b"",
        &["makefile", "Makefile", "a.mk", "no.mk"],
        2,
        b"Makefile:2: *** no file no.mk [E04]\n",
    ),
    (
        "goal without a rule",
        &["z"],
        &[("Makefile", RULE)],
        b"",
        &["makefile", "Makefile"],
        2,
        b"kati: *** no rule for z [E27]\n",
    ),
    (
        "bad macro word",
        &["CC:=x"],
        &[("Makefile", RULE)],
        b"",
        &[],
        64,
        b"kati: bad macro CC:=x\n",
    ),
];

const CANNOT_WRITE: &[u8] = b"kati: cannot write\n";

const HELP_LEAD: &[u8] =
    b"kati-asked runs kati, and writes the names that it asks for behind a NUL:\n\n";

/// Which read fails, or 0, and the room of each output and how much it takes in a call.
type Devices = (u64, (usize, usize), (usize, usize));

const AMPLE: (usize, usize) = (4096, 4096);

/// What the output gets: the plan, a NUL, and the names, each on a line; nothing where no run is asked for.
fn written(alloc: Global, row: &Row) -> Vec<u8> {
    let mut text = Vec::new(alloc);
    if row.5 == 64 {
        return text;
    }
    put(&mut text, row.3);
    put(&mut text, b"\0");
    for name in row.4 {
        put(&mut text, name.as_bytes());
        put(&mut text, b"\n");
    }
    text
}

/// An outcome as one text: the exit status, and what both outputs hold.
fn outcome(alloc: Global, status: u8, out: &[u8], err: &[&[u8]]) -> Vec<u8> {
    let mut told = Vec::new(alloc);
    put(&mut told, &[status]);
    put(&mut told, b"\nout: ");
    put(&mut told, out);
    put(&mut told, b"\nerr: ");
    for part in err {
        put(&mut told, part);
    }
    told
}

/// Calls. It stands apart so that what the contract says burdens no other proof.
fn exit(
    alloc: Global,
    words: &[String],
    files: &mut MemFiles,
    out: &mut MemSink,
    err: &mut MemSink,
) -> u8 {
    asked_names(alloc, words, files, out, err)
}

/// The outcome of the program on the row's words and files, with these devices.
fn ended(rt: &impl Abort, alloc: Global, row: &Row, (nth, out, err): Devices) -> Vec<u8> {
    let words = words_of(alloc, "kati-asked", row.1).expect(rt, "memory");
    let mut files = files_of(alloc, row.2, nth).expect(rt, "memory");
    let mut out = sink_of(alloc, out).expect(rt, "memory");
    let mut err = sink_of(alloc, err).expect(rt, "memory");
    let status = exit(alloc, words.as_slice(), &mut files, &mut out, &mut err);
    outcome(alloc, status, out.as_slice(), &[err.as_slice()])
}

/// The run of a row with these devices ends so.
fn check(
    rt: &impl Abort,
    alloc: Global,
    row: &Row,
    devices: Devices,
    status: u8,
    (out, err): (&[u8], &[&[u8]]),
) {
    let wanted = outcome(alloc, status, out, err);
    let told = ended(rt, alloc, row, devices);
    same(rt, row.0, told.as_slice(), wanted.as_slice());
}

#[test]
fn writes_plan_and_names_with_ample_room_and_by_a_byte_a_call(rt: HostRuntime) {
    for row in ROWS {
        let all = written(rt.alloc(), &row);
        let told = [row.6];
        let held = (all.as_slice(), told.as_slice());
        check(&rt, rt.alloc(), &row, (0, AMPLE, AMPLE), row.5, held);
        let slow = (4096, 1);
        check(&rt, rt.alloc(), &row, (0, slow, slow), row.5, held);
    }
}

/// After a read that fails nothing is written: its name is reported.
fn check_reads(rt: &impl Abort, alloc: Global, row: &Row, names: &[&str]) {
    for (before, name) in names.iter().enumerate() {
        let devices = (before as u64 + 1, AMPLE, AMPLE);
        let told: [&[u8]; 3] = [b"kati: cannot read ", name.as_bytes(), b"\n"];
        check(rt, alloc, row, devices, 3, (b"", &told));
    }
}

#[test]
fn stops_at_each_read_that_fails(rt: HostRuntime) {
    for row in ROWS {
        check_reads(&rt, rt.alloc(), &row, row.4);
    }
}

/// An output that fails after any number of bytes holds these.
#[test]
fn stops_at_each_byte_of_the_output(rt: HostRuntime) {
    for row in ROWS {
        let all = written(rt.alloc(), &row);
        for room in 0..all.len() {
            let told = [row.6, CANNOT_WRITE];
            let held = (&all[..room], told.as_slice());
            check(&rt, rt.alloc(), &row, (0, (room, 4096), AMPLE), 3, held);
        }
    }
}

/// Of an error output that fails nothing more is written, nor anything of the output.
#[test]
fn stops_at_each_byte_of_the_error_output(rt: HostRuntime) {
    for row in ROWS {
        if row.5 < 64 {
            for room in 0..row.6.len() {
                let told = [&row.6[..room]];
                let held = (b"".as_slice(), told.as_slice());
                check(&rt, rt.alloc(), &row, (0, AMPLE, (room, 4096)), 3, held);
            }
        }
    }
}

/// The help is kati's, under a line that says whose program it is.
#[test]
fn helps_as_kati_does(rt: HostRuntime) {
    let row: Row = ("help", &["--help"], &[], b"", &[], 0, b"");
    let told = ended(&rt, rt.alloc(), &row, (0, AMPLE, AMPLE));
    let wanted = outcome(rt.alloc(), 0, HELP_LEAD, &[]);
    let lead = wanted.as_slice().strip_suffix(b"\nerr: ");
    if let Some(lead) = lead {
        assert!(rt; told.as_slice().starts_with(lead));
        assert!(rt; told.len() > wanted.len() + 100);
    } else {
        assert!(rt; false);
    }
    let cut = (HELP_LEAD.len() - 1, 4096);
    let told = [CANNOT_WRITE];
    let held = (&HELP_LEAD[..cut.0], told.as_slice());
    check(&rt, rt.alloc(), &row, (0, cut, AMPLE), 3, held);
}
