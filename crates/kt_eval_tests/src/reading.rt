//! What makefiles say when they are read, by the rows that kati is to read.
use crate::sameness::same;
use kati_doubles::{files_of, put_messages, put_stop};
use kt_eval::{Files, Flavour, Machine, Macro, Macros, MemFiles, Origin, Reading, Stop, Value};
use kt_rules::{Book, NeededNames, RecipeLine};
use kt_testing::put;
use std::alloc::{AllocError, Global};
use std::process::Abort;
use std::test::Fail;

mod conditions;
mod continuations;
mod hostile;
mod levels;
mod references;
mod refusals;

/// What a reading begins with, beside `Makefile`.
#[derive(Clone, Copy)]
struct Start<'a> {
    /// Macros of the command line.
    arguments: &'a [(&'a str, &'a str)],
    files: &'a [(&'a str, &'a [u8])],
    limit: u64,
}

const ALONE: Start<'static> = Start {
    arguments: &[],
    files: &[],
    limit: 100,
};

fn arguments_of(alloc: Global, named: &[(&str, &str)]) -> Result<Macros, AllocError> {
    let mut macros = Macros::new(alloc);
    for (name, text) in named {
        let value = Value::copied(alloc, text.as_bytes())?;
        macros.insert(
            Vec::from_slice(alloc, name.as_bytes())?,
            Macro {
                flavour: Flavour::Deferred,
                origin: Origin::CommandLine,
                value,
            },
        )?;
    }
    Ok(macros)
}

fn put_asked(out: &mut Vec<u8>, names: &[String]) {
    for name in names {
        put(out, b"< ");
        put(out, name.as_bytes());
        put(out, b"\n");
    }
}

fn put_names(alloc: Global, out: &mut Vec<u8>, names: NeededNames) {
    for name in names {
        put(out, b" ");
        match name.text(alloc) {
            Ok(text) => put(out, text.as_slice()),
            Err(_refused) => put(out, b"no memory"),
        }
    }
}

fn put_recipe(out: &mut Vec<u8>, lines: &[RecipeLine]) {
    for line in lines {
        put(out, b"\t");
        put(out, line.text.as_slice());
        put(out, b"\n");
    }
}

/// The rules of a goal, much as a makefile has them.
fn put_rules(alloc: Global, out: &mut Vec<u8>, book: &Book, goal: &[u8]) {
    for rule in book.explicit(goal) {
        let needs = rule.needs();
        put(out, goal);
        put(out, b":");
        put_names(alloc, out, needs.prerequisites());
        put(out, b" |");
        put_names(alloc, out, needs.order_only());
        put(out, b"\n");
        put_recipe(out, rule.entry.recipe().unwrap_or(&[]));
    }
}

/// The rules of the first goal, or what stopped the reading.
fn put_end(alloc: Global, out: &mut Vec<u8>, book: &Book, outcome: &Result<(), Stop>) {
    match outcome {
        Ok(()) => put_rules(alloc, out, book, book.first_goal().unwrap_or(b"")),
        Err(stop) => put_stop(out, stop),
    }
}

/// Reads. It stands apart so that what the contract says of a reading burdens no other proof.
fn read(machine: &mut Machine, files: &mut MemFiles, names: &[&str]) -> Result<(), Stop> {
    machine.read_file(files, names)
}

fn files_with(alloc: Global, start: Start<'_>, makefile: &[u8]) -> Result<MemFiles, AllocError> {
    let mut named = Vec::from_slice(alloc, start.files)?;
    named.push(("Makefile", makefile))?;
    files_of(alloc, named.as_slice(), 0)
}

fn machine_of(alloc: Global, start: Start<'_>) -> Result<Machine, AllocError> {
    let macros = arguments_of(alloc, start.arguments)?;
    Machine::new(alloc, macros, start.limit)
}

/// The messages of a reading, the names asked for after `makefile` and `Makefile`, and how it ended.
fn put_told(
    alloc: Global,
    out: &mut Vec<u8>,
    reading: &Reading,
    asked: &[String],
    outcome: &Result<(), Stop>,
) {
    put_messages(out, reading.messages.as_slice());
    put_asked(out, asked.get(2..).unwrap_or(&[]));
    put_end(alloc, out, &reading.book, outcome);
}

/// What is reported of reading `Makefile`. It is cut into small parts, since each value that an
/// early end drops is dear to prove.
fn told(alloc: Global, start: Start<'_>, makefile: &[u8]) -> Result<Vec<u8>, AllocError> {
    let files = files_with(alloc, start, makefile)?;
    let machine = machine_of(alloc, start)?;
    Ok(told_by(alloc, machine, files))
}

fn told_by(alloc: Global, machine: Machine, files: MemFiles) -> Vec<u8> {
    let (mut machine, mut files) = (machine, files);
    let outcome = read(&mut machine, &mut files, &["makefile", "Makefile"]);
    let mut out = Vec::new(alloc);
    let reading = machine.finish();
    put_told(alloc, &mut out, &reading, files.asked(), &outcome);
    out
}

fn tells(
    rt: &impl Abort,
    alloc: Global,
    start: Start<'_>,
    rows: &[(&str, &str)],
) -> Result<(), AllocError> {
    for (makefile, expected) in rows {
        let found = told(alloc, start, makefile.as_bytes())?;
        same(rt, makefile, found.as_slice(), expected.as_bytes());
    }
    Ok(())
}

fn with_limit(limit: u64) -> Start<'static> {
    Start {
        arguments: &[],
        files: &[],
        limit,
    }
}

#[test]
fn assigns(rt: HostRuntime) -> Result<(), Fail> {
    let alloc = rt.alloc();
    tells(
        &rt,
        alloc,
        with_limit(100),
        &[
            ("A = x\nA += y\n$(info [$(A)])\n", "[x y]\n"),
            ("A :::= $$\n$(info $(value A))\n", "$$\n"),
            ("A := $$x\n$(info $(value A))\n", "$x\n"),
            (
                "A = 1\nD = $(A)\nI ::= $(A)\nT :::= $$x$(A)\nA = 2\nT += $(A)\n$(info $(D) $(I) $(T))\n",
                "2 1 $x1 2\n",
            ),
            ("A := x\nA += $(eval A := y)z\n$(info $(A))\n", "x z\n"),
            ("A := x\nA += $(eval A = y)z\n$(info $(value A))\n", "x z\n"),
            ("A := x\nA += $(eval A += y)z\n$(info $(A))\n", "x z\n"),
            (
                "A = $(eval A += y)x\n$(info [$(A)] $(value A))\n",
                "[x] $(eval A += y)x y\n",
            ),
            (
                "A := x\nA += y\nB := $(A)\nA += z\n$(info $(A) $(B))\n",
                "x y z x y\n",
            ),
            (
                "A := a text of some bytes\nA += and a longer one\nB := $(A)\nA += z\n$(info $(A)|$(B))\n",
                "a text of some bytes and a longer one z|a text of some bytes and a longer one\n",
            ),
            ("A += $(B)\nB = y\n$(info $(A))\n", "y\n"),
            ("A = 1\nA ?= 2\nB ?= 3\n$(info $(A)$(B))\n", "13\n"),
            ("A = ok # $(\n$(info [$(A)])\n", "[ok ]\n"),
            ("A = $(x # y\n$(info $(value A))\n", "$(x # y\n"),
            ("A = $(x\nall:\n", "all: |\n"),
            ("A$(x = 1\n", "Makefile:1: *** unterminated reference [E07]"),
            ("a\\:=b\n$(info $(a\\))\n", "b\n"),
            ("a\\ = b\n$(info $(a\\))\n", "b\n"),
            ("a+b?c;d$$ = 1\n$(info [$(value a+b?c;d$$)])\n", "[1]\n"),
            (
                "e = $() \nA$(e) = 1\n",
                "Makefile:2: *** bad macro name [E09]",
            ),
            ("X != ls\n", "Makefile:1: *** refused form != [E17]"),
            (
                "X := $(shell ls)\n",
                "Makefile:1: *** refused function shell [E16]",
            ),
            (
                "E =\n\tA = 1\n\t# c\n$(info $(A))\nB = 2\n\t$(E)\n",
                "1\nMakefile:6: *** recipe before a target [E06]",
            ),
            (
                "$(info [$(SHELL)][$(.SHELLFLAGS)][$(MAKE)])\n",
                "[/bin/sh][-c][make]\n",
            ),
        ],
    )?;
    Ok(())
}

#[test]
fn defines(rt: HostRuntime) -> Result<(), Fail> {
    let alloc = rt.alloc();
    tells(
        &rt,
        alloc,
        with_limit(100),
        &[
            (
                "define A\ndefine B\nx\nendef\nendef\n$(info $(value A))\n",
                "define B\nx\nendef\n",
            ),
            ("define A = $(\nx\nendef\n$(info [$(A)])\n", "[x]\n"),
            (
                "define A B\nx\nendef\n",
                "Makefile:1: *** bad macro name [E09]",
            ),
            ("define A \nx\nendef\n$(info [$(A)])\n", "[x]\n"),
            (
                "define A\nendef = x\ndefine := y\nendef#c\n$(info [$(value A)])\n",
                "[endef = x\ndefine := y]\n",
            ),
            ("define A :=\n$(warning w)\n\nendef\n", "Makefile:1: w\n"),
            (
                "define A :=\n$(error no)\nendef\n",
                "Makefile:1: *** no [E19]",
            ),
            ("define A !=\nx\n", "Makefile:1: *** refused form != [E17]"),
            (
                "ifdef X\ndefine A !=\nx\n",
                "Makefile:2: *** missing endef [E14]",
            ),
            ("A = a\ndefine A +=\nb\nendef\n$(info [$(A)])\n", "[a b]\n"),
            ("define N\n\n\nendef\n$(info [$(N)])\n", "[\n]\n"),
            ("endef\n", "Makefile:1: *** stray endef [E13]"),
            (
                "a: b\na:: c\ndefine\nendef\n",
                "Makefile:2: *** single and double colon on a [E24]",
            ),
        ],
    )?;
    Ok(())
}

#[test]
fn reads_rules(rt: HostRuntime) -> Result<(), Fail> {
    let alloc = rt.alloc();
    tells(
        &rt,
        alloc,
        with_limit(100),
        &[
            (
                "a.o: a.c\n\tcc -c a.c -o a.o\n",
                "a.o: a.c |\n\tcc -c a.c -o a.o\n",
            ),
            (
                "a.o: a.c\r\n\tcc -c a.c -o a.o",
                "a.o: a.c |\n\tcc -c a.c -o a.o\n",
            ),
            (
                "t: x | x y\n\techo $^ - $|\n",
                "t: x | x y\n\techo $^ - $|\n",
            ),
            ("include: a\n", "include: a |\n"),
            ("R = a: ; b\n$(R)\n", "a: ; b |\n"),
            ("R = a: b # c\n$(R)\n", "a: b |\n"),
            ("R = a: b \\# c\n$(R)\n", "a: b # c |\n"),
            ("R = : a %.o | b\nt $(R)\n", "t: a %.o | b\n"),
            (
                "define R\na: b\nc: d\nendef\n$(R)\n",
                "Makefile:5: *** bad static pattern b\nc [E21]",
            ),
            ("a::::=b\n", "Makefile:1: *** target-specific macro [E23]"),
            ("a:: = b\n", "Makefile:1: *** target-specific macro [E23]"),
            ("a : = b\n", "Makefile:1: *** target-specific macro [E23]"),
            ("a:b=c\n", "Makefile:1: *** target-specific macro [E23]"),
            ("a b := c\n", "Makefile:1: *** target-specific macro [E23]"),
            ("\tendif\n", "Makefile:1: *** recipe before a target [E06]"),
            ("\techo x\n", "Makefile:1: *** recipe before a target [E06]"),
            ("a", "Makefile:1: *** missing separator [E05]"),
            ("a.o:", "a.o: |\n"),
            ("a: b\r", "a: b\r |\n"),
            ("a: b\nc\0\n", "Makefile:2: *** NUL byte [E01]"),
            (
                "@ = table\nt: $@ ; $(foreach @,a b,$@) $@ $(value @)\n",
                "t: table |\n\t$(foreach @,a b,$@) $@ $(value @)\n",
            ),
            ("all: $(A\n", "Makefile:1: *** unterminated reference [E07]"),
            (
                "a: $(b ; x\n",
                "Makefile:1: *** unterminated reference [E07]",
            ),
            ("$(info hi)\n\tnever\nt:\n", "hi\nt: |\n"),
            (
                "define go\n@echo one\n-false\nendef\nt:\n\t$(go)\n",
                "t: |\n\t$(go)\n",
            ),
            (
                "define R\n$(1): $(1).c ; cc $(1).c\nendef\n$(foreach p,a b,$(eval $(call R,$(p))))\n",
                "a: a.c |\n\tcc a.c\n",
            ),
        ],
    )?;
    Ok(())
}

#[test]
fn closes_rules(rt: HostRuntime) -> Result<(), Fail> {
    let alloc = rt.alloc();
    tells(
        &rt,
        alloc,
        with_limit(100),
        &[
            (
                "a: ; x\na: ; y\nexport Z\n",
                "Makefile:3: *** refused form export [E17]",
            ),
            (
                "a: ; x\na: ; y\nendef\n",
                "Makefile:3: *** stray endef [E13]",
            ),
            (
                "a: ; x\na: ; y\nZ != z\n",
                "Makefile:2: warning: overriding recipe for target 'a'\nMakefile:3: *** refused form != [E17]",
            ),
            (
                "a: ; x\na: ; y\nt: A = b\n",
                "Makefile:2: warning: overriding recipe for target 'a'\nMakefile:3: *** target-specific macro [E23]",
            ),
            (
                "a: ; one\nifeq ($(eval a: ; two),)\n\tthree\nendif\n",
                "Makefile:1: warning: overriding recipe for target 'a'\na: |\n\ttwo\na: |\n\tone\n\tthree\n",
            ),
            (
                "a: b ; one $^\na: c ; two $^\n",
                "Makefile:2: warning: overriding recipe for target 'a'\na: b |\n\tone $^\na: c |\n\ttwo $^\n",
            ),
            (
                "a:: b ; one $<\na:: c ; two $<\n",
                "a: b |\n\tone $<\na: c |\n\ttwo $<\n",
            ),
            (
                "a: b\na:: c\n",
                "Makefile:2: *** single and double colon on a [E24]",
            ),
            ("a b &: c\n", "Makefile:1: *** bad group [E35]"),
            (
                "a b &: c ; x\na: d ; y\n",
                "Makefile:2: *** two recipes on a [E36]",
            ),
            (
                ".DEFAULT a &: b ; x\n",
                "Makefile:1: *** refused target .DEFAULT [E22]",
            ),
        ],
    )?;
    Ok(())
}

#[test]
fn keeps_command_line(rt: HostRuntime) -> Result<(), Fail> {
    let alloc = rt.alloc();
    let start = Start {
        arguments: &[("A", "1"), ("A$(B)", "2")],
        files: &[],
        limit: 100,
    };
    tells(
        &rt,
        alloc,
        start,
        &[
            ("A := $(error no)\nall: $(A)\n", "all: 1 |\n"),
            ("define A :=\n$(error no)\nendef\nall: $(A)\n", "all: 1 |\n"),
            ("$(info $(A$$(B)))\n", "2\n"),
            ("A ?= 3\nA += 4\n$(info $(A))\n", "1\n"),
            ("A != x\n", "Makefile:1: *** refused form != [E17]"),
        ],
    )?;
    Ok(())
}

#[test]
fn includes(rt: HostRuntime) -> Result<(), Fail> {
    let alloc = rt.alloc();
    let start = Start {
        arguments: &[],
        files: &[
            ("i", b"$(warning in)\nA = 1\n"),
            ("b.mk", b"$(info b)"),
            ("e.mk", b""),
        ],
        limit: 100,
    };
    tells(
        &rt,
        alloc,
        start,
        &[
            (
                "include a.mk\n",
                "< a.mk\nMakefile:1: *** no file a.mk [E04]",
            ),
            ("-include a.mk b.mk\n", "b\n< a.mk\n< b.mk\n"),
            ("sinclude a.mk\n$(info x)\n", "x\n< a.mk\n"),
            ("include e.mk\ninclude e.mk\n", "< e.mk\n< e.mk\n"),
            (
                "include a\\ b\n",
                "< a\\\nMakefile:1: *** no file a\\ [E04]",
            ),
            (
                "include b.mk *.mk e.mk\n",
                "b\n< b.mk\nMakefile:1: *** refused name *.mk [E20]",
            ),
            ("include ~a\n", "Makefile:1: *** refused name ~a [E20]"),
            (
                "include i\n$(warning $(A))\n",
                "i:1: in\nMakefile:2: 1\n< i\n",
            ),
            (
                "$(eval include i$$(warning w))\nt:\n",
                "Makefile:1: w\ni:1: in\n< i\nt: |\n",
            ),
            (
                "a: ; x\na: ; y\ninclude a.mk\n",
                "Makefile:2: warning: overriding recipe for target 'a'\n< a.mk\nMakefile:3: *** no file a.mk [E04]",
            ),
        ],
    )?;
    Ok(())
}
