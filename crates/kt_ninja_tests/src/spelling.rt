//! Random plans: what is printed of them, beside a plain printing, and what is read of other spellings of it.
use crate::sameness::same;
use crate::writing::written;
use kt_ninja::{Made, Path, Plan, Statement};
use kt_ninja_doubles::plan_of;
use kt_ninja_reader::read_plan;
use kt_testing::{Random, put};
use std::alloc::Global;

/// How many plans a test compares.
const COUNT: usize = 2000;

/// What may stand for a space between words, before a line, and for the letter `a` of a path.
#[derive(Clone, Copy)]
struct Spelling {
    gaps: &'static [&'static [u8]],
    lines: &'static [&'static [u8]],
    letters: &'static [&'static [u8]],
}

/// As kati prints.
const PRINTED: Spelling = Spelling {
    gaps: &[b" "],
    lines: &[b""],
    letters: &[b"a"],
};

/// As Ninja reads, where the variable `v` is `a`.
const VARIED: Spelling = Spelling {
    gaps: &[b" ", b"  ", b" $\n", b" $\n  ", b" $\n $\n "],
    lines: &[b"", b"", b"\n", b"# c\n", b"  #\n", b"w = $v$\n  b\n"],
    letters: &[b"a", b"a", b"${v}", b"$\n a"],
};

/// What names are made of; none has a comma, which ends a name in the short text of a plan.
const NAMES: &[&[u8]] = &[
    b"a",
    b"b",
    b" ",
    b"$",
    b":",
    b"x/y",
    b"it's",
    b"a name of more than thirty bytes",
];

/// What commands are made of; none has a hash, which ends a statement there.
const COMMANDS: &[&[u8]] = &[b"cc", b" ", b"$", b"$$", b": |", b"'", b"$in", b"a"];

/// Some names.
fn put_names(text: &mut Vec<u8>, alloc: Global, random: &mut Random) {
    for _ in 0..random.below(3) {
        put(text, b"n");
        put(text, random.text(alloc, NAMES, 4).as_slice());
        put(text, b",");
    }
}

/// An output that no other statement has, as it begins with another letter.
fn put_output(text: &mut Vec<u8>, alloc: Global, random: &mut Random, letter: u8) {
    put(text, &[letter]);
    put(text, random.text(alloc, NAMES, 4).as_slice());
    put(text, b",");
}

fn put_command(text: &mut Vec<u8>, alloc: Global, random: &mut Random) {
    if random.below(4) > 0 {
        put(text, b"=");
        put(text, random.text(alloc, COMMANDS, 6).as_slice());
        put(text, b"x");
    }
    put(text, b";");
}

/// The short text of a plan. Its default targets are some of its first outputs.
fn plan_text(alloc: Global, random: &mut Random) -> Vec<u8> {
    let mut text = Vec::new(alloc);
    let mut defaults = Vec::new(alloc);
    for letter in b"pqrs" {
        let mut output = Vec::new(alloc);
        put_output(&mut output, alloc, random, *letter);
        put(&mut text, output.as_slice());
        if random.below(3) == 0 {
            put_output(&mut text, alloc, random, letter.to_ascii_uppercase());
        }
        if random.below(2) == 0 {
            put(&mut defaults, output.as_slice());
        }
        put(&mut text, b";");
        put_command(&mut text, alloc, random);
        put_names(&mut text, alloc, random);
        put(&mut text, b";");
        put_names(&mut text, alloc, random);
        put(&mut text, b";");
        put_names(&mut text, alloc, random);
        put(&mut text, b"#");
    }
    put(&mut text, b">");
    put(&mut text, defaults.as_slice());
    text
}

fn put_path(text: &mut Vec<u8>, random: &mut Random, spelling: Spelling, name: &[u8]) {
    for byte in name {
        match *byte {
            b'a' => put(text, random.piece(spelling.letters)),
            b'$' | b' ' | b':' => put(text, &[b'$', *byte]),
            other => put(text, &[other]),
        }
    }
}

/// Names after a mark, or nothing where there is no name.
fn put_paths(
    text: &mut Vec<u8>,
    random: &mut Random,
    spelling: Spelling,
    mark: &[u8],
    names: &[Path],
) {
    if !names.is_empty() && !mark.is_empty() {
        put(text, random.piece(spelling.gaps));
        put(text, mark);
    }
    for name in names {
        put(text, random.piece(spelling.gaps));
        put_path(text, random, spelling, name.as_slice());
    }
}

/// A value, in which a first space and each dollar sign have a dollar sign before them.
fn put_value(text: &mut Vec<u8>, value: &[u8]) {
    for (place, byte) in value.iter().enumerate() {
        if *byte == b'$' || *byte == b' ' && place == 0 {
            put(text, b"$");
        }
        put(text, &[*byte]);
    }
}

/// The rule of a command, and the number of the rules after it.
fn put_rule(text: &mut Vec<u8>, made: &Made, number: u8) -> u8 {
    match made {
        Made::Command(command) => {
            put(text, &[b'r', b'u', b'l', b'e', b' ', b'r', number]);
            put(text, b"\n command = ");
            put_value(text, command.as_slice());
            put(text, b"\n");
            number.saturating_add(1)
        }
        Made::Phony => number,
    }
}

fn put_build(
    text: &mut Vec<u8>,
    random: &mut Random,
    spelling: Spelling,
    statement: &Statement,
    number: u8,
) {
    put(text, b"build");
    put_paths(text, random, spelling, b"", statement.outs.as_slice());
    put(text, b":");
    put(text, random.piece(spelling.gaps));
    match &statement.made {
        Made::Command(_) => put(text, &[b'r', number]),
        Made::Phony => put(text, b"phony"),
    }
    put_paths(text, random, spelling, b"", statement.inputs.as_slice());
    put_paths(text, random, spelling, b"|", statement.implicit.as_slice());
    put_paths(
        text,
        random,
        spelling,
        b"||",
        statement.order_only.as_slice(),
    );
    put(text, b"\n");
}

/// A plan's Ninja text, its rules numbered by a digit.
fn put_plan(text: &mut Vec<u8>, random: &mut Random, spelling: Spelling, plan: &Plan) {
    let mut number = b'0';
    for statement in plan.statements.as_slice() {
        put(text, random.piece(spelling.lines));
        let next = put_rule(text, &statement.made, number);
        put(text, random.piece(spelling.lines));
        put_build(text, random, spelling, statement, number);
        number = next;
    }
    put(text, random.piece(spelling.lines));
    if !plan.defaults.as_slice().is_empty() {
        put(text, b"default");
        put_paths(text, random, spelling, b"", plan.defaults.as_slice());
        put(text, b"\n");
    }
}

#[test]
fn prints_as_the_plain_way(rt: HostRuntime) {
    let mut random = Random::new(1);
    for _ in 0..COUNT {
        let text = plan_text(rt.alloc(), &mut random);
        let plan = plan_of(rt.alloc(), text.as_slice());
        let mut wanted = Vec::new(rt.alloc());
        put(&mut wanted, b"# kati\n");
        put_plan(&mut wanted, &mut random, PRINTED, &plan);
        let step = random.below(9).saturating_add(1);
        let (is_ok, sink) = written(&rt, rt.alloc(), &plan, 8192, step);
        same(&rt, text.as_slice(), is_ok, true);
        same(&rt, text.as_slice(), sink.as_slice(), wanted.as_slice());
    }
}

#[test]
fn reads_each_spelling_as_its_plan(rt: HostRuntime) {
    let mut random = Random::new(2);
    for _ in 0..COUNT {
        let text = plan_text(rt.alloc(), &mut random);
        let plan = plan_of(rt.alloc(), text.as_slice());
        let mut spelled = Vec::new(rt.alloc());
        put(&mut spelled, b"v = a\n");
        put_plan(&mut spelled, &mut random, VARIED, &plan);
        match read_plan(rt.alloc(), spelled.as_slice()) {
            Ok(found) => assert!(rt; found == plan, "of {spelled:?}"),
            Err(fault) => assert!(rt; false, "{fault} of {spelled:?}"),
        }
    }
}
