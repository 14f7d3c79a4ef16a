//! The texts that answer a command line.
use crate::sameness::same;
use crate::told::answer;
use kati_args::{ArgFault, Word};
use std::alloc::Global;
use std::process::Abort;

/// What the help names.
const NAMED: [&str; 14] = [
    "Usage: kati",
    "-f <FILE>",
    "--ninja",
    "--files <FILE>",
    "--check <FILE>",
    "--depth <N>",
    "-h, --help",
    "GOAL|NAME=VALUE",
    "kati --files files.txt > build.ninja.new",
    "CC=clang",
    "1 to 400",
    "default: 100",
    "Exit status",
    "64",
];

fn text_of(rt: &impl Abort, alloc: Global, lines: &str) -> String {
    match answer(rt, alloc, lines) {
        Err(fault) => format!(in alloc; "{fault}").expect(rt, "memory"),
        Ok(_args) => String::new(alloc),
    }
}

#[test]
fn help_names_each_option(rt: HostRuntime) {
    let text = text_of(&rt, rt.alloc(), "kati\n--help");
    for name in NAMED {
        same(&rt, name, text.as_str().contains(name), true);
    }
}

/// Words on lines, and what the text of their fault holds.
const TOLD: [(&str, &str); 5] = [
    ("kati\n--nothing", "--nothing"),
    ("kati\n--depth=500", "500"),
    ("kati\n-f", "-f <FILE>"),
    ("kati\n-x", "Usage: kati"),
    ("kati\nA:=x", "kati: bad macro A:=x"),
];

#[test]
fn faults_have_their_text(rt: HostRuntime) {
    for (lines, wanted) in TOLD {
        let text = text_of(&rt, rt.alloc(), lines);
        same(&rt, lines, text.as_str().contains(wanted), true);
    }
}

#[test]
fn words_are_copied(rt: HostRuntime) {
    for text in [
        "",
        "-f",
        "\u{e4}=1",
        "a word of more than thirty bytes, all of them",
    ] {
        let word = Word::copied(rt.alloc(), text).expect(&rt, "memory");
        assert_eq!(rt; word.as_str(), text);
    }
}
