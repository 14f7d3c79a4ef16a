//! Names by their numbers, heads whose words aren't copied and suffixes that are looked up, beside plain ways, on
//! thousands of short texts.
use crate::asking::{Question, answer};
use crate::plain_way;
use crate::reading::told;
use crate::sameness::same;
use kt_list::Names;
use kt_rules::{Index, Name};
use kt_testing::{Random, put};
use std::alloc::Global;
use std::test::Fail;

/// How many texts a test compares.
const COUNT: usize = 2000;

/// What names are made of: those of more than thirty bytes are held otherwise.
const NAMES: &[&[u8]] = &[
    b"",
    b"a",
    b"b",
    b"ab",
    b"twenty-nine bytes of a name..",
    b"more than thirty bytes of a name",
];

#[test]
fn numbers_names_as_the_plain_way(rt: HostRuntime) -> Result<(), Fail> {
    let mut random = Random::new(1);
    for _ in 0..COUNT {
        let mut names = Names::new(rt.alloc());
        let mut wanted = Vec::new(rt.alloc());
        for _ in 0..random.below(12) {
            let name = random.text(rt.alloc(), NAMES, 3);
            let number = names.number(name.as_slice())?;
            let expected = plain_way::number(&mut wanted, name);
            assert_eq!(rt; number, expected);
        }
        assert!(rt; names.texts(rt.alloc())?.as_slice() == wanted.as_slice());
    }
    Ok(())
}

#[test]
fn notes_as_the_plain_way(rt: HostRuntime) -> Result<(), Fail> {
    let mut random = Random::new(2);
    for _ in 0..COUNT {
        let mut index: Index<usize> = Index::new(rt.alloc());
        let mut notes = Vec::new(rt.alloc());
        for number in 0..random.below(12) {
            let name = random.piece(NAMES);
            index.note(name, number)?;
            notes.push((Name::copied(rt.alloc(), name)?, number))?;
        }
        for name in NAMES {
            let wanted = plain_way::noted(rt.alloc(), notes.as_slice(), name);
            same(&rt, name, index.noted(name), wanted.as_slice());
        }
    }
    Ok(())
}

/// What heads are made of.
const HEADS: &[&[u8]] = &[
    b"a", b"b", b" ", b"\t", b"\\ ", b"\\:", b"\\", b"./", b".//", b"/",
];

/// A head of targets, of which the last has an `a` at its end so that the colon isn't quoted, and prerequisites.
fn head(alloc: Global, targets: &[u8], prerequisites: &[u8]) -> Vec<u8> {
    let mut head = Vec::new(alloc);
    put(&mut head, targets);
    put(&mut head, b":");
    put(&mut head, prerequisites);
    head
}

#[test]
fn reads_heads_as_the_plain_way(rt: HostRuntime) {
    let mut random = Random::new(3);
    for _ in 0..COUNT {
        let mut targets = random.text(rt.alloc(), HEADS, 10);
        put(&mut targets, b"a");
        let prerequisites = random.text(rt.alloc(), HEADS, 10);
        let head = head(rt.alloc(), targets.as_slice(), prerequisites.as_slice());
        let wanted = plain_way::rule(rt.alloc(), targets.as_slice(), prerequisites.as_slice());
        let found = told(rt.alloc(), head.as_slice());
        same(&rt, head.as_slice(), found.as_slice(), wanted.as_slice());
    }
}

const SUFFIXES: &[&[u8]] = &[b".a", b".b", b".c", b".a.b", b".b.c", b".c.a", b".a.b.c"];

/// Two lines that make some of the suffixes known and no others, and as the third the rule of a target.
fn rules(alloc: Global, suffixes: &[&[u8]], target: &[u8]) -> Vec<u8> {
    let mut text = Vec::new(alloc);
    put(&mut text, b".SUFFIXES:\n.SUFFIXES:");
    for suffix in suffixes {
        put(&mut text, b" ");
        put(&mut text, suffix);
    }
    put(&mut text, b"\n");
    put(&mut text, target);
    put(&mut text, b":;x");
    text
}

#[test]
fn cuts_suffixes_as_the_plain_way(rt: HostRuntime) -> Result<(), Fail> {
    let mut random = Random::new(4);
    for _ in 0..COUNT {
        let mut suffixes = Vec::new(rt.alloc());
        for _ in 0..random.below(6) {
            suffixes.push(random.piece(SUFFIXES))?;
        }
        let target = random.text(rt.alloc(), &[b".a", b".b", b".c", b"x"], 5);
        let text = rules(rt.alloc(), suffixes.as_slice(), target.as_slice());
        let wanted = plain_way::suffix_rule(rt.alloc(), suffixes.as_slice(), target.as_slice());
        let found = answer(rt.alloc(), text.as_slice(), Question::Patterns)?;
        same(&rt, text.as_slice(), found.as_slice(), wanted.as_slice());
    }
    Ok(())
}
