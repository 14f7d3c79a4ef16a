//! Scans of many bytes at a time beside plain ones, on thousands of short texts.
use crate::plain_way;
use crate::sameness::same;
use kt_testing::{Random, put};
use kt_text::{condensed, functions, joined, logical_lines, match_pattern, words};
use std::alloc::Global;
use std::process::Abort;
use std::test::Fail;

/// How many texts a test compares.
const COUNT: usize = 4000;

/// What lines are made of.
const LINES: &[&[u8]] = &[
    b"a", b"bc", b" ", b"\t", b"\\", b"\\\\", b"\n", b"\r", b"\\\n", b"\\\r\n", b"\r\r\n", b"\n\t",
];

#[test]
fn condenses_as_the_plain_way(rt: HostRuntime) -> Result<(), Fail> {
    let mut random = Random::new(1);
    for _ in 0..COUNT {
        let text = random.text(rt.alloc(), LINES, 12);
        let wanted = plain_way::condensed(rt.alloc(), text.as_slice());
        let found = condensed(rt.alloc(), text.as_slice())?;
        same(&rt, text.as_slice(), found.as_slice(), wanted.as_slice());
        let found = joined(rt.alloc(), text.as_slice())?;
        same(&rt, text.as_slice(), found.as_slice(), wanted.as_slice());
    }
    Ok(())
}

/// The lines that are found, each as its place, end, number and tab.
fn places(alloc: Global, text: &[u8]) -> Result<Vec<plain_way::Place>, Fail> {
    let mut places = Vec::new(alloc);
    let lines = logical_lines(alloc, text)?;
    for line in lines.as_slice() {
        places.push((line.span.start, line.span.end, line.number, line.tab))?;
    }
    Ok(places)
}

#[test]
fn cuts_lines_as_the_plain_way(rt: HostRuntime) -> Result<(), Fail> {
    let mut random = Random::new(2);
    for _ in 0..COUNT {
        let text = random.text(rt.alloc(), LINES, 12);
        let wanted = plain_way::logical_lines(rt.alloc(), text.as_slice());
        let found = places(rt.alloc(), text.as_slice())?;
        same(&rt, text.as_slice(), found.as_slice(), wanted.as_slice());
    }
    Ok(())
}

/// What words are made of: bytes that differ from the separators in one bit too, and long runs.
const WORDS: &[&[u8]] = &[
    b"a",
    b"%",
    b"b.c",
    b"abcdefgh",
    b" ",
    b" ",
    b"\t",
    b"\n",
    b"\x08",
    b"\x0b",
    b"\xa0",
    b"\x89",
];

/// The words of a text, a comma after each.
fn told_words(alloc: Global, text: &[u8]) -> Vec<u8> {
    let mut told = Vec::new(alloc);
    for word in words(text) {
        put(&mut told, word);
        put(&mut told, b",");
    }
    told
}

#[test]
fn cuts_words_as_the_plain_way(rt: HostRuntime) {
    let mut random = Random::new(3);
    for _ in 0..COUNT {
        let text = random.text(rt.alloc(), WORDS, 14);
        let wanted = plain_way::words(rt.alloc(), text.as_slice());
        let found = told_words(rt.alloc(), text.as_slice());
        same(&rt, text.as_slice(), found.as_slice(), wanted.as_slice());
    }
}

/// What is searched for, and searched, is made of few bytes, so that much is found.
const FEW: &[&[u8]] = &[b"a", b"b", b"aa", b"ab", b" "];

#[test]
fn replaces_as_the_plain_way(rt: HostRuntime) -> Result<(), Fail> {
    let mut random = Random::new(4);
    for _ in 0..COUNT {
        let from = random.text(rt.alloc(), FEW, 4);
        let text = random.text(rt.alloc(), FEW, 16);
        let wanted = plain_way::subst(rt.alloc(), from.as_slice(), b"xyz", text.as_slice());
        let found = functions::subst(rt.alloc(), from.as_slice(), b"xyz", text.as_slice())?;
        same(
            &rt,
            (from.as_slice(), text.as_slice()),
            found.as_slice(),
            wanted.as_slice(),
        );
    }
    Ok(())
}

/// What patterns and the words that they match are made of.
const PATTERNS: &[&[u8]] = &[b"a", b"b", b"%", b"ab", b"c"];

#[test]
fn matches_as_the_plain_way(rt: HostRuntime) {
    let mut random = Random::new(5);
    for _ in 0..COUNT {
        let pattern = random.text(rt.alloc(), PATTERNS, 5);
        let word = random.text(rt.alloc(), PATTERNS, 6);
        let wanted = plain_way::stem(pattern.as_slice(), word.as_slice());
        let found = match_pattern(pattern.as_slice(), word.as_slice());
        let found = found.map(|stem| (stem.start, stem.end));
        same(&rt, (pattern.as_slice(), word.as_slice()), found, wanted);
    }
}

/// Words between single spaces: some that begin like others, up to and past the bytes that are compared at once.
const LIST: &[&[u8]] = &[
    b"a",
    b"b",
    b"ab",
    b" ",
    b" c",
    b" abcdefgh",
    b" abcdefghi",
    b" a%",
    b" %b",
    b" \xc3\xa9",
];

/// A list with single spaces between its words.
fn list(alloc: Global, random: &mut Random, end: usize) -> Result<Vec<u8>, Fail> {
    let text = random.text(alloc, LIST, end);
    Ok(functions::strip(alloc, text.as_slice())?)
}

#[test]
fn sorts_as_the_plain_way(rt: HostRuntime) -> Result<(), Fail> {
    let mut random = Random::new(6);
    for _ in 0..COUNT {
        let text = list(rt.alloc(), &mut random, 20)?;
        let wanted = plain_way::sorted(rt.alloc(), text.as_slice());
        let found = functions::sort(rt.alloc(), text.as_slice())?;
        same(&rt, text.as_slice(), found.as_slice(), wanted.as_slice());
    }
    Ok(())
}

fn selects(rt: &impl Abort, alloc: Global, patterns: &[u8], text: &[u8]) -> Result<(), Fail> {
    let found = functions::filter(alloc, patterns, text)?;
    let wanted = plain_way::selected(alloc, patterns, text, true);
    same(rt, (patterns, text), found.as_slice(), wanted.as_slice());
    let found = functions::filter_out(alloc, patterns, text)?;
    let wanted = plain_way::selected(alloc, patterns, text, false);
    same(rt, (patterns, text), found.as_slice(), wanted.as_slice());
    Ok(())
}

#[test]
fn selects_as_the_plain_way(rt: HostRuntime) -> Result<(), Fail> {
    let mut random = Random::new(7);
    for _ in 0..COUNT {
        let patterns = list(rt.alloc(), &mut random, 8)?;
        let text = list(rt.alloc(), &mut random, 16)?;
        selects(&rt, rt.alloc(), patterns.as_slice(), text.as_slice())?;
    }
    Ok(())
}
