//! Kinds of random lines, beside a plain reading of them: byte after byte, with a second line that says what stands
//! outside references.
use crate::sameness::same;
use kt_syntax::{Form, classify_text};
use std::test::Fail;

/// What stands for a byte of a reference.
const INSIDE: u8 = 0;

const PIECES: [&[u8]; 45] = [
    b" ",
    b" ",
    b"\t",
    b"a",
    b"X",
    b"=",
    b":=",
    b"::=",
    b":::=",
    b"?=",
    b"+=",
    b"!=",
    b":",
    b"::",
    b"?",
    b"+",
    b"!",
    b"#",
    b"\\",
    b"\\\\",
    b"\\#",
    b";",
    b"$(a b)",
    b"${x=y}",
    b"$$",
    b"$#",
    b"ifeq",
    b"ifneq",
    b"ifdef",
    b"ifndef",
    b"else",
    b"endif",
    b"endef",
    b"define",
    b"include",
    b"-include",
    b"sinclude",
    b"override",
    b"export",
    b"vpath",
    b"load",
    b"private",
    b"ifeq (",
    b"%.o",
    b".c",
];

const SIGNS: [&[u8]; 7] = [b"=", b":=", b"::=", b":::=", b"?=", b"+=", b"!="];

const BLOCK_WORDS: [&[u8]; 8] = [
    b"ifdef", b"ifndef", b"ifeq", b"ifneq", b"else", b"endif", b"define", b"endef",
];

const INCLUDE_WORDS: [&[u8]; 3] = [b"include", b"-include", b"sinclude"];

const REFUSED_WORDS: [&[u8]; 8] = [
    b"override",
    b"export",
    b"unexport",
    b"undefine",
    b"private",
    b"vpath",
    b"load",
    b"-load",
];

/// The next of numbers that look drawn, the same in each run.
fn next(state: u64) -> u64 {
    state
        .wrapping_mul(6_364_136_223_846_793_005)
        .wrapping_add(1_442_695_040_888_963_407)
}

/// A line, and a second one with what stands outside references.
#[derive(Drop)]
struct Line {
    text: Vec<u8>,
    mask: Vec<u8>,
}

fn put(line: &mut Line, piece: &[u8]) -> Result<(), Fail> {
    let inside = piece.starts_with(b"$");
    for byte in piece {
        line.text.push(*byte)?;
        line.mask.push(if inside { INSIDE } else { *byte })?;
    }
    Ok(())
}

fn drawn(seed: u64, rt: &HostRuntime) -> Result<Line, Fail> {
    let mut line = Line {
        text: Vec::new(rt.alloc()),
        mask: Vec::new(rt.alloc()),
    };
    let mut state = next(seed);
    for _ in 0..(state >> 33) % 8 {
        state = next(state);
        let place = ((state >> 33) % 45) as usize;
        put(&mut line, PIECES.get(place).copied().unwrap_or(b""))?;
    }
    Ok(line)
}

fn is_blank(byte: u8) -> bool {
    byte == b' ' || byte == b'\t'
}

fn before(text: &[u8], place: usize) -> &[u8] {
    if place <= text.len() {
        &text[..place]
    } else {
        text
    }
}

fn past(text: &[u8], place: usize) -> &[u8] {
    if place <= text.len() {
        &text[place..]
    } else {
        b""
    }
}

fn past_blanks(mask: &[u8], from: usize) -> usize {
    let run = past(mask, from)
        .iter()
        .take_while(|byte| is_blank(**byte))
        .count();
    from.saturating_add(run)
}

fn past_word(mask: &[u8], from: usize) -> usize {
    let run = past(mask, from)
        .iter()
        .take_while(|byte| !is_blank(**byte))
        .count();
    from.saturating_add(run)
}

fn comment_place(mask: &[u8]) -> usize {
    let mut odd = false;
    for (place, byte) in mask.iter().enumerate() {
        if *byte == b'#' && !odd {
            return place;
        }
        odd = *byte == b'\\' && !odd;
    }
    mask.len()
}

/// The length of the operator at the begin of a text, or 0.
fn operator_size(text: &[u8]) -> usize {
    for sign in SIGNS {
        if text.starts_with(sign) {
            return sign.len();
        }
    }
    0
}

/// Where the name of an assignment ends, or a place behind the line where a colon ends the test.
fn name_end(text: &[u8], mask: &[u8], begin: usize) -> usize {
    for (place, symbol) in mask.iter().enumerate() {
        if place >= begin {
            let signed = *symbol != INSIDE && operator_size(past(text, place)) > 0;
            if is_blank(*symbol) || signed {
                return place;
            }
            if *symbol == b':' {
                return usize::MAX;
            }
        }
    }
    mask.len()
}

fn is_among(words: &[&[u8]], word: &[u8]) -> bool {
    for known in words {
        if *known == word {
            return true;
        }
    }
    false
}

/// A letter for the kind of a line, and its two parts.
fn plainly(line: &Line, tab: bool) -> (u8, &[u8], &[u8]) {
    let text: &[u8] = &line.text;
    let mask: &[u8] = &line.mask;
    let front = before(mask, comment_place(mask));
    let begin = past_blanks(front, 0);
    if begin == front.len() {
        return (b'b', b"", b"");
    }
    let name = name_end(text, front, begin);
    let place = past_blanks(front, name);
    let size = operator_size(past(text, place));
    if size > 0 {
        let value = past_blanks(mask, place.saturating_add(size));
        return (b'a', past(before(text, name), begin), past(text, value));
    }
    let after = past_word(front, begin);
    let word = past(before(text, after), begin);
    let rest = past(text, past_blanks(mask, after));
    if is_among(&BLOCK_WORDS, word) && !tab || is_among(&INCLUDE_WORDS, word) {
        return (b'd', word, rest);
    }
    if is_among(&REFUSED_WORDS, word) {
        return (b'f', word, b"");
    }
    (b'r', b"", b"")
}

/// As `plainly`, of what `classify_text` finds; a directive's word is taken from the plain reading.
fn told<'a>(form: Form<'a>, word: &'a [u8]) -> (u8, &'a [u8], &'a [u8]) {
    match form {
        Form::Blank => (b'b', b"", b""),
        Form::Assignment(name, _, value) => (b'a', name, value),
        Form::Directive(_, rest) => (b'd', word, rest),
        Form::Refused(word) => (b'f', word, b""),
        Form::Rule => (b'r', b"", b""),
    }
}

#[test]
fn tells_random_lines(rt: HostRuntime) -> Result<(), Fail> {
    for seed in 0..20_000 {
        let line = drawn(seed, &rt)?;
        let tab = seed % 5 == 0;
        let (kind, first, second) = plainly(&line, tab);
        let (found_kind, found_first, found_second) = told(classify_text(&line.text, tab), first);
        same(&rt, seed, found_kind, kind);
        same(&rt, seed, found_first, first);
        same(&rt, seed, found_second, second);
    }
    Ok(())
}
