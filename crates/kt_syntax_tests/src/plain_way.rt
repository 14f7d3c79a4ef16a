//! What each call gives, byte by byte, with no care for time. A text is walked over once, with a state that says where
//! in its references a byte stands.
use kt_testing::{marked, put, put_run};
use std::alloc::Global;

/// Where in the references of a text the next byte stands.
#[derive(Clone, Copy, PartialEq, Eq)]
pub(crate) enum State {
    Outside,
    /// After a dollar sign.
    Dollar,
    /// In a reference by these marks, within so many more of them.
    Inside(u8, u8, u64),
}

/// The state after a byte.
pub(crate) fn after(state: State, byte: u8) -> State {
    match (state, byte) {
        (State::Outside, b'$') => State::Dollar,
        (State::Outside, _) => State::Outside,
        (State::Dollar, b'(') => State::Inside(b'(', b')', 0),
        (State::Dollar, b'{') => State::Inside(b'{', b'}', 0),
        (State::Dollar, _) => State::Outside,
        (State::Inside(open, close, depth), _) => {
            if byte == open {
                State::Inside(open, close, depth.saturating_add(1))
            } else if byte != close {
                state
            } else if depth == 0 {
                State::Outside
            } else {
                State::Inside(open, close, depth.saturating_sub(1))
            }
        }
    }
}

/// Puts the mark of a term that begins after a dollar sign, and its body where it has one byte.
fn put_begin(told: &mut Vec<u8>, byte: u8) {
    match byte {
        b'$' => put(told, b"d[]"),
        b'(' => put(told, b"p["),
        b'{' => put(told, b"c["),
        other => put(told, &[b'b', b'[', other, b']']),
    }
}

/// The terms of a text, each in brackets after a letter for its mark; `u[]` in place of one that doesn't end.
pub(crate) fn terms(alloc: Global, text: &[u8]) -> Vec<u8> {
    let mut told = Vec::new(alloc);
    let mut term = Vec::new(alloc);
    let mut state = State::Outside;
    for byte in text {
        let next = after(state, *byte);
        match state {
            State::Outside => put_outside(&mut told, &mut term, *byte),
            State::Dollar => put_begin(&mut term, *byte),
            State::Inside(_, _, _) => {
                let is_end = next == State::Outside;
                put(&mut term, &[if is_end { b']' } else { *byte }]);
            }
        }
        if state != State::Outside && next == State::Outside {
            put(&mut told, term.as_slice());
            term.clear();
        }
        state = next;
    }
    put_last(&mut told, term.as_slice(), state);
    told
}

/// A literal's byte joins it; a dollar sign ends it.
fn put_outside(told: &mut Vec<u8>, literal: &mut Vec<u8>, byte: u8) {
    if byte == b'$' {
        put_literal(told, literal.as_slice());
        literal.clear();
    } else {
        put(literal, &[byte]);
    }
}

fn put_literal(told: &mut Vec<u8>, literal: &[u8]) {
    if !literal.is_empty() {
        put(told, b"l[");
        put(told, literal);
        put(told, b"]");
    }
}

/// A dollar sign at the end is an empty literal.
fn put_last(told: &mut Vec<u8>, literal: &[u8], state: State) {
    match state {
        State::Outside => put_literal(told, literal),
        State::Dollar => put(told, b"l[]"),
        State::Inside(_, _, _) => put(told, b"u[]"),
    }
}

/// So many backslashes.
fn put_backslashes(out: &mut Vec<u8>, count: u64) {
    for _ in 0..count {
        put(out, b"\\");
    }
}

/// A condensed text without its comment. Of the backslashes before a number sign half stay, and it is a byte as others
/// where their number is odd.
pub(crate) fn uncommented(alloc: Global, text: &[u8]) -> Vec<u8> {
    let mut out = Vec::new(alloc);
    let mut state = State::Outside;
    let mut held = 0u64;
    for byte in text {
        match (state, *byte) {
            (State::Outside, b'\\') => held = held.saturating_add(1),
            (State::Outside, b'#') => {
                put_backslashes(&mut out, held / 2);
                if held % 2 == 0 {
                    return out;
                }
                put(&mut out, b"#");
                held = 0;
            }
            (_, other) => {
                put_backslashes(&mut out, held);
                put(&mut out, &[other]);
                held = 0;
            }
        }
        state = after(state, *byte);
    }
    put_backslashes(&mut out, held);
    out
}

/// What is dropped after a continuation of a recipe.
#[derive(Clone, Copy)]
enum Drops {
    Nothing,
    /// One tab, where the continuation goes.
    Tab,
    /// Blanks, where a dollar sign refers to the continuation.
    Blanks,
}

/// The text of a recipe, as far as it was put out.
#[derive(Drop)]
struct Recipe {
    out: Vec<u8>,
    /// Blanks and continuations inside a reference.
    run: Vec<u8>,
    drops: Drops,
}

impl Recipe {
    fn put(&mut self, state: State, byte: u8) {
        match (state, byte, self.drops) {
            (State::Inside(_, _, _), _, _) => self.put_inside(byte),
            (State::Dollar, 0, _) => {
                put(&mut self.out, b" ");
                self.drops = Drops::Blanks;
            }
            (State::Outside, 0, _) => self.drops = Drops::Tab,
            (State::Outside, b'\t', Drops::Tab) => self.drops = Drops::Nothing,
            (State::Outside, b' ' | b'\t', Drops::Blanks) => {}
            _ => {
                put(&mut self.out, &[byte]);
                self.drops = Drops::Nothing;
            }
        }
    }

    fn put_inside(&mut self, byte: u8) {
        if matches!(byte, b' ' | b'\t' | 0) {
            put(&mut self.run, &[byte]);
        } else {
            put_run(&mut self.out, self.run.as_slice());
            self.run.clear();
            put(&mut self.out, &[byte]);
        }
    }
}

/// A recipe's line: a continuation goes with one tab after it, and inside a reference it is a space with the blanks
/// round it.
pub(crate) fn recipe_text(alloc: Global, text: &[u8]) -> Vec<u8> {
    let mut recipe = Recipe {
        out: Vec::new(alloc),
        run: Vec::new(alloc),
        drops: Drops::Nothing,
    };
    let mut state = State::Outside;
    for byte in marked(alloc, text).as_slice() {
        recipe.put(state, *byte);
        state = after(state, *byte);
    }
    put_run(&mut recipe.out, recipe.run.as_slice());
    recipe.out
}

const OPERATORS: [(&[u8], u8); 7] = [
    (b"=", b'='),
    (b":=", b':'),
    (b"::=", b':'),
    (b":::=", b'e'),
    (b"?=", b'?'),
    (b"+=", b'+'),
    (b"!=", b'!'),
];

/// The letter of the operator that a text begins with, and the text after it.
fn operator(text: &[u8]) -> Option<(u8, &[u8])> {
    for (operator, letter) in OPERATORS {
        if let Some(rest) = text.strip_prefix(operator) {
            return Some((letter, rest));
        }
    }
    None
}

fn without_leading_blanks(text: &[u8]) -> &[u8] {
    for (place, byte) in text.iter().enumerate() {
        if !matches!(*byte, b' ' | b'\t') {
            return text.get(place..).unwrap_or(b"");
        }
    }
    b""
}

/// Letter, name and value of a condensed line that is an assignment: a run of bytes and references up to a blank or an
/// operator, then blanks and the operator. Nothing where it is none.
pub(crate) fn assignment(alloc: Global, line: &[u8]) -> Vec<u8> {
    let mut name = Vec::new(alloc);
    let mut state = State::Outside;
    let mut is_odd = false;
    let mut is_ended = false;
    let text = without_leading_blanks(line);
    for (place, byte) in text.iter().enumerate() {
        if state == State::Outside {
            if let Some((letter, value)) = operator(text.get(place..).unwrap_or(b"")) {
                return shown(
                    alloc,
                    letter,
                    name.as_slice(),
                    without_leading_blanks(value),
                );
            }
            let is_blank = matches!(*byte, b' ' | b'\t');
            let is_end = *byte == b':' || *byte == b'#' && !is_odd;
            if is_end || is_ended && !is_blank {
                return Vec::new(alloc);
            }
            is_ended = is_blank;
        }
        if !is_ended {
            put(&mut name, &[*byte]);
        }
        is_odd = state == State::Outside && *byte == b'\\' && !is_odd;
        state = after(state, *byte);
    }
    Vec::new(alloc)
}

fn shown(alloc: Global, letter: u8, name: &[u8], value: &[u8]) -> Vec<u8> {
    let mut told = Vec::new(alloc);
    put(&mut told, &[letter, b'[']);
    put(&mut told, name);
    put(&mut told, b"][");
    put(&mut told, value);
    put(&mut told, b"]");
    told
}
