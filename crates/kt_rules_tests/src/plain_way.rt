//! What each call gives, name by name and byte by byte, with no care for time.
use kt_rules::{Name, without_dots};
use kt_testing::put;
use std::alloc::Global;

/// The number of a name among names, of which it becomes the last if it isn't there.
pub(crate) fn number(names: &mut Vec<Name>, name: Vec<u8>) -> usize {
    for (number, other) in names.as_slice().iter().enumerate() {
        if other.as_slice() == name.as_slice() {
            return number;
        }
    }
    let number = names.len();
    put_name(names, name);
    number
}

fn put_name(names: &mut Vec<Name>, name: Vec<u8>) {
    let _refused = names.push(Name::from(name));
}

/// What was noted at a name.
pub(crate) fn noted(alloc: Global, notes: &[(Name, usize)], name: &[u8]) -> Vec<usize> {
    let mut noted = Vec::new(alloc);
    for (other, number) in notes {
        if other.as_slice() == name {
            let _refused = noted.push(*number);
        }
    }
    noted
}

/// A copy of a name without its leading `./`.
fn dotless(alloc: Global, name: &[u8]) -> Vec<u8> {
    let mut copy = Vec::new(alloc);
    put(&mut copy, without_dots(name));
    copy
}

/// The words of a text. A backslash quotes a space or a colon directly after it, and else stays.
fn words(alloc: Global, text: &[u8]) -> Vec<Name> {
    let mut words = Vec::new(alloc);
    let mut word = Vec::new(alloc);
    let mut is_held = false;
    for byte in text {
        let is_quoted = is_held && matches!(*byte, b' ' | b':');
        if is_held && !is_quoted {
            put(&mut word, b"\\");
        }
        is_held = *byte == b'\\';
        if matches!(*byte, b' ' | b'\t') && !is_quoted {
            put_word(&mut words, alloc, word.as_slice());
            word.clear();
        } else if !is_held {
            put(&mut word, &[*byte]);
        }
    }
    if is_held {
        put(&mut word, b"\\");
    }
    put_word(&mut words, alloc, word.as_slice());
    words
}

fn put_word(words: &mut Vec<Name>, alloc: Global, word: &[u8]) {
    if !word.is_empty() {
        put_name(words, dotless(alloc, word));
    }
}

/// What is reported of a rule line by the words of its targets, each once, and those of its
/// prerequisites.
pub(crate) fn rule(alloc: Global, targets: &[u8], prerequisites: &[u8]) -> Vec<u8> {
    let mut told = Vec::new(alloc);
    let mut seen = Vec::new(alloc);
    put(&mut told, b"one");
    for target in words(alloc, targets).as_slice() {
        let count = seen.len();
        if number(&mut seen, dotless(alloc, target.as_slice())) == count {
            put(&mut told, b" ");
            put(&mut told, target.as_slice());
            put(&mut told, b"<");
            for name in words(alloc, prerequisites).as_slice() {
                put(&mut told, name.as_slice());
                put(&mut told, b",");
            }
            put(&mut told, b"|>");
        }
    }
    told
}

/// What is reported of the pattern rule that the target of line 3 is: a suffix, or the first cut
/// into two suffixes.
pub(crate) fn suffix_rule(alloc: Global, suffixes: &[&[u8]], target: &[u8]) -> Vec<u8> {
    if (&*suffixes).contains(&target) {
        return pattern_rule(alloc, b"", target);
    }
    for (place, _) in target.iter().enumerate() {
        let front = target.get(..place).unwrap_or(b"");
        let back = target.get(place..).unwrap_or(b"");
        if (&*suffixes).contains(&front) && (&*suffixes).contains(&back) {
            return pattern_rule(alloc, back, front);
        }
    }
    Vec::new(alloc)
}

fn pattern_rule(alloc: Global, target: &[u8], needed: &[u8]) -> Vec<u8> {
    let mut told = Vec::new(alloc);
    put(&mut told, b"m:3 %");
    put(&mut told, target);
    put(&mut told, b" : %");
    put(&mut told, needed);
    put(&mut told, b",|x.");
    told
}
