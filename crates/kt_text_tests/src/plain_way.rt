//! What each call gives, byte by byte and word by word, with no care for time.
use kt_testing::{marked, put, put_run};
use std::alloc::Global;

/// A text with a space for each longest run of blanks and continuations that has a continuation in it.
pub(crate) fn condensed(alloc: Global, text: &[u8]) -> Vec<u8> {
    let marked = marked(alloc, text);
    let mut out = Vec::new(alloc);
    let mut run = Vec::new(alloc);
    for byte in marked.as_slice() {
        if matches!(*byte, b' ' | b'\t' | 0) {
            put(&mut run, &[*byte]);
        } else {
            put_run(&mut out, run.as_slice());
            run.clear();
            put(&mut out, &[*byte]);
        }
    }
    put_run(&mut out, run.as_slice());
    out
}

/// Place, end, number and tab of a logical line.
pub(crate) type Place = (usize, usize, u64, bool);

/// Whether a text ends in an odd number of backslashes.
fn ends_odd(text: &[u8]) -> bool {
    let mut is_odd = false;
    for byte in text {
        is_odd = *byte == b'\\' && !is_odd;
    }
    is_odd
}

/// A piece before a newline, or at the end of its text, without what counts to the newline.
fn content(piece: &[u8], is_ended: bool) -> &[u8] {
    match piece {
        [before @ .., b'\r'] => { if is_ended { before } else { piece } }
        _ => piece,
    }
}

/// The logical lines of a text without NUL.
pub(crate) fn logical_lines(alloc: Global, text: &[u8]) -> Vec<Place> {
    let mut lines = Vec::new(alloc);
    let mut from = 0usize;
    let mut number = 0u64;
    let mut open = None;
    for piece in text.split(|byte| *byte == b'\n') {
        number = number.saturating_add(1);
        let after = from.saturating_add(piece.len()).saturating_add(1);
        let line = content(piece, after <= text.len());
        let is_odd = ends_odd(line);
        let (start, first) = open.unwrap_or((from, number));
        open = None;
        if is_odd && after < text.len() {
            open = Some((start, first));
        } else if from < text.len() {
            let kept = if is_odd {
                line.len().saturating_sub(1)
            } else {
                line.len()
            };
            let has_tab = text.get(start) == Some(&b'\t');
            let _refused = lines.push((start, from.saturating_add(kept), first, has_tab));
        }
        from = after;
    }
    lines
}

/// The words of a text, a comma after each.
pub(crate) fn words(alloc: Global, text: &[u8]) -> Vec<u8> {
    let mut out = Vec::new(alloc);
    let mut is_open = false;
    for byte in text {
        let is_separator = matches!(*byte, b' ' | b'\t' | b'\n');
        if is_separator && is_open {
            put(&mut out, b",");
        }
        if !is_separator {
            put(&mut out, &[*byte]);
        }
        is_open = !is_separator;
    }
    if is_open {
        put(&mut out, b",");
    }
    out
}

/// Each occurrence of a text replaced, from left to right; nothing is found at the end.
pub(crate) fn subst(alloc: Global, from: &[u8], to: &[u8], text: &[u8]) -> Vec<u8> {
    let mut out = Vec::new(alloc);
    let mut passed = 0usize;
    for (place, byte) in text.iter().enumerate() {
        let rest = text.get(place..).unwrap_or(b"");
        if passed > 0 {
            passed = passed.saturating_sub(1);
        } else if !from.is_empty() && rest.starts_with(from) {
            put(&mut out, to);
            passed = from.len().saturating_sub(1);
        } else {
            put(&mut out, &[*byte]);
        }
    }
    if from.is_empty() {
        put(&mut out, to);
    }
    out
}

/// The stem's place in a word that a pattern matches.
pub(crate) fn stem(pattern: &[u8], word: &[u8]) -> Option<(usize, usize)> {
    let mut parts = pattern.splitn(2, |byte| *byte == b'%');
    match (parts.next(), parts.next()) {
        (Some(front), Some(back)) => {
            let end = word.len().saturating_sub(back.len());
            let is_long = word.len() >= front.len().saturating_add(back.len());
            if is_long && word.starts_with(front) && word.ends_with(back) {
                Some((front.len(), end))
            } else {
                None
            }
        }
        _ => None,
    }
}

/// Whether a word is one of the patterns, or is matched by one.
fn is_selected(patterns: &[u8], word: &[u8]) -> bool {
    let mut is_selected = false;
    for pattern in patterns.split(|byte| *byte == b' ') {
        is_selected |= pattern == word || stem(pattern, word).is_some();
    }
    is_selected
}

/// Puts a word after those that stand there.
fn put_word(out: &mut Vec<u8>, word: &[u8]) {
    if !out.is_empty() {
        put(out, b" ");
    }
    put(out, word);
}

/// The words of a text that patterns select, or the others. Both texts have single spaces between their words.
pub(crate) fn selected(alloc: Global, patterns: &[u8], text: &[u8], wanted: bool) -> Vec<u8> {
    let mut out = Vec::new(alloc);
    for word in text.split(|byte| *byte == b' ') {
        if !word.is_empty() && is_selected(patterns, word) == wanted {
            put_word(&mut out, word);
        }
    }
    out
}

/// The words of a text with single spaces, each one once, in byte order: always the least of those that are greater
/// than the one before.
pub(crate) fn sorted(alloc: Global, text: &[u8]) -> Vec<u8> {
    let mut out = Vec::new(alloc);
    let mut last = b"".as_slice();
    for _ in text.split(|byte| *byte == b' ') {
        let mut least = b"".as_slice();
        for word in text.split(|byte| *byte == b' ') {
            if word > last && (least.is_empty() || word < least) {
                least = word;
            }
        }
        if !least.is_empty() {
            put_word(&mut out, least);
            last = least;
        }
    }
    out
}
