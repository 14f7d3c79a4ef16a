//! Continuations, byte by byte.
use crate::texts::put;
use std::alloc::Global;

/// A text without the carriage return before each newline.
fn without_returns(alloc: Global, text: &[u8]) -> Vec<u8> {
    let mut out = Vec::new(alloc);
    let mut is_held = false;
    for byte in text {
        if is_held && *byte != b'\n' {
            put(&mut out, b"\r");
        }
        is_held = *byte == b'\r';
        if !is_held {
            put(&mut out, &[*byte]);
        }
    }
    if is_held {
        put(&mut out, b"\r");
    }
    out
}

/// A text without NUL, without the carriage return before each newline, and with a NUL for each continuation: a newline
/// with the last of an odd number of backslashes before it.
pub fn marked(alloc: Global, text: &[u8]) -> Vec<u8> {
    let mut out = Vec::new(alloc);
    let mut is_odd = false;
    for byte in without_returns(alloc, text).as_slice() {
        match (*byte, is_odd) {
            (b'\\', false) => {}
            (b'\\', true) => put(&mut out, b"\\\\"),
            (b'\n', true) => put(&mut out, b"\0"),
            (other, true) => put(&mut out, &[b'\\', other]),
            (other, false) => put(&mut out, &[other]),
        }
        is_odd = *byte == b'\\' && !is_odd;
    }
    if is_odd {
        put(&mut out, b"\\");
    }
    out
}

/// Puts a run of blanks and such marks: a space for one with a mark, and else the run as it is.
pub fn put_run(out: &mut Vec<u8>, run: &[u8]) {
    if run.contains(&0) {
        put(out, b" ");
    } else {
        put(out, run);
    }
}
