//! A case, run over memory.
use crate::case::Case;
use kati::whole;
use kt_eval::{Files, MemFiles};
use kt_ninja::MemSink;
use std::alloc::{AllocError, Global};
use std::mem;

/// The most bytes that an output takes.
const ROOM: usize = 1_048_576;

/// What is wrong with a run, or that nothing is.
pub fn run(alloc: Global, case: &mut Case) -> Result<&'static [u8], AllocError> {
    let words = words_of(alloc, mem::replace(&mut case.words, Vec::new(alloc)))?;
    let files = mem::replace(&mut case.files, Vec::new(alloc));
    let mut files = MemFiles::new(alloc, files, 0);
    let mut out = MemSink::new(alloc, room(case.full, b"out"), 4096)?;
    let mut err = MemSink::new(alloc, room(case.full, b"err"), 4096)?;
    let code = whole(alloc, words.as_slice(), &mut files, &mut out, &mut err);
    if code as usize != case.status {
        return Ok(b"status");
    }
    if !is_same(&case.out, out.as_slice()) || !holds(out.as_slice(), case.lines.as_slice()) {
        return Ok(b"output");
    }
    if !is_same(&case.err, err.as_slice()) {
        return Ok(b"error output");
    }
    let asked = names(alloc, files.asked())?;
    if !is_same(&case.asked, asked.as_slice()) {
        return Ok(b"names asked for");
    }
    Ok(b"")
}

// The program's name before the arguments.
fn words_of(alloc: Global, arguments: Vec<String>) -> Result<Vec<String>, AllocError> {
    let mut words = Vec::new(alloc);
    words.push(String::from_str(alloc, "kati")?)?;
    for word in arguments {
        words.push(word)?;
    }
    Ok(words)
}

fn room(full: &[u8], output: &[u8]) -> usize {
    if full == output { 0 } else { ROOM }
}

fn is_same(wanted: &Option<Vec<u8>>, got: &[u8]) -> bool {
    match wanted {
        Some(text) => text.as_slice() == got,
        None => true,
    }
}

/// Whether the lines stand in the output, in their order.
fn holds(out: &[u8], lines: &[u8]) -> bool {
    let mut left = lines;
    for line in out.split(|byte| *byte == b'\n') {
        if let Some(rest) = after_line(left, line) {
            left = rest;
        }
    }
    left.is_empty()
}

// What stands after the first line, if it is this one.
fn after_line<'a>(lines: &'a [u8], line: &[u8]) -> Option<&'a [u8]> {
    match lines.strip_prefix(line) {
        Some([b'\n', rest @ ..]) => Some(rest),
        _ => None,
    }
}

fn names(alloc: Global, asked: &[String]) -> Result<Vec<u8>, AllocError> {
    let mut names = Vec::new(alloc);
    for name in asked {
        names.extend_from_slice(name.as_bytes())?;
        names.extend_from_slice(b"\n")?;
    }
    Ok(names)
}
