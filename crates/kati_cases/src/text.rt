//! Texts of cases, line by line.
use itoa::Buffer;
use std::alloc::{AllocError, Global};
use std::collections::BTreeMap;

/// Appends what a line of a text stands for: `|` and text with a newline, `>` and text without one,
/// `?` and text in which a backslash and two digits are a byte; or a given number of copies of such
/// a text: `*N TEXT`, `#FROM N TEXT` with numbers for `{i}` and `{i+1}`, and `~FROM N TEXT` with
/// these in byte order.
pub fn append_line(alloc: Global, text: &mut Vec<u8>, line: &[u8]) -> Result<(), AllocError> {
    match line {
        [b'|', rest @ ..] => append_whole(text, rest),
        [b'>', rest @ ..] => text.extend_from_slice(rest),
        [b'?', rest @ ..] => append_bytes(text, rest),
        [b'*', rest @ ..] => append_copies(alloc, text, rest),
        [b'#', rest @ ..] => append_numbered(alloc, text, rest),
        [b'~', rest @ ..] => append_sorted(alloc, text, rest),
        _ => Ok(()),
    }
}

fn append_whole(text: &mut Vec<u8>, line: &[u8]) -> Result<(), AllocError> {
    text.extend_from_slice(line)?;
    text.extend_from_slice(b"\n")
}

/// Appends a word in which a backslash and two digits are a byte.
pub fn append_bytes(text: &mut Vec<u8>, word: &[u8]) -> Result<(), AllocError> {
    let mut first = true;
    for piece in word.split(|byte| *byte == b'\\') {
        match piece {
            [high, low, rest @ ..] if !first => {
                text.extend_from_slice(&[byte_of(*high, *low)])?;
                text.extend_from_slice(rest)?;
            }
            _ => text.extend_from_slice(piece)?,
        }
        first = false;
    }
    Ok(())
}

fn byte_of(high: u8, low: u8) -> u8 {
    digit(high).wrapping_mul(16).wrapping_add(digit(low))
}

fn digit(byte: u8) -> u8 {
    match byte {
        b'0'..=b'9' => byte - b'0',
        b'a'..=b'f' => byte - b'a' + 10,
        _ => 0,
    }
}

/// What stands before the first space, and after it.
pub fn cut(line: &[u8]) -> (&[u8], &[u8]) {
    match line.iter().position(|byte| *byte == b' ') {
        Some(at) => (&line[..at], &line[at + 1..]),
        None => (line, b""),
    }
}

/// The number that digits spell; too large a number stays at the largest.
pub fn number(digits: &[u8]) -> usize {
    let mut value: usize = 0;
    for byte in digits {
        value = value
            .saturating_mul(10)
            .saturating_add(digit(*byte) as usize);
    }
    value
}

/// Appends a given number of copies, a thousand at a time as far as that goes.
fn append_copies(alloc: Global, text: &mut Vec<u8>, line: &[u8]) -> Result<(), AllocError> {
    let (times, word) = cut(line);
    let times = number(times);
    let mut copy = Vec::new(alloc);
    append_bytes(&mut copy, word)?;
    let mut thousand = Vec::new(alloc);
    append_times(&mut thousand, copy.as_slice(), 1000)?;
    append_times(text, thousand.as_slice(), times / 1000)?;
    append_times(text, copy.as_slice(), times % 1000)
}

fn append_times(text: &mut Vec<u8>, copy: &[u8], times: usize) -> Result<(), AllocError> {
    for _ in 0..times {
        text.extend_from_slice(copy)?;
    }
    Ok(())
}

fn append_numbered(alloc: Global, text: &mut Vec<u8>, line: &[u8]) -> Result<(), AllocError> {
    let (from, rest) = cut(line);
    let (times, word) = cut(rest);
    let mut copy = Vec::new(alloc);
    append_bytes(&mut copy, word)?;
    let from = number(from);
    for at in 0..number(times) {
        append_with(text, copy.as_slice(), from.saturating_add(at))?;
    }
    Ok(())
}

fn append_sorted(alloc: Global, text: &mut Vec<u8>, line: &[u8]) -> Result<(), AllocError> {
    let (from, rest) = cut(line);
    let (times, word) = cut(rest);
    let mut copy = Vec::new(alloc);
    append_bytes(&mut copy, word)?;
    let from = number(from);
    let mut numbers = BTreeMap::new(alloc);
    for at in 0..number(times) {
        let value = from.saturating_add(at);
        let mut digits = Vec::new(alloc);
        append_number(&mut digits, value)?;
        numbers.insert(digits, value)?;
    }
    for value in numbers.values() {
        append_with(text, copy.as_slice(), *value)?;
    }
    Ok(())
}

fn append_number(text: &mut Vec<u8>, value: usize) -> Result<(), AllocError> {
    let mut buffer = Buffer::new();
    text.extend_from_slice(buffer.format(value).as_bytes())
}

/// Appends a copy with the number for `{i}`, and the next one for `{i+1}`.
fn append_with(text: &mut Vec<u8>, copy: &[u8], value: usize) -> Result<(), AllocError> {
    let mut first = true;
    for piece in copy.split(|byte| *byte == b'{') {
        if first {
            text.extend_from_slice(piece)?;
        } else {
            append_marked(text, piece, value)?;
        }
        first = false;
    }
    Ok(())
}

fn append_marked(text: &mut Vec<u8>, piece: &[u8], value: usize) -> Result<(), AllocError> {
    match piece {
        [b'i', b'}', rest @ ..] => {
            append_number(text, value)?;
            text.extend_from_slice(rest)
        }
        [b'i', b'+', b'1', b'}', rest @ ..] => {
            append_number(text, value.saturating_add(1))?;
            text.extend_from_slice(rest)
        }
        _ => {
            text.extend_from_slice(b"{")?;
            text.extend_from_slice(piece)
        }
    }
}
