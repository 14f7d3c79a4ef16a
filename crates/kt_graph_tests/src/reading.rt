//! Books from lines of text.
use kt_rules::{Book, Name, RuleFault, Warnings};
use kt_rules_doubles::entry_of;
use std::alloc::{AllocError, Global};

fn add(alloc: Global, book: &mut Book, line: &[u8], number: u64) -> Result<Warnings, RuleFault> {
    let entry = entry_of(alloc, line, number)?;
    book.add(entry)
}

/// Whether a book takes the rule of a line.
fn takes(alloc: Global, book: &mut Book, line: &[u8], number: u64) -> bool {
    add(alloc, book, line, number).is_ok()
}

/// Whether a book takes the rules of a text, a rule a line.
pub(crate) fn takes_all(alloc: Global, book: &mut Book, text: &[u8]) -> bool {
    let mut number = 0u64;
    let mut takes_all = true;
    for line in text.split(|byte| *byte == b'\n') {
        number = number.saturating_add(1);
        takes_all &= takes(alloc, book, line, number);
    }
    takes_all
}

/// The words of a text as names.
pub(crate) fn names(alloc: Global, words: &[u8]) -> Result<Vec<Name>, AllocError> {
    let mut names = Vec::new(alloc);
    for word in words.split(|byte| *byte == b' ') {
        if !word.is_empty() {
            names.push(Name::copied(alloc, word)?)?;
        }
    }
    Ok(names)
}
