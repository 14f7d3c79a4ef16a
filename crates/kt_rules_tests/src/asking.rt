//! What books answer, as texts: their rules are a line each, the head, and a recipe after the first `;`.
use crate::sameness::same;
use crate::telling::{put_fault, put_needs, put_place};
use kt_list::Names;
use kt_rules::{
    Book, BookRule, Explicit, Name, NeededNames, NeedsView, Pattern, RuleFault, RuleReader,
    TargetRule, Warnings,
};
use kt_rules_doubles::{entry_of, place_of, text_of};
use kt_testing::put;
use std::alloc::{AllocError, Global};
use std::process::Abort;

/// Adds the entry of a line.
pub(crate) fn add(
    alloc: Global,
    book: &mut Book,
    line: &[u8],
    number: u64,
) -> Result<Warnings, RuleFault> {
    let entry = entry_of(alloc, line, number)?;
    book.add(entry)
}

/// Adds the rule of a line that a reader reads.
pub(crate) fn add_read(
    alloc: Global,
    book: &mut Book,
    reader: &mut RuleReader,
    head: &[u8],
    recipe: Option<&[u8]>,
) -> Result<Warnings, RuleFault> {
    let recipe = match recipe {
        Some(text) => Some(text_of(alloc, text)?),
        None => None,
    };
    let entry = reader.read(head, recipe, place_of(alloc, 1)?)?;
    book.add(entry)
}

/// Adds the entries of lines, and tells what `add` returns.
pub(crate) fn add_lines(alloc: Global, book: &mut Book, text: &[u8], told: &mut Vec<u8>) {
    let mut number = 0u64;
    for line in text.split(|byte| *byte == b'\n') {
        number = number.saturating_add(1);
        put_answer(told, add(alloc, book, line, number));
    }
}

pub(crate) fn put_answer(told: &mut Vec<u8>, answer: Result<Warnings, RuleFault>) {
    match answer {
        Ok(warnings) => put_warnings(told, &warnings),
        Err(fault) => put_fault(told, &fault),
    }
}

fn put_warnings(told: &mut Vec<u8>, warnings: &Warnings) {
    for line in warnings.as_slice() {
        put(told, line.as_slice());
        put(told, b".");
    }
}

/// The lines of a target's explicit rules.
fn put_explicit(told: &mut Vec<u8>, rules: Explicit) {
    for rule in rules {
        put_place(told, rule.entry.place());
        put(told, rule.target.name);
        put(told, b".");
    }
}

/// The numbers of what the rules of a target need, one a byte.
fn put_numbers(told: &mut Vec<u8>, book: &Book, target: &[u8]) {
    for rule in book.explicit(target) {
        put_numbers_of(told, book.name_table(), rule.needs().prerequisites());
        put(told, b"|");
        put_numbers_of(told, book.name_table(), rule.needs().order_only());
        put(told, b".");
    }
}

fn put_is_known(told: &mut Vec<u8>, book: &Book, name: &[u8]) {
    if let Ok(names) = book.names() {
        put(told, if names.contains(name) { b"yes" } else { b"no" });
    }
}

fn put_numbers_of(told: &mut Vec<u8>, table: &Names, names: NeededNames) {
    for name in names {
        match name.number_in(table) {
            Some(number) => put(told, &[b'0' + (number % 10) as u8]),
            None => put(told, b"-"),
        }
    }
}

/// All entries with their targets, a star after each that is explicit.
fn put_entries(told: &mut Vec<u8>, book: &Book) {
    for entry in book.entries() {
        put_place(told, entry.place());
        put_targets(told, book, entry);
        put(told, b".");
    }
}

fn put_targets(told: &mut Vec<u8>, book: &Book, entry: BookRule<'_>) {
    for target in entry.targets() {
        put(told, target.name);
        put(
            told,
            if book.is_explicit(TargetRule { entry, target }) {
                b"* "
            } else {
                b" "
            },
        );
    }
}

fn put_suffixes(told: &mut Vec<u8>, suffixes: &Names) {
    for number in 0..suffixes.len() {
        put(told, suffixes.name_at(number));
    }
}

/// The pattern rules, each with its line and its recipe's text.
fn put_patterns(alloc: Global, told: &mut Vec<u8>, book: &Book) {
    let Ok(patterns) = book.patterns() else {
        put(told, b"memory");
        return;
    };
    for pattern in patterns.as_slice() {
        put_pattern(alloc, told, pattern);
        put(told, b".");
    }
}

fn put_pattern(alloc: Global, told: &mut Vec<u8>, pattern: &Pattern) {
    put_place(told, pattern.place());
    for target in pattern.targets() {
        put(told, target.name.as_slice());
        put(told, b" ");
    }
    put(told, if pattern.is_terminal() { b":: " } else { b": " });
    put_needs(alloc, told, NeedsView::of(pattern.needs()));
    for line in pattern.recipe().unwrap_or(&[]) {
        put(told, line.text.as_slice());
    }
}

/// What is asked of a book.
#[derive(Clone, Copy)]
pub(crate) enum Question<'a> {
    /// What `add` answered.
    Messages,
    Entries,
    Explicit(&'a [u8]),
    /// As `Explicit`, for a name with a number that it may have in the book's table.
    ExplicitAt(&'a [u8], usize),
    /// The numbers of what a name's explicit rules need, in the book's table.
    Numbers(&'a [u8]),
    IsPhony(&'a [u8]),
    /// Whether the book makes a name known.
    IsKnown(&'a [u8]),
    Suffixes,
    SuffixOf(&'a [u8]),
    Goal,
    Patterns,
}

pub(crate) fn put_answer_to(alloc: Global, told: &mut Vec<u8>, book: &Book, question: Question) {
    match question {
        Question::Messages => {}
        Question::Entries => put_entries(told, book),
        Question::Explicit(name) => put_explicit(told, book.explicit(name)),
        Question::ExplicitAt(name, number) => put_explicit(told, book.explicit_at(name, number)),
        Question::Numbers(name) => put_numbers(told, book, name),
        Question::IsPhony(name) => put(told, if book.is_phony(name) { b"yes" } else { b"no" }),
        Question::IsKnown(name) => put_is_known(told, book, name),
        Question::Suffixes => put_suffixes(told, book.suffixes()),
        Question::SuffixOf(name) => put(told, book.suffix_of(name).unwrap_or(b"none")),
        Question::Goal => put(told, book.first_goal().unwrap_or(b"none")),
        Question::Patterns => put_patterns(alloc, told, book),
    }
}

/// What a book answers after the lines of a text.
pub(crate) fn answer(
    alloc: Global,
    text: &[u8],
    question: Question,
) -> Result<Vec<u8>, AllocError> {
    let mut told = Vec::new(alloc);
    let mut book = Book::new(alloc)?;
    add_lines(alloc, &mut book, text, &mut told);
    if !matches!(question, Question::Messages) {
        told.clear();
    }
    put_answer_to(alloc, &mut told, &book, question);
    Ok(told)
}

/// Each row is a text, a question and its answer.
pub(crate) fn answers(
    rt: &impl Abort,
    alloc: Global,
    rows: &[(&[u8], Question, &[u8])],
) -> Result<(), AllocError> {
    for row in rows {
        let told = answer(alloc, row.0, row.1)?;
        same(rt, row.0, told.as_slice(), row.2);
    }
    Ok(())
}
