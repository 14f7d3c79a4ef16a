//! Command lines, and what is reported of them.
use kati_args::{ArgFault, Args, Word, args_of};
use std::alloc::{AllocError, Global};
use std::process::Abort;

/// The words of a command line, each on a line of its own; the first is the program's name.
fn words_of(alloc: Global, lines: &str) -> Result<Vec<String>, AllocError> {
    let mut words = Vec::new(alloc);
    for word in lines.split('\n') {
        words.push(String::from_str(alloc, word)?)?;
    }
    Ok(words)
}

/// What is asked for, or why nothing is.
pub(crate) fn answer(rt: &impl Abort, alloc: Global, lines: &str) -> Result<Args, ArgFault> {
    let words = words_of(alloc, lines).expect(rt, "memory");
    args_of(alloc, words.as_slice())
}

fn put(told: &mut Vec<u8>, bytes: &[u8]) {
    let _refused = told.extend_from_slice(bytes);
}

fn put_file(told: &mut Vec<u8>, lead: &[u8], name: &Option<Word>) {
    if let Some(name) = name {
        put(told, lead);
        put(told, name.as_str().as_bytes());
    }
}

fn put_digit(told: &mut Vec<u8>, digit: u64) {
    let _refused = told.push(b'0' + (digit % 10) as u8);
}

/// Files, the limit as three digits, goals and macros, each with a mark in front.
fn put_args(told: &mut Vec<u8>, args: &Args) {
    put_digit(told, args.limit / 100);
    put_digit(told, args.limit / 10);
    put_digit(told, args.limit);
    put_file(told, b" -f ", &args.makefile);
    put_file(told, b" --files ", &args.files);
    put_file(told, b" --check ", &args.check);
    for goal in args.goals.as_slice() {
        put(told, b" [");
        put(told, goal.as_slice());
        put(told, b"]");
    }
    for item in args.macros.as_slice() {
        put(told, b" {");
        put(told, item.name.as_slice());
        put(told, b"}{");
        put(told, item.value.as_slice());
        put(told, b"}");
    }
}

/// What the words are answered, in one line.
pub(crate) fn told(rt: &impl Abort, alloc: Global, lines: &str) -> Vec<u8> {
    let mut told = Vec::new(alloc);
    match answer(rt, alloc, lines) {
        Ok(args) => put_args(&mut told, &args),
        Err(ArgFault::Help(_text)) => put(&mut told, b"help"),
        Err(ArgFault::Usage(_text)) => put(&mut told, b"usage"),
        Err(ArgFault::BadMacro(word)) => {
            put(&mut told, b"bad macro ");
            put(&mut told, word.as_bytes());
        }
        Err(ArgFault::Memory) => put(&mut told, b"memory"),
    }
    told
}
