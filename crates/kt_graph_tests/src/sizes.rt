//! Large graphs, in little stack and in time that grows with their size.
use crate::asking::{Asked, Question, told};
use crate::telling::put_number;
use kt_testing::put;
use std::alloc::{AllocError, Global};
use std::process::Abort;
use std::test::Fail;

/// How many targets there are.
const COUNT: usize = 10_000;

/// Appends a name: a letter and a number of six digits.
fn put_name(text: &mut Vec<u8>, letter: &[u8], number: usize) {
    put(text, letter);
    put_number(text, number);
}

/// `t000000: t000001` and so on.
fn put_chain(text: &mut Vec<u8>) {
    for number in 0..COUNT {
        put_name(text, b"t", number);
        put_name(text, b":t", number + 1);
        put(text, b"\n");
    }
}

/// One target with many prerequisites, each with a repeat.
fn put_fan(text: &mut Vec<u8>) {
    put(text, b"all:");
    for number in 0..COUNT * 2 {
        put_name(text, b" p", number % COUNT);
    }
}

/// The graph of a goal has one node more than there are targets.
fn counts(rt: &impl Abort, alloc: Global, rules: &[u8], goal: &[u8]) -> Result<(), AllocError> {
    let asked = Asked {
        rules,
        files: b"",
        question: Question::Count,
    };
    let told = told(alloc, asked, goal)?;
    assert_eq!(rt; told.as_slice(), b"010001".as_slice());
    Ok(())
}

#[test]
fn long_chain(rt: HostRuntime) -> Result<(), Fail> {
    let mut rules = Vec::new(rt.alloc());
    put_chain(&mut rules);
    counts(&rt, rt.alloc(), rules.as_slice(), b"t000000")?;
    Ok(())
}

#[test]
fn wide_fan(rt: HostRuntime) -> Result<(), Fail> {
    let mut rules = Vec::new(rt.alloc());
    put_fan(&mut rules);
    counts(&rt, rt.alloc(), rules.as_slice(), b"all")?;
    Ok(())
}
