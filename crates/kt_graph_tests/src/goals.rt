//! What is to be made.
use crate::asking::{Asked, Question, put_told};
use crate::reading::{names, takes_all};
use crate::sameness::same;
use kt_graph::{default_goal, named_goals};
use kt_rules::{Book, Name};
use kt_testing::put;
use std::alloc::{AllocError, Global};
use std::process::Abort;
use std::test::Fail;

/// Goals, a comma after each.
fn put_goals(told: &mut Vec<u8>, goals: &[Name]) {
    for goal in goals {
        put(told, goal.as_slice());
        put(told, b",");
    }
}

fn put_named(told: &mut Vec<u8>, alloc: Global, words: &[u8]) -> Result<(), AllocError> {
    let words = names(alloc, words)?;
    put_goals_of(told, alloc, words.as_slice())
}

fn put_goals_of(told: &mut Vec<u8>, alloc: Global, words: &[Name]) -> Result<(), AllocError> {
    let goals = named_goals(alloc, words)?;
    put_goals(told, goals.as_slice());
    Ok(())
}

fn put_standing(
    told: &mut Vec<u8>,
    alloc: Global,
    rules: &[u8],
    text: &[u8],
) -> Result<(), AllocError> {
    let mut book = Book::new(alloc)?;
    if takes_all(alloc, &mut book, rules) {
        put_default(told, alloc, &book, text)
    } else {
        put(told, b"no book");
        Ok(())
    }
}

fn put_default(
    told: &mut Vec<u8>,
    alloc: Global,
    book: &Book,
    text: &[u8],
) -> Result<(), AllocError> {
    match default_goal(alloc, book, text)? {
        Some(goal) => put(told, goal.as_slice()),
        None => put(told, b"none"),
    }
    Ok(())
}

#[test]
fn of_the_command_line(rt: HostRuntime) -> Result<(), Fail> {
    const ROWS: &[(&[u8], &[u8])] = &[(b"b ./a .//b", b"b,a,"), (b".//", b"./,"), (b"", b"")];
    let mut told = Vec::new(rt.alloc());
    for row in ROWS {
        told.clear();
        put_named(&mut told, rt.alloc(), row.0)?;
        same(&rt, row.0, told.as_slice(), row.1);
    }
    Ok(())
}

#[test]
fn of_the_makefile(rt: HostRuntime) -> Result<(), Fail> {
    const ROWS: &[(&[u8], &[u8], &[u8])] = &[
        (b"a:;x\nb:;x", b"b", b"b"),
        (b"a:\nb:", b"\n./b\n", b"b"),
        (b"a:\nb:", b" \t\n", b"a"),
        (b"a:\nb:", b"x y", b"x y"),
        (b".c.o:;x\n%.z:;y\nb::;z", b"", b"b"),
        (b"", b"", b"none"),
    ];
    let mut told = Vec::new(rt.alloc());
    for row in ROWS {
        told.clear();
        put_standing(&mut told, rt.alloc(), row.0, row.1)?;
        same(&rt, (row.0, row.1), told.as_slice(), row.2);
    }
    Ok(())
}

fn put_without_bytes(told: &mut Vec<u8>, alloc: Global) -> Result<(), AllocError> {
    let words = Vec::from_array(alloc, [Name::copied(alloc, b"")?])?;
    put_graph_of(told, alloc, words.as_slice())
}

/// The goals that words name, and the graph that they have.
fn put_graph_of(told: &mut Vec<u8>, alloc: Global, words: &[Name]) -> Result<(), AllocError> {
    let goals = named_goals(alloc, words)?;
    put_goals(told, goals.as_slice());
    let asked = Asked {
        rules: b"t:",
        files: b"",
        question: Question::Statements,
    };
    put_told(told, alloc, asked, goals.as_slice())
}

/// An empty goal is a name without bytes, and no rule makes it.
#[test]
fn without_bytes(rt: HostRuntime) -> Result<(), Fail> {
    let mut told = Vec::new(rt.alloc());
    put_without_bytes(&mut told, rt.alloc())?;
    assert_eq!(rt; told.as_slice(), b",E27 no rule for ".as_slice());
    Ok(())
}
