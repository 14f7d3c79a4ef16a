//! Blocks of texts, from the manual and kati's own rules.
use crate::sameness::same;
use kt_syntax::{BlockStep, Missing, Stray, blocks, marked_blocks};
use kt_text::{line_marks, logical_lines};
use std::test::Fail;

/// A letter for a step, and the last digit of each place that it names.
fn put(told: &mut Vec<u8>, letter: u8, places: &[usize]) -> Result<(), Fail> {
    told.push(letter)?;
    for place in places {
        told.push(b'0' + (*place % 10) as u8)?;
    }
    Ok(())
}

/// The steps of a text, and after an exclamation mark the end that is missing, by the last digit of
/// its number.
fn told(text: &[u8], rt: &HostRuntime) -> Result<Vec<u8>, Fail> {
    let lines = logical_lines(rt.alloc(), text)?;
    let found = blocks(rt.alloc(), text, &lines)?;
    let mut told = Vec::new(rt.alloc());
    for line in 0..lines.len() {
        let ordinary = found.is_ordinary(line);
        match found.get(line) {
            Some(BlockStep::Line) if ordinary => put(&mut told, b'l', &[])?,
            Some(BlockStep::Line) => put(&mut told, b'?', &[])?,
            Some(BlockStep::Body) => put(&mut told, b'b', &[])?,
            Some(BlockStep::Define { end }) => put(&mut told, b'd', &[end])?,
            Some(BlockStep::Endef) => put(&mut told, b'D', &[])?,
            Some(BlockStep::Conditional { next, after }) => put(&mut told, b'c', &[next, after])?,
            Some(
                BlockStep::Branch {
                    condition: true,
                    next,
                    after,
                },
            ) => put(&mut told, b'e', &[next, after])?,
            Some(
                BlockStep::Branch {
                    condition: false,
                    next,
                    after,
                },
            ) => put(&mut told, b'p', &[next, after])?,
            Some(BlockStep::Endif) => put(&mut told, b'C', &[])?,
            Some(BlockStep::Stray(Stray::Else)) => put(&mut told, b'E', &[])?,
            Some(BlockStep::Stray(Stray::LateElse)) => put(&mut told, b'L', &[])?,
            Some(BlockStep::Stray(Stray::Endif)) => put(&mut told, b'F', &[])?,
            Some(BlockStep::Stray(Stray::Endef)) => put(&mut told, b'G', &[])?,
            None => put(&mut told, b'?', &[])?,
        }
    }
    match found.missing() {
        Some(Missing::Endif(number)) => put(&mut told, b'!', &[(number % 10) as usize])?,
        Some(Missing::Endef(number)) => put(&mut told, b'#', &[(number % 10) as usize])?,
        None => {}
    }
    Ok(told)
}

#[test]
fn finds_blocks(rt: HostRuntime) -> Result<(), Fail> {
    let rows: [(&[u8], &[u8]); 30] = [
        (b"", b""),
        (b"ifdef X\na\nelse\nb\nendif\nc\n", b"c24lp44lCl"),
        (
            b"ifeq (a,b)\nelse ifeq \"a\" 'a'\nelse\nendif\n",
            b"c13e23p33C",
        ),
        (
            b"ifdef X\nifdef Y\nelse\nendif\nelse\nendif",
            b"c45c23p33Cp55C",
        ),
        (b"ifdef X\nelse\nelse\nendif\n", b"c12p22LC"),
        (
            b"ifdef X\nelse\nelse\nc\nelse ifdef Y\nendif\n",
            b"c12p22LlLC",
        ),
        (b"ifdef X\nelse ifeq(a,a)\nelse\nendif\n", b"c12p22LC"),
        (b"ifdef Q\nelse ifdef = x\nendif\n", b"c12e22C"),
        (b"ifdef Q\nelse ifdef#c\nendif\n", b"c12e22C"),
        (b"ifdef Q\nelse#ifdef\nendif\n", b"c12p22C"),
        (b"ifdef Q\nelse \\\n ifdef X\nendif\n", b"c12e22C"),
        (b"else\n", b"E"),
        (b"endif\n", b"F"),
        (b"endef\n", b"G"),
        (b"ifdef X\nendef\nendif\nendif\n", b"c22GCF"),
        (b"\tendif\nendif = x\n", b"ll"),
        (b"define A\ndefine B\nx\nendef\nendef\ny\n", b"d4bbbDl"),
        (
            b"define A\nendef = x\ndefine := y\n\tendef\nendef#c\n",
            b"d4bbbD",
        ),
        (b"define A\nelse\nendif\nifdef X\nendef\n", b"d4bbbD"),
        (b"ifdef X\nifdef Y\n", b"c22c22!2"),
        (b"ifdef X\nifdef Y\nendif\n", b"c33c22C!1"),
        (b"ifdef X\nifdef Y\ndefine Z\n", b"c33c33d3#3"),
        (b"ifdef X\ndefine A !=\ndefine B\nx\nendef\n", b"c55d5bbb#2"),
        (b"a \\\nb\nifdef X\n", b"lc22!3"),
        (b"define $\\\n A :=\nx\nendef\n", b"d2bD"),
        (b"ifdef Q\nelse$\\\n ifdef X\nendif\n", b"c22lC"),
        (b"ifdef Q\nelse \\\n \\\n ifdef$\\\n X\nendif\n", b"c12p22C"),
        (
            b"ifdef Q\nendif = 3\n\tendif\na \\\nendif\nendif # c\n",
            b"c44lllC",
        ),
        (
            b"ifdef Q\nendif\\\n= 3\nendif:\nendifs\nendif\n",
            b"c44lllC",
        ),
        (
            b"ifdef Q\n\\\nendif\nifdef Q\n \\\n else \\\n ifdef Q # c\nendif\n",
            b"c11Cc34e44C",
        ),
    ];
    for (text, expected) in rows {
        let found = told(text, &rt)?;
        same(&rt, text, found.as_slice(), expected);
    }
    Ok(())
}

/// So many conditionals, each inside the one before it.
fn nested(count: usize, rt: &HostRuntime) -> Result<Vec<u8>, Fail> {
    let mut text = Vec::new(rt.alloc());
    for _ in 0..count {
        text.extend_from_slice(b"ifndef X\n")?;
    }
    Ok(text)
}

#[test]
fn finds_deep_blocks(rt: HostRuntime) -> Result<(), Fail> {
    let mut text = nested(100_000, &rt)?;
    let opened = logical_lines(rt.alloc(), &text)?;
    let found = blocks(rt.alloc(), &text, &opened)?;
    assert_eq!(rt; found.missing(), Some(Missing::Endif(100_000)));
    for _ in 0..100_000 {
        text.extend_from_slice(b"endif\n")?;
    }
    let lines = line_marks(rt.alloc(), &text)?;
    let found = marked_blocks(rt.alloc(), &text, &lines)?;
    assert_eq!(rt; found.missing(), None);
    let outermost = BlockStep::Conditional {
        next: 199_999,
        after: 199_999,
    };
    assert_eq!(rt; found.get(0), Some(outermost));
    assert_eq!(rt; found.get(199_999), Some(BlockStep::Endif));
    Ok(())
}
