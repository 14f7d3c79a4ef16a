//! Scans of many bytes at a time and lines that aren't copied, beside plain ones, on thousands of short texts.
use crate::lines::{kind_view, told};
use crate::plain_way;
use crate::sameness::same;
use kt_syntax::{LineText, plain, recipe_text};
use kt_testing::Random;
use kt_text::joined;
use std::test::Fail;

/// How many texts a test compares.
const COUNT: usize = 4000;

/// What references and comments are made of.
const PIECES: &[&[u8]] = &[
    b"a", b"b c", b" ", b"\t", b"$", b"$$", b"$(", b"${", b"(", b")", b"}", b"#", b"\\", b"\\\\",
    b"\\\n", b"\\\r\n",
];

#[test]
fn cuts_as_the_plain_way(rt: HostRuntime) -> Result<(), Fail> {
    let mut random = Random::new(1);
    for _ in 0..COUNT {
        let text = random.text(rt.alloc(), PIECES, 12);
        let wanted = plain_way::terms(rt.alloc(), text.as_slice());
        let found = told(text.as_slice(), &rt)?;
        same(&rt, text.as_slice(), found.as_slice(), wanted.as_slice());
    }
    Ok(())
}

#[test]
fn drops_comments_as_the_plain_way(rt: HostRuntime) -> Result<(), Fail> {
    let mut random = Random::new(2);
    for _ in 0..COUNT {
        let text = random.text(rt.alloc(), PIECES, 12);
        let line = joined(rt.alloc(), text.as_slice())?;
        let wanted = plain_way::uncommented(rt.alloc(), line.as_slice());
        let found = plain(rt.alloc(), text.as_slice())?;
        same(&rt, text.as_slice(), found.as_slice(), wanted.as_slice());
    }
    Ok(())
}

#[test]
fn joins_recipes_as_the_plain_way(rt: HostRuntime) -> Result<(), Fail> {
    let mut random = Random::new(3);
    for _ in 0..COUNT {
        let text = random.text(rt.alloc(), PIECES, 12);
        let wanted = plain_way::recipe_text(rt.alloc(), text.as_slice());
        let found = recipe_text(rt.alloc(), text.as_slice())?;
        same(&rt, text.as_slice(), found.as_slice(), wanted.as_slice());
    }
    Ok(())
}

/// What assignments are made of.
const ASSIGNED: &[&[u8]] = &[
    b"a", b"b", b" ", b"\t", b"$", b"$(", b")", b"#", b"\\", b":", b"=", b"+", b"?", b" := ", b"!",
    b"\\\n",
];

/// Whether the letter that is told is an operator's.
fn is_assignment(told: &[u8]) -> bool {
    match told {
        [letter, ..] => b"=:e?+!".contains(letter),
        [] => false,
    }
}

#[test]
fn tells_assignments_as_the_plain_way(rt: HostRuntime) -> Result<(), Fail> {
    let mut random = Random::new(4);
    for _ in 0..COUNT {
        let text = random.text(rt.alloc(), ASSIGNED, 10);
        let line = LineText::new(rt.alloc(), text.as_slice())?;
        let wanted = plain_way::assignment(rt.alloc(), line.text());
        let found = kind_view(&line, false, &rt)?;
        if wanted.is_empty() {
            same(&rt, text.as_slice(), is_assignment(found.as_slice()), false);
        } else {
            same(&rt, text.as_slice(), found.as_slice(), wanted.as_slice());
        }
    }
    Ok(())
}
