//! Texts over macros that refer to one another, expanded with few levels, beside a plain way that goes level by level.
use super::told;
use crate::sameness::same;
use kt_eval::{Flavour, Macro, Macros, Origin};
use kt_testing::{Random, put};
use std::alloc::{AllocError, Global};
use std::test::Fail;

/// The macros.
const NAMES: [&[u8]; 4] = [b"a", b"b", b"c", b"long"];

/// The number of no macro.
const NONE: usize = NAMES.len();

/// A piece of a text: how it is spelled, and the number of the macro whose value it is, or else what it is expanded to.
const PIECES: [(&[u8], usize, &[u8]); 16] = [
    (b"x", NONE, b"x"),
    (b" y ", NONE, b" y "),
    (b"$$", NONE, b"$"),
    (b"$(none)", NONE, b""),
    (b"$%", NONE, b""),
    (b"$()", NONE, b""),
    (b"$a", 0, b""),
    (b"$(a)", 0, b""),
    (b"${b}", 1, b""),
    (b"$b", 1, b""),
    (b"$(c)", 2, b""),
    (b"$c", 2, b""),
    (b"$(long)", 3, b""),
    (b"${long}", 3, b""),
    (b"$(long :)", NONE, b""),
    (b"$(a:)", NONE, b""),
];

/// The value of a macro: its pieces, and how they are spelled.
#[derive(Drop)]
struct Value {
    flavour: Flavour,
    pieces: Vec<usize>,
    text: Vec<u8>,
}

/// What a deferred macro is expanded to with a given number of levels, or none where that is too
/// deep.
type Row = Vec<Option<Vec<u8>>>;

fn pieces(alloc: Global, random: &mut Random, end: usize) -> Vec<usize> {
    let mut pieces = Vec::new(alloc);
    for _ in 0..random.below(end) {
        let _refused = pieces.push(random.below(PIECES.len()));
    }
    pieces
}

fn spelled(alloc: Global, pieces: &[usize]) -> Vec<u8> {
    let mut text = Vec::new(alloc);
    for piece in pieces {
        if let Some((spelling, _macro, _value)) = PIECES.get(*piece) {
            put(&mut text, spelling);
        }
    }
    text
}

fn values(alloc: Global, random: &mut Random) -> Vec<Value> {
    let mut values = Vec::new(alloc);
    for _ in NAMES {
        let pieces = pieces(alloc, random, 4);
        let text = spelled(alloc, pieces.as_slice());
        let flavour = match random.below(4) {
            0 => Flavour::Immediate,
            _ => Flavour::Deferred,
        };
        let _refused = values.push(Value {
            flavour,
            pieces,
            text,
        });
    }
    values
}

fn table(alloc: Global, values: &[Value]) -> Result<Macros, AllocError> {
    let mut macros = Macros::new(alloc);
    for (name, value) in NAMES.iter().zip(values.iter()) {
        macros.insert(
            Vec::from_slice(alloc, name)?,
            Macro {
                flavour: value.flavour,
                origin: Origin::Makefile,
                value: kt_eval::Value::copied(alloc, value.text.as_slice())?,
            },
        )?;
    }
    Ok(macros)
}

/// What the pieces are expanded to where macros stand for these values, or none where that is too deep.
fn put_together(alloc: Global, pieces: &[usize], row: &[Option<Vec<u8>>]) -> Option<Vec<u8>> {
    let mut text = Vec::new(alloc);
    for piece in pieces {
        if let Some((_spelling, number, value)) = PIECES.get(*piece) {
            match row.get(*number) {
                Some(Some(found)) => put(&mut text, found.as_slice()),
                Some(None) => return None,
                None => put(&mut text, value),
            }
        }
    }
    Some(text)
}

/// What macros stand for with one level more than in a row, or with none where there is no row.
fn row_above(alloc: Global, values: &[Value], below: Option<&Row>) -> Row {
    let mut row = Vec::new(alloc);
    for value in values {
        let found = match (value.flavour, below) {
            (Flavour::Immediate, _) => {
                let mut text = Vec::new(alloc);
                put(&mut text, value.text.as_slice());
                Some(text)
            }
            (Flavour::Deferred, Some(below)) => put_together(
                alloc,
                value.pieces.as_slice(),
                below.as_slice(),
            ),
            (Flavour::Deferred, None) => None,
        };
        let _refused = row.push(found);
    }
    row
}

/// What a text of these pieces is expanded to with a given number of levels, as `told` tells it.
fn wanted(alloc: Global, values: &[Value], pieces: &[usize], limit: u64) -> Vec<u8> {
    let mut row = row_above(alloc, values, None);
    for _ in 0..limit {
        row = row_above(alloc, values, Some(&row));
    }
    let mut text = Vec::new(alloc);
    match put_together(alloc, pieces, row.as_slice()) {
        Some(found) => put(&mut text, found.as_slice()),
        None => put(&mut text, b"kati: *** nesting too deep [E08]"),
    }
    text
}

#[test]
fn expands_level_by_level(rt: HostRuntime) -> Result<(), Fail> {
    let alloc = rt.alloc();
    let mut random = Random::new(38);
    for limit in 0..5 {
        for _ in 0..400 {
            let values = values(alloc, &mut random);
            let macros = table(alloc, values.as_slice())?;
            let pieces = pieces(alloc, &mut random, 6);
            let text = spelled(alloc, pieces.as_slice());
            let found = told(alloc, &macros, text.as_slice(), limit);
            let wanted = wanted(alloc, values.as_slice(), pieces.as_slice(), limit);
            same(
                &rt,
                (text.as_slice(), limit),
                found.as_slice(),
                wanted.as_slice(),
            );
        }
    }
    Ok(())
}
