//! Single nodes: kinds, stems, and what each part needs.
use crate::asking::{Asked, Question, told};
use crate::sameness::same;
use std::alloc::{AllocError, Global};
use std::process::Abort;
use std::test::Fail;

/// Rules, list of files, goal, a name, and what is reported of its node.
type Row<'a> = (&'a [u8], &'a [u8], &'a [u8], &'a [u8], &'a [u8]);

fn tells(rt: &impl Abort, alloc: Global, rows: &[Row]) -> Result<(), AllocError> {
    for row in rows {
        let asked = Asked {
            rules: row.0,
            files: row.1,
            question: Question::Node(row.3),
        };
        let told = told(alloc, asked, row.2)?;
        same(rt, row.0, told.as_slice(), row.4);
    }
    Ok(())
}

#[test]
fn kinds(rt: HostRuntime) -> Result<(), Fail> {
    const ROWS: &[Row] = &[
        (b"a:: b;x", b"", b"a", b"a", b"double [] b |"),
        (b"a:: b", b"", b"a", b"a", b"double [] b |"),
        (b"a: b;x", b"", b"a", b"a", b"explicit [] b |"),
        (b"a: b", b"", b"a", b"a", b"explicit [] b |"),
        (b"a: b", b"", b"a", b"b", b"leaf [] |"),
        (b"a: b", b"", b"a", b"c", b"not reached"),
        (b".PHONY: a", b"", b"a", b"a", b"phony [] |"),
        (b".PHONY: a\na: b", b"", b"a", b"a", b"explicit [] b |"),
        (
            b"%.o: %.c;x\na.o: b",
            b"a.c",
            b"a.o",
            b"a.o",
            b"implicit [a] a.c b |",
        ),
        // An empty recipe is a recipe.
        (
            b"%.o: %.c;x\na.o:;",
            b"a.c",
            b"a.o",
            b"a.o",
            b"explicit [a] |",
        ),
    ];
    tells(&rt, rt.alloc(), ROWS)?;
    Ok(())
}

#[test]
fn stems(rt: HostRuntime) -> Result<(), Fail> {
    const ROWS: &[Row] = &[
        (b"x.c: %:;e", b"", b"x.c", b"x.c", b"explicit [x.c] |"),
        (
            b"x.o y.o: %.o: %.c;e",
            b"",
            b"x.o",
            b"x.o",
            b"explicit [x] x.c |",
        ),
        (b"a.c:;e\n.SUFFIXES:", b"", b"a.c", b"a.c", b"explicit [] |"),
        (
            b".SUFFIXES: .b.c .c.c\nx.b.c:;e",
            b"",
            b"x.b.c",
            b"x.b.c",
            b"explicit [x.b] |",
        ),
        (b"a.c:;e", b"", b"a.c", b"a.c", b"explicit [a] |"),
        (
            b"%.o: %.c;e",
            b"d/x.c",
            b"d/x.o",
            b"d/x.o",
            b"implicit [d/x] d/x.c |",
        ),
        // Each leaf has its own.
        (b"a: x.c y.o z;e", b"", b"a", b"x.c", b"leaf [x] |"),
        (b"a: x.c y.o z;e", b"", b"a", b"y.o", b"leaf [y] |"),
        (b"a: x.c y.o z;e", b"", b"a", b"z", b"leaf [] |"),
        // Each rule has its own.
        (b"a.o a.z:: %.o: %.c;e", b"", b"a.o", b"a.o", b"no book"),
        (
            b"a.o:: %.o: %.c;e\na.o:: b | c;f",
            b"",
            b"a.o",
            b"a.o",
            b"double [a] a.c | [a] b | c",
        ),
    ];
    tells(&rt, rt.alloc(), ROWS)?;
    Ok(())
}

#[test]
fn needs(rt: HostRuntime) -> Result<(), Fail> {
    const ROWS: &[Row] = &[
        // With repeats, and with what stands in both lists.
        (
            b"t: x x | x y y;e",
            b"",
            b"t",
            b"t",
            b"explicit [] x x | x y y",
        ),
        (
            b"a:: x | y;one\na:: y | x;two",
            b"",
            b"a",
            b"a",
            b"double [] x | y [] y | x",
        ),
    ];
    tells(&rt, rt.alloc(), ROWS)?;
    Ok(())
}

#[test]
fn instances(rt: HostRuntime) -> Result<(), Fail> {
    const ROWS: &[Row] = &[
        (b"b a &: c;x", b"", b"a", b"a", b"explicit [] c | group b"),
        (
            b"%.h %.c: %.y;x",
            b"d/p.y",
            b"d/p.c",
            b"d/p.c",
            b"implicit [d/p] d/p.y | pattern d/,p",
        ),
        (
            b"%.c ./%.c: %.y;x",
            b"p.y",
            b"p.c",
            b"p.c",
            b"implicit [p] p.y |",
        ),
    ];
    tells(&rt, rt.alloc(), ROWS)?;
    Ok(())
}
