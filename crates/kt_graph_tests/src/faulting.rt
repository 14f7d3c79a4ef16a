//! What is wrong with a graph, and what comes first.
use crate::graphs::{Row, tells};
use kt_graph::GraphFault;
use kt_list::Sequence;
use std::test::Fail;

#[test]
fn prints_faults(rt: HostRuntime) -> Result<(), Fail> {
    let words = Vec::from_slice(rt.alloc(), b"no rule for b")?;
    let fault = GraphFault::Refused {
        number: 27,
        words: Sequence::from(words),
    };
    let printed = format!(in rt.alloc(); "{fault}")?;
    assert_eq!(rt; printed.as_str(), "no rule for b [E27]");
    Ok(())
}

#[test]
fn goals_without_rule(rt: HostRuntime) -> Result<(), Fail> {
    const ROWS: &[Row] = &[
        (b"a:;x", b"", b"a b c", b"E27 no rule for b"),
        (b"t: a", b"a", b"a", b"E27 no rule for a"),
        // It comes before all else.
        (b"x: x", b"", b"x b", b"E27 no rule for b"),
    ];
    tells(&rt, rt.alloc(), ROWS)?;
    Ok(())
}

#[test]
fn cycles(rt: HostRuntime) -> Result<(), Fail> {
    const ROWS: &[Row] = &[
        (b"b: a\na: b", b"", b"b", b"E28 circular: a"),
        (b"a: a", b"", b"a", b"E28 circular: a"),
        (b"a: | a", b"", b"a", b"E28 circular: a"),
        (b"a b &: c;x\na: b", b"", b"a", b"E28 circular: b"),
        (b"a b &: c;x\na: b", b"", b"b", b"b : c ;x\n"),
        (
            b"%.a: %.b;x\n%.b: %.a;x\nall: x.a",
            b"",
            b"all",
            b"E28 circular: x.a",
        ),
        // Names that lead to a cycle, and those after it, don't lie on it.
        (b"a: m\nm: n b\nn: m\nb: c", b"", b"a", b"E28 circular: m"),
        // Nor does a name between two cycles.
        (b"z: z b\nb: y\ny: y", b"", b"z", b"E28 circular: y"),
        // What goals don't need doesn't count.
        (b"a: b\nx: x", b"", b"a", b"a : b\n"),
        // A name on two ways isn't circular.
        (
            b"a: b c\nb: d\nc: d\nd:",
            b"",
            b"a",
            b"a : b c\nb : d\nc : d\nd :\n",
        ),
    ];
    tells(&rt, rt.alloc(), ROWS)?;
    Ok(())
}

#[test]
fn files(rt: HostRuntime) -> Result<(), Fail> {
    const ROWS: &[Row] = &[
        (
            b"all: ./_kati_always_build_",
            b"",
            b"all",
            b"E33 reserved name",
        ),
        (
            b"all: x/../_kati_always_build_",
            b"",
            b"all",
            b"E33 reserved name",
        ),
        (
            b"all: a/b a//b\na/b:;true\na//b:;true",
            b"",
            b"all",
            b"E31 two targets of one file: a//b",
        ),
        (
            b"t: b/c b//c a/b a//b\na/b a//b b/c b//c:;x",
            b"",
            b"t",
            b"E31 two targets of one file: a//b",
        ),
        // A leaf of another spelling passes.
        (b"t: a/b\na//b:;x", b"", b"t a//b", b"a//b : ;x\nt : a/b\n"),
        (
            b"t: a/b a//b x\na/b a//b:;y\nx: x",
            b"",
            b"t",
            b"E28 circular: x",
        ),
        (
            b"t: a/b a//b _kati_always_build_\na/b a//b:;y",
            b"",
            b"t",
            b"E33 reserved name",
        ),
        (
            b"t: ../a x/../../a\n../a x/../../a:;y",
            b"",
            b"t",
            b"E31 two targets of one file: ../a",
        ),
        (
            b"t: /a /../a\n/a /../a:;y",
            b"",
            b"t",
            b"E31 two targets of one file: /../a",
        ),
        (
            b"t: a /a\na /a:;y",
            b"",
            b"t",
            b"/a : ;y\na : ;y\nt : a /a\n",
        ),
    ];
    tells(&rt, rt.alloc(), ROWS)?;
    Ok(())
}
