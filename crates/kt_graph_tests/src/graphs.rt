//! The statements of graphs.
use crate::asking::{Asked, Question, told};
use crate::sameness::same;
use std::alloc::{AllocError, Global};
use std::process::Abort;
use std::test::Fail;

/// Rules, list of files, goals, and what is reported of the graph.
pub(crate) type Row<'a> = (&'a [u8], &'a [u8], &'a [u8], &'a [u8]);

/// Each row's graph is as it says.
pub(crate) fn tells(rt: &impl Abort, alloc: Global, rows: &[Row]) -> Result<(), AllocError> {
    for row in rows {
        let asked = Asked {
            rules: row.0,
            files: row.1,
            question: Question::Statements,
        };
        let told = told(alloc, asked, row.2)?;
        same(rt, row.0, told.as_slice(), row.3);
    }
    Ok(())
}

#[test]
fn explicit_rules(rt: HostRuntime) -> Result<(), Fail> {
    const ROWS: &[Row] = &[
        (b"a.o: a.c;cc", b"", b"a.o", b"a.o : a.c ;cc\n"),
        (b"t: x | x y;echo", b"", b"t", b"t : x | y ;echo\n"),
        (b"a: b;true\nb:;", b"", b"a", b"a : b ;true\nb : ;\n"),
        (b"a: b;one\na: c;two", b"", b"a", b"a : c b ;two\n"),
        (
            b"a: b | o\na: c | p;x\na: d | q",
            b"",
            b"a",
            b"a : c b d | p o q ;x\n",
        ),
        (b"a: b\na: c", b"", b"a", b"a : b c\n"),
        (b"x.o y.o: %.o: %.c;cc", b"", b"x.o", b"x.o : x.c ;cc\n"),
        (b"a: ./b .//b b;x", b"", b"a", b"a : b ;x\n"),
        (b"b a: ;x", b"", b"b a", b"a : ;x\nb : ;x\n"),
    ];
    tells(&rt, rt.alloc(), ROWS)?;
    Ok(())
}

#[test]
fn double_colon_rules(rt: HostRuntime) -> Result<(), Fail> {
    const ROWS: &[Row] = &[
        (b"a:: b;one\na:: c;two", b"", b"a", b"a : b c ;one ;two\n"),
        (
            b"a:: x | y;one\na:: y | x;two",
            b"",
            b"a",
            b"a : x y ;one ;two\n",
        ),
        // No rule is searched for, also where there is no recipe.
        (b"%.o: %.c;cc\nx.o::", b"x.c\n", b"x.o", b"x.o :\n"),
    ];
    tells(&rt, rt.alloc(), ROWS)?;
    Ok(())
}

#[test]
fn phony_names(rt: HostRuntime) -> Result<(), Fail> {
    const ROWS: &[Row] = &[
        (b".PHONY: clean\nclean:;rm", b"", b"clean", b"clean : ;rm\n"),
        (b".PHONY: clean", b"", b"clean", b"clean :\n"),
        (b".PHONY: | b\na: b\nb:;x", b"", b"a", b"a : b\nb : ;x\n"),
        // No rule is searched for.
        (
            b".PHONY: x.o y\n%.o: %.c;cc\ny:: x.o;go",
            b"x.c\n",
            b"y",
            b"x.o :\ny : x.o ;go\n",
        ),
        (
            b".PHONY a: %: x%\nxa:;y\nx.PHONY:;z",
            b"",
            b"xa x.PHONY",
            b"x.PHONY : ;z\nxa : ;y\n",
        ),
    ];
    tells(&rt, rt.alloc(), ROWS)?;
    Ok(())
}

#[test]
fn pattern_rules(rt: HostRuntime) -> Result<(), Fail> {
    const ROWS: &[Row] = &[
        (b"%.o: %.c;cc", b"x.c", b"x.o", b"x.o : x.c ;cc\n"),
        (b".c.o:;cc", b"x.c", b"x.o", b"x.o : x.c ;cc\n"),
        (b".c.o: .c%:;cc", b"x.c\n", b"x.o", b"x.o : x.c ;cc\n"),
        (b".c.o: | p;cc\nt: x.o", b"x.c\n", b"t", b"t : x.o\n"),
        (
            b"%.o: %.c;cc\n%.o: %.c",
            b"x.c",
            b"x.o",
            b"E27 no rule for x.o",
        ),
        (
            b"%.o: %.c | %.c;one\n%.o: %.c",
            b"x.c\n",
            b"x.o",
            b"x.o : x.c ;one\n",
        ),
        (
            b"%.o: %.c;one\n%.o:: ./%.c",
            b"x.c\n",
            b"x.o",
            b"E27 no rule for x.o",
        ),
        (
            b".c.o:;one\n%.o: %.c",
            b"x.c\n",
            b"x.o",
            b"E27 no rule for x.o",
        ),
        (b".c.o:;x\n%.z: .c.o;y", b"", b"q.z", b"E27 no rule for q.z"),
        (b"%.o ./%.o: %.c;x", b"x.c\n", b"x.o", b"x.o : x.c ;x\n"),
        (
            b".SUFFIXES: | .x\n.x.o:;cc",
            b"q.x\n",
            b"q.o",
            b"q.o : q.x ;cc\n",
        ),
        // With an explicit rule that has no recipe, what it needs comes last.
        (
            b"%.o: %.c;cc\nx.o: x.h",
            b"x.c\n",
            b"x.o",
            b"x.o : x.c x.h ;cc\n",
        ),
        // A name that is known is searched for as well.
        (
            b"%.c: %.y;yacc\nt: x.c",
            b"x.c\nx.y\n",
            b"t",
            b"t : x.c\nx.c : x.y ;yacc\n",
        ),
    ];
    tells(&rt, rt.alloc(), ROWS)?;
    Ok(())
}

#[test]
fn stems_and_directories(rt: HostRuntime) -> Result<(), Fail> {
    const ROWS: &[Row] = &[
        (b"%.o: %.c;cc", b"d/x.c", b"d/x.o", b"d/x.o : d/x.c ;cc\n"),
        (
            b"%.o: /s/%.c;x",
            b"d//s/x.c\n",
            b"d/x.o",
            b"d/x.o : d//s/x.c ;x\n",
        ),
        (
            b"%.o: %.c;one\nx%.o: x%.c;two",
            b"xy.c",
            b"xy.o",
            b"xy.o : xy.c ;two\n",
        ),
        // A prerequisite without percent sign gets no directory.
        (b"%.o: k;x", b"k", b"d/x.o", b"d/x.o : k ;x\n"),
        // A pattern with a slash is matched against the whole name, and its stem is the shorter one.
        (
            b"%.o: k;one\nd/%.o: k;two",
            b"k",
            b"d/x.o",
            b"d/x.o : k ;two\n",
        ),
        // An empty stem is no match.
        (b"x%.o: k;one", b"k", b"x.o", b"E27 no rule for x.o"),
        (b"a%.o: %.c;x", b"x.c", b"a./x.o", b"E27 no rule for a./x.o"),
        (b"a./%.o: ./%.c;x", b"x.c", b"a./x.o", b"a./x.o : x.c ;x\n"),
    ];
    tells(&rt, rt.alloc(), ROWS)?;
    Ok(())
}

#[test]
fn chains(rt: HostRuntime) -> Result<(), Fail> {
    const ROWS: &[Row] = &[
        (
            b"%.o: %.c;cc\n%.c: %.y;yacc\nall: x.o",
            b"./x.y",
            b"all",
            b"all : x.o\nx.c : x.y ;yacc\nx.o : x.c ;cc\n",
        ),
        (
            b"%.o:: %.c;cc\n%.c: %.y;yacc",
            b"x.y",
            b"x.o",
            b"E27 no rule for x.o",
        ),
        (
            b"%.a: %.b;x\n%.b: %.a;x",
            b"",
            b"x.a",
            b"E27 no rule for x.a",
        ),
        // Order-only prerequisites have to be there as well.
        (b"%.o: %.c | %.h;cc", b"x.c", b"x.o", b"E27 no rule for x.o"),
        (
            b"%.o: %.c | %.h;cc\n%.h: %.i;mk",
            b"x.c\nx.i",
            b"x.o",
            b"x.h : x.i ;mk\nx.o : x.c | x.h ;cc\n",
        ),
    ];
    tells(&rt, rt.alloc(), ROWS)?;
    Ok(())
}

#[test]
fn rules_for_any_name(rt: HostRuntime) -> Result<(), Fail> {
    const ROWS: &[Row] = &[
        (b"%: %.sh;x", b"t.sh", b"t", b"t : t.sh ;x\n"),
        // Another rule matches, so this one is dropped, also where nothing makes what that needs.
        (
            b"%.o: %.q;no\n%: %.sh;yes\nt: x.o",
            b"x.o.sh\n",
            b"t",
            b"t : x.o\n",
        ),
        // In a chain it is dropped, unless it is terminal.
        (
            b"%.o: %.c;cc\n%: %.sh;x",
            b"x.c.sh",
            b"x.o",
            b"E27 no rule for x.o",
        ),
        (
            b"%.o: %.c;cc\n%:: %.sh;x",
            b"x.c.sh",
            b"x.o",
            b"x.c : x.c.sh ;x\nx.o : x.c ;cc\n",
        ),
        (b"% %.o: %.c;x", b"a.c\n", b"a.o", b"a.o : a.c ;x\n"),
    ];
    tells(&rt, rt.alloc(), ROWS)?;
    Ok(())
}

#[test]
fn groups(rt: HostRuntime) -> Result<(), Fail> {
    const ROWS: &[Row] = &[
        (
            b"b.o a.o &: c;gen",
            b"",
            b"b.o a.o",
            b"a.o b.o : c c ;gen=\n",
        ),
        (b"b.o a.o &: c;gen", b"", b"b.o", b"b.o : c ;gen\n"),
        (
            b"%.h %.c: %.y;yacc\nall: p.c p.h",
            b"p.y",
            b"all",
            b"all : p.c p.h\np.c p.h : p.y p.y ;yacc=\n",
        ),
        // Directory and stem are compared as a pair.
        (
            b"%.h %.c: %.y;yacc\nall: d/p.c d/p.h p.c",
            b"p.y\nd/p.y\n",
            b"all",
            b"all : d/p.c d/p.h p.c\nd/p.c d/p.h : d/p.y d/p.y ;yacc=\np.c : p.y ;yacc\n",
        ),
        // A group's member has what its other rules need, too.
        (
            b"t: b a\nb a &: c;x\nb: d",
            b"",
            b"t",
            b"a b : c c d ;x\nt : b a\n",
        ),
    ];
    tells(&rt, rt.alloc(), ROWS)?;
    Ok(())
}

#[test]
fn names_that_only_a_stem_makes(rt: HostRuntime) -> Result<(), Fail> {
    const ROWS: &[Row] = &[
        // Of what the objects need, `a.c` alone stands in a rule.
        (
            b"%.o: %.c | %.d;cc\nall: b.o a.o b.o | a.c;ld",
            b"a.c\nb.c\na.d\nb.d\n",
            b"all",
            b"a.o : a.c | a.d ;cc\nall : b.o a.o | a.c ;ld\nb.o : b.c | b.d ;cc\n",
        ),
        (
            b"%.o: %.c;cc\nall: sources/of/the/whole/library/one.o two.o;ld",
            b"sources/of/the/whole/library/one.c\ntwo.c\n",
            b"all",
            b"all : sources/of/the/whole/library/one.o two.o ;ld\n\
              sources/of/the/whole/library/one.o : sources/of/the/whole/library/one.c ;cc\n\
              two.o : two.c ;cc\n",
        ),
        (
            b"x.o y.o: %.o: %.c h.h ./%.h;cc\nall: y.o x.o",
            b"",
            b"all",
            b"all : y.o x.o\nx.o : x.c h.h x.h ;cc\ny.o : y.c h.h y.h ;cc\n",
        ),
    ];
    tells(&rt, rt.alloc(), ROWS)?;
    Ok(())
}
