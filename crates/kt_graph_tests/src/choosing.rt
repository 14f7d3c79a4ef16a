//! The search by itself.
use crate::reading::takes_all;
use crate::sameness::same;
use crate::telling::put_digit;
use kt_graph::{Choice, Known, Search};
use kt_rules::Book;
use kt_testing::put;
use std::alloc::{AllocError, Global};
use std::process::Abort;
use std::test::Fail;

fn put_choice(told: &mut Vec<u8>, choice: &Choice) {
    match choice {
        Some(chosen) => {
            put_digit(told, chosen.rule);
            put(told, b" ");
            put(told, chosen.directory.as_slice());
            put(told, b",");
            put(told, chosen.stem.as_slice());
        }
        None => put(told, b"none"),
    }
}

/// The questions: a name and the numbers of the rules in the chain.
fn put_tried(told: &mut Vec<u8>, search: &Search) {
    for question in search.tried() {
        put(told, question.name.as_slice());
        put(told, b"{");
        for rule in &question.used {
            put_digit(told, *rule);
        }
        put(told, b"} ");
    }
}

/// What is chosen for names in turn, each with the number of questions so far, and at the end these.
fn put_choices(
    told: &mut Vec<u8>,
    search: &mut Search,
    asked: &[u8],
    tells_tried: bool,
) -> Result<(), AllocError> {
    for name in asked.split(|byte| *byte == b' ') {
        let choice = search.choose(name)?;
        put_choice(told, &choice);
        put(told, b" ");
        put_digit(told, search.tried().len() / 10);
        put_digit(told, search.tried().len());
        put(told, b";");
    }
    if tells_tried {
        put_tried(told, search);
    }
    Ok(())
}

/// Rules, list of files, names, and what is reported.
type Row<'a> = (&'a [u8], &'a [u8], &'a [u8], &'a [u8]);

fn put_told(
    told: &mut Vec<u8>,
    alloc: Global,
    row: Row,
    tells_tried: bool,
) -> Result<(), AllocError> {
    let mut book = Book::new(alloc)?;
    if takes_all(alloc, &mut book, row.0) {
        put_by_book(told, alloc, &book, row, tells_tried)
    } else {
        put(told, b"no book");
        Ok(())
    }
}

fn put_by_book(
    told: &mut Vec<u8>,
    alloc: Global,
    book: &Book,
    row: Row,
    tells_tried: bool,
) -> Result<(), AllocError> {
    let known = Known::of(alloc, book, row.1)?;
    put_by_search(told, Search::new(alloc, book, &known)?, row.2, tells_tried)
}

fn put_by_search(
    told: &mut Vec<u8>,
    mut search: Search,
    asked: &[u8],
    tells_tried: bool,
) -> Result<(), AllocError> {
    put_choices(told, &mut search, asked, tells_tried)
}

fn tells(
    rt: &impl Abort,
    alloc: Global,
    rows: &[Row],
    tells_tried: bool,
) -> Result<(), AllocError> {
    let mut told = Vec::new(alloc);
    for row in rows {
        told.clear();
        put_told(&mut told, alloc, *row, tells_tried)?;
        same(rt, row.0, told.as_slice(), row.3);
    }
    Ok(())
}

const NINE: &[u8] =
    b"%.1: %.0;c\n%.2: %.1;c\n%.3: %.2;c\n%.4: %.3;c\n%.5: %.4;c\n%.6: %.5;c\n%.7: %.6;c\n%.8: %.7;c\n%.9: %.8;c";

#[test]
fn chains_have_eight_rules(rt: HostRuntime) -> Result<(), Fail> {
    const ROWS: &[Row] = &[
        (NINE, b"x.0", b"x.9 x.9 x.8", b"none 09;none 09;7 ,x 17;"),
        (NINE, b"x.0", b"x.8 x.8", b"7 ,x 08;7 ,x 08;"),
    ];
    tells(&rt, rt.alloc(), ROWS, false)?;
    Ok(())
}

#[test]
fn questions(rt: HostRuntime) -> Result<(), Fail> {
    const ROWS: &[Row] = &[
        // What is known asks nothing more.
        (b"%.o: %.c;x", b"x.c", b"x.o", b"0 ,x 01;x.o{} "),
        (b"%.o: %.c;x", b"", b"x.o", b"none 02;x.o{} x.c{0} "),
        // All candidates are looked at for one with known needs before any asks.
        (
            b"%.o: %.p;x\n%.o: %.c;y",
            b"x.c",
            b"d/x.o x.o",
            b"none 03;1 ,x 04;d/x.o{} d/x.p{0} d/x.c{1} x.o{} ",
        ),
        // No question after one without an answer; order-only ones come last; each once.
        (
            b"%.o: %.b %.a %.b | %.c;x\n%.b: k;y",
            b"k",
            b"x.o",
            b"none 03;x.o{} x.b{0} x.a{0} ",
        ),
        // A terminal rule asks nothing.
        (b"%.o:: %.c;x", b"", b"x.o", b"none 01;x.o{} "),
        // The numbers of a chain rise.
        (
            b"%.c: %.y;x\n%.o: %.c;x",
            b"",
            b"x.o",
            b"none 03;x.o{} x.c{1} x.y{01} ",
        ),
    ];
    tells(&rt, rt.alloc(), ROWS, true)?;
    Ok(())
}

const ENDS: &[u8] = b"%:: any;x\n%.o: o;x\n%c.o: co;x\nlib%.o: lo;x";

/// The shortest stem first, and of equals the first rule (GNU make manual, "How Patterns Match"), where targets end
/// differently.
#[test]
fn ends_of_targets(rt: HostRuntime) -> Result<(), Fail> {
    const ROWS: &[Row] = &[
        (
            ENDS,
            b"any\no\nco\nlo",
            b"libabc.o abc.o x.o c.o lib.o ab d/libabc.o",
            b"3 ,abc 01;2 ,ab 02;1 ,x 03;1 ,c 04;1 ,lib 05;0 ,ab 06;3 d/,abc 07;",
        ),
        (ENDS, b"any\no\nco", b"libabc.o", b"2 ,libab 01;"),
        (ENDS, b"any\no", b"libabc.o", b"1 ,libabc 01;"),
        (ENDS, b"any", b"libabc.o", b"0 ,libabc.o 01;"),
        (b"%b.o: k;x\na%.o: k;x", b"k", b"axb.o", b"0 ,ax 01;"),
        (b"a%.o: k;x\n%b.o: k;x", b"k", b"axb.o", b"0 ,xb 01;"),
        (b"a%.o ab%.o: k;x", b"k", b"abc.o", b"0 ,c 01;"),
        (b"%/x.o: k;x", b"k", b"d/x.o", b"0 ,d 01;"),
    ];
    tells(&rt, rt.alloc(), ROWS, false)?;
    Ok(())
}

/// What is reported where a prerequisite of a given number of bytes stands after the rules.
fn put_with(told: &mut Vec<u8>, alloc: Global, rules: &[u8], len: usize) -> Result<(), AllocError> {
    let name = vec![in alloc; b'y'; len]?;
    put_with_name(told, alloc, rules, name.as_slice())
}

fn put_with_name(
    told: &mut Vec<u8>,
    alloc: Global,
    rules: &[u8],
    name: &[u8],
) -> Result<(), AllocError> {
    let mut text = Vec::new(alloc);
    put(&mut text, rules);
    put(&mut text, name);
    put(&mut text, b";x");
    put_told(told, alloc, (text.as_slice(), name, b"x.o", b""), false)
}

/// A prerequisite of a given number of bytes is no candidate's, or is.
#[test]
fn long_names(rt: HostRuntime) -> Result<(), Fail> {
    const ROWS: &[(&[u8], usize, &[u8])] = &[
        (b"%.o: ", 4096, b"0 ,x 01;"),
        (b"%.o: ", 4097, b"none 01;"),
        // A rule that is too long is no candidate, so that it drops no rule for any name.
        (b"%: x.c;y\nx.c:\n%.o: ", 4097, b"0 ,x.o 01;"),
    ];
    let mut told = Vec::new(rt.alloc());
    for row in ROWS {
        told.clear();
        put_with(&mut told, rt.alloc(), row.0, row.1)?;
        same(&rt, row.1, told.as_slice(), row.2);
    }
    Ok(())
}

/// The number of the rule that is chosen for the end of a chain of eight.
fn chosen_rule(search: &mut Search) -> Result<Option<usize>, AllocError> {
    match search.choose(b"x.8")? {
        Some(chosen) => Ok(Some(chosen.rule)),
        None => Ok(None),
    }
}

/// Where a call is refused, the search is as it was.
fn asks_twice(rt: &impl Abort, search: &mut Search) {
    let first = chosen_rule(search);
    assert_eq!(rt; search.tried().len(), if first.is_ok() { 8 } else { 0 });
    if let Ok(rule) = chosen_rule(search) {
        assert!(rt; rule == Some(7));
        assert_eq!(rt; search.tried().len(), 8);
    }
}

fn asks_of_chain(rt: &impl Abort, alloc: Global) -> Result<(), AllocError> {
    let mut book = Book::new(alloc)?;
    if takes_all(alloc, &mut book, NINE) {
        asks_of_book(rt, alloc, &book)
    } else {
        Ok(())
    }
}

fn asks_of_book(rt: &impl Abort, alloc: Global, book: &Book) -> Result<(), AllocError> {
    let known = Known::of(alloc, book, b"x.0")?;
    asks_of_search(rt, Search::new(alloc, book, &known)?);
    Ok(())
}

fn asks_of_search(rt: &impl Abort, mut search: Search) {
    asks_twice(rt, &mut search);
}

/// A search that was refused memory is as it was, and answers the same when it is asked again. This passes whether a
/// call is refused or not.
#[test]
fn asks_again_after_a_refusal(rt: HostRuntime) {
    let _refused = asks_of_chain(&rt, rt.alloc());
}
