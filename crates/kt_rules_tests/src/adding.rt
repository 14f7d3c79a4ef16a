//! Books of rules, a line each.
use crate::asking::{Question, add, add_lines, add_read, answers, put_answer, put_answer_to};
use crate::sameness::same;
use crate::telling::put_place;
use kt_rules::{Book, Place, RuleReader};
use std::alloc::{AllocError, Global};
use std::process::Abort;
use std::test::Fail;

#[test]
fn tells_of_refusals_and_second_recipes(rt: HostRuntime) -> Result<(), Fail> {
    answers(
        &rt,
        rt.alloc(),
        &[
            (b"a b &: c", Question::Messages, b"m:1 35 bad group"),
            (b"a:: x\na b &: c", Question::Messages, b"m:2 35 bad group"),
            (b"a b &: c;x\na: b", Question::Messages, b""),
            (
                b"a: b\na:: c",
                Question::Messages,
                b"m:2 24 single and double colon on a",
            ),
            (
                b"a:;x\nb::;y\na b &:;z",
                Question::Messages,
                b"m:3 24 single and double colon on b",
            ),
            (
                b"a:;\n.PHONY a:: b",
                Question::Messages,
                b"m:2 24 single and double colon on a",
            ),
            (
                b".PHONY: a\n.PHONY:: b\n%.o: b;x\n%.o:: b;x",
                Question::Messages,
                b"",
            ),
            (
                b"a:;x\nb a &:;y",
                Question::Messages,
                b"m:2 36 two recipes on a",
            ),
            (
                b"a b &: c;x\na: d;y",
                Question::Messages,
                b"m:2 36 two recipes on a",
            ),
            (b"a b &: c;x\na: d", Question::Messages, b""),
            (
                b"a: b;one\na: c;two",
                Question::Messages,
                b"m:2: warning: overriding recipe for target 'a'.",
            ),
            (
                b"a:;x\na:;y\na:;z",
                Question::Messages,
                b"m:2: warning: overriding recipe for target 'a'.m:3: warning: overriding recipe for target 'a'.",
            ),
            (
                b".c.o:;x\n.c.o:;",
                Question::Messages,
                b"m:2: warning: overriding recipe for target '.c.o'.",
            ),
            (
                b"a b c &:;x\nd:;y\nc d e:;z",
                Question::Messages,
                b"m:3 36 two recipes on c",
            ),
            (
                b"b:;x\na c:;y\na d b:;z",
                Question::Messages,
                b"m:3: warning: overriding recipe for target 'a'.m:3: warning: overriding recipe for target 'b'.",
            ),
            (b"a:;x\na: b", Question::Messages, b""),
            (b"a: b\na:;x", Question::Messages, b""),
            (b"a::;x\na::;y", Question::Messages, b""),
            (b".PHONY: a;x\n.PHONY: b;y", Question::Messages, b""),
            (b"%.o:;x\n%.o:;y", Question::Messages, b""),
        ],
    )?;
    Ok(())
}

/// What a book tells of two entries at these lines.
fn told_of_lines(
    alloc: Global,
    first: (&[u8], u64),
    next: (&[u8], u64),
) -> Result<Vec<u8>, AllocError> {
    let mut told = Vec::new(alloc);
    let mut book = Book::new(alloc)?;
    put_answer(&mut told, add(alloc, &mut book, first.0, first.1));
    put_answer(&mut told, add(alloc, &mut book, next.0, next.1));
    Ok(told)
}

#[test]
fn tells_of_any_line(rt: HostRuntime) -> Result<(), Fail> {
    let rows: &[((&[u8], u64), (&[u8], u64), &[u8])] = &[
        (
            (b"a: b", 65_535),
            (b"a:: c", 65_536),
            b"m:65536 24 single and double colon on a",
        ),
        ((b"a: b", 0), (b"a b &: c", 0), b"m:0 35 bad group"),
        (
            (b"a:;x", 4_294_967_295),
            (b"b a &:;y", 4_294_967_296),
            b"m:4294967296 36 two recipes on a",
        ),
        (
            (b"a:;x", 70_000),
            (b"a:;y", 70_001),
            b"m:70001: warning: overriding recipe for target 'a'.",
        ),
    ];
    for row in rows {
        let told = told_of_lines(rt.alloc(), row.0, row.1)?;
        same(&rt, (row.0, row.1), told.as_slice(), row.2);
    }
    Ok(())
}

#[test]
fn finds_explicit_rules(rt: HostRuntime) -> Result<(), Fail> {
    answers(
        &rt,
        rt.alloc(),
        &[
            (
                b"a: b;x\nc: d\na c: e",
                Question::Explicit(b"a"),
                b"m:1 a.m:3 a.",
            ),
            (b"a:: b\na:: c", Question::Explicit(b"a"), b"m:1 a.m:2 a."),
            (
                b"a b &: c;x\nb: d",
                Question::Explicit(b"b"),
                b"m:1 b.m:2 b.",
            ),
            (
                b"x.o y.o: %.o: %.c;x",
                Question::Explicit(b"y.o"),
                b"m:1 y.o.",
            ),
            (b".PHONY a: b", Question::Explicit(b"a"), b"m:1 a."),
            (b".PHONY: a", Question::Explicit(b".PHONY"), b""),
            (b"%.o: %.c;x", Question::Explicit(b"%.o"), b""),
            (b": a;x", Question::Explicit(b"a"), b""),
            (b"a:;x\na b &:;y", Question::Explicit(b"b"), b""),
            (
                b".c.o:;x\n.c.o: p;y\n.c.o:",
                Question::Explicit(b".c.o"),
                b"m:2 .c.o.m:3 .c.o.",
            ),
            (b".c:;x", Question::Explicit(b".c"), b""),
            (b".q.o:;x\n.SUFFIXES: .q", Question::Explicit(b".q.o"), b""),
            (
                b".c.o:;x\n.SUFFIXES:",
                Question::Explicit(b".c.o"),
                b"m:1 .c.o.",
            ),
            // Suffixes of several dots; the name without a recipe is no suffix rule, and hides none.
            (
                b".SUFFIXES: .a.b .c.d\n.a.b.c.d:\n.a.b.c.d:;x\n.a.b.c.d:;y",
                Question::Explicit(b".a.b.c.d"),
                b"m:2 .a.b.c.d.",
            ),
            (
                b".SUFFIXES: .a.b .c.d\n.a.b.q:;x",
                Question::Explicit(b".a.b.q"),
                b"m:2 .a.b.q.",
            ),
            (b".c.o: | p;x", Question::Explicit(b".c.o"), b"m:1 .c.o."),
            (b".c.o::;x", Question::Explicit(b".c.o"), b"m:1 .c.o."),
            (b".c.o .z &:;x", Question::Explicit(b".c.o"), b"m:1 .c.o."),
        ],
    )?;
    Ok(())
}

#[test]
fn walks_over_entries(rt: HostRuntime) -> Result<(), Fail> {
    answers(
        &rt,
        rt.alloc(),
        &[
            // A line without targets is an entry as well.
            (b": a", Question::Entries, b"m:1 ."),
            (
                b"a b: c;x\n%.o: %.c;y\na:: d\nb: e",
                Question::Entries,
                b"m:1 a* b* .m:2 %.o .m:4 b* .",
            ),
            (
                b".PHONY x: a\n.c.o:;x\n.c.o: p;y",
                Question::Entries,
                b"m:1 .PHONY x* .m:2 .c.o .m:3 .c.o* .",
            ),
            (
                b".q.o:;x\n.c.o:;y\n.SUFFIXES:\n.SUFFIXES: .q .o",
                Question::Entries,
                b"m:1 .q.o .m:2 .c.o* .m:3 .SUFFIXES .m:4 .SUFFIXES .",
            ),
        ],
    )?;
    Ok(())
}

#[test]
fn numbers_entries(rt: HostRuntime) -> Result<(), Fail> {
    let alloc = rt.alloc();
    let mut book = Book::new(alloc)?;
    add_lines(
        alloc,
        &mut book,
        b"a: b;x\nc d &: e;y\na: f\n.c.o:;z\n%.o: %.c;w\nd: g",
        &mut Vec::new(alloc),
    );
    let numbers = book.entry_numbers().expect(&rt, "memory");
    let rows: [(&[u8], &[usize]); 6] = [
        (b"a", &[0, 2]),
        (b"c", &[1]),
        (b"d", &[1, 5]),
        // A suffix rule, a pattern rule, and a name that no rule makes.
        (b".c.o", &[]),
        (b"%.o", &[]),
        (b"b", &[]),
    ];
    for (name, expected) in rows {
        same(&rt, name, numbers.noted(name), expected);
    }
    Ok(())
}

#[test]
fn finds_phony_names(rt: HostRuntime) -> Result<(), Fail> {
    answers(
        &rt,
        rt.alloc(),
        &[
            (b".PHONY: a b", Question::IsPhony(b"b"), b"yes"),
            (b".PHONY: | a", Question::IsPhony(b"a"), b"yes"),
            (b".PHONY:: a", Question::IsPhony(b"a"), b"yes"),
            (b".PHONY a: %: x%", Question::IsPhony(b"x.PHONY"), b"yes"),
            (b".PHONY a: %: x%", Question::IsPhony(b"xa"), b"no"),
            (b"x: a", Question::IsPhony(b"a"), b"no"),
            (b".PHONY: a", Question::IsPhony(b".PHONY"), b"no"),
        ],
    )?;
    Ok(())
}

#[test]
fn finds_known_names(rt: HostRuntime) -> Result<(), Fail> {
    answers(
        &rt,
        rt.alloc(),
        &[
            (b"a: b | c", Question::IsKnown(b"a"), b"yes"),
            (b"a: b | c", Question::IsKnown(b"b"), b"yes"),
            (b"a: b | c", Question::IsKnown(b"c"), b"yes"),
            (b"a: b | c", Question::IsKnown(b"d"), b"no"),
            (b".PHONY: p", Question::IsKnown(b"p"), b"yes"),
            (b"x.o: %.o: %.c h", Question::IsKnown(b"x.c"), b"yes"),
            (b"x.o: %.o: %.c h", Question::IsKnown(b"%.c"), b"no"),
            (b"%.o: %.c x", Question::IsKnown(b"x"), b"no"),
            (b".c.o:;cc", Question::IsKnown(b".c.o"), b"no"),
        ],
    )?;
    Ok(())
}

#[test]
fn lists_suffixes(rt: HostRuntime) -> Result<(), Fail> {
    answers(
        &rt,
        rt.alloc(),
        &[
            (b"a:", Question::Suffixes, b".o.c.cc.cpp.s.S.y.l.h.sh.a.f"),
            (
                b".SUFFIXES: .x .c .y",
                Question::Suffixes,
                b".o.c.cc.cpp.s.S.y.l.h.sh.a.f.x",
            ),
            (
                b".SUFFIXES: .c | .x",
                Question::Suffixes,
                b".o.c.cc.cpp.s.S.y.l.h.sh.a.f.x",
            ),
            (
                b".SUFFIXES:\n.SUFFIXES: .b .a .b",
                Question::Suffixes,
                b".b.a",
            ),
        ],
    )?;
    Ok(())
}

#[test]
fn finds_first_goals(rt: HostRuntime) -> Result<(), Fail> {
    answers(
        &rt,
        rt.alloc(),
        &[
            (b"a b:", Question::Goal, b"a"),
            (b".c.o:;x\n%.z:;y\nb::;z", Question::Goal, b"b"),
            (b".x: y\n./.x .z/a: b", Question::Goal, b".z/a"),
            (b"x.o: %.o: %.c;x", Question::Goal, b"x.o"),
            (b".SUFFIXES:\n.c.o:;x", Question::Goal, b"none"),
            (b".PHONY: a", Question::Goal, b"none"),
            (b"", Question::Goal, b"none"),
        ],
    )?;
    Ok(())
}

/// The place of the first pattern rule, which stays when the list is gone.
fn first_place(book: &Book) -> Result<Option<&Place>, AllocError> {
    let patterns = book.patterns()?;
    match patterns.as_slice().first() {
        Some(pattern) => Ok(Some(pattern.place())),
        None => Ok(None),
    }
}

#[test]
fn lends_places_of_pattern_rules(rt: HostRuntime) -> Result<(), Fail> {
    let alloc = rt.alloc();
    let mut told = Vec::new(alloc);
    let mut book = Book::new(alloc)?;
    assert!(rt; takes(alloc, &mut book, b".c.o:;cc", 3));
    if let Some(place) = first_place(&book).expect(&rt, "memory") {
        put_place(&mut told, place);
    }
    assert_eq!(rt; told.as_slice(), b"m:3 ".as_slice());
    Ok(())
}

/// What a book answers before and after a rule that changes every answer.
fn answers_as(
    rt: &impl Abort,
    alloc: Global,
    book: &Book,
    is_taken: bool,
    rows: &[(Question, &[u8], &[u8])],
) {
    let mut told = Vec::new(alloc);
    for row in rows {
        told.clear();
        put_answer_to(alloc, &mut told, book, row.0);
        let answer = if is_taken { row.2 } else { row.1 };
        assert_eq!(rt; told.as_slice(), answer);
    }
}

/// Of the rules `.x.o:;cc` and, where it was taken, `b .PHONY .SUFFIXES: .x`.
fn answers_by(rt: &impl Abort, alloc: Global, book: &Book, is_taken: bool) {
    answers_as(
        rt,
        alloc,
        book,
        is_taken,
        &[
            (Question::Explicit(b".x.o"), b"m:1 .x.o.", b""),
            (Question::Explicit(b"b"), b"", b"m:2 b."),
            (Question::IsPhony(b".x"), b"no", b"yes"),
            (
                Question::Suffixes,
                b".o.c.cc.cpp.s.S.y.l.h.sh.a.f",
                b".o.c.cc.cpp.s.S.y.l.h.sh.a.f.x",
            ),
            (Question::Goal, b"none", b"b"),
            (Question::Patterns, b"", b"m:1 %.o : %.x,|cc."),
        ],
    );
}

/// Whether a book takes the rule of a line.
fn takes(alloc: Global, book: &mut Book, line: &[u8], number: u64) -> bool {
    add(alloc, book, line, number).is_ok()
}

/// Where `rt try --test --fail-alloc` refuses memory to the second rule, no answer has changed.
#[test]
fn answers_by_what_it_took(rt: HostRuntime) -> Result<(), Fail> {
    let alloc = rt.alloc();
    let mut book = Book::new(alloc)?;
    assert!(rt; takes(alloc, &mut book, b".x.o:;cc", 1));
    let is_taken = takes(alloc, &mut book, b"b .PHONY .SUFFIXES: .x", 2);
    answers_by(&rt, alloc, &book, is_taken);
    Ok(())
}

#[test]
fn stays_as_it_was_where_it_refuses(rt: HostRuntime) -> Result<(), Fail> {
    let alloc = rt.alloc();
    let mut book = Book::new(alloc)?;
    assert!(rt; takes(alloc, &mut book, b".x.o:;cc", 1));
    assert!(rt; !takes(alloc, &mut book, b"b .x.o .PHONY .SUFFIXES:: .x;y", 2));
    answers_by(&rt, alloc, &book, false);
    Ok(())
}

/// Whether a book takes the rule of a line that a reader reads, before it is finished.
fn takes_last(alloc: Global, book: &mut Book, reader: &mut RuleReader, head: &[u8]) -> bool {
    let is_taken = add_read(alloc, book, reader, head, None).is_ok();
    book.finish_adding();
    is_taken
}

/// The second rule needs the names that the first one left.
#[test]
fn takes_more_after_it_was_finished(rt: HostRuntime) -> Result<(), Fail> {
    let alloc = rt.alloc();
    let mut book = Book::new(alloc)?;
    let mut reader = RuleReader::new(alloc);
    let heads: [&[u8]; 2] = [
        b"a: include/of_thirty_two_letters.h1 | include/of_thirty_two_letters.h2",
        b"b: include/of_thirty_two_letters.h1 | include/of_thirty_two_letters.h2",
    ];
    for head in heads {
        assert!(rt; takes_last(alloc, &mut book, &mut reader, head));
    }
    answers_as(
        &rt,
        alloc,
        &book,
        true,
        &[
            (Question::Entries, b"", b"m:1 a* .m:1 b* ."),
            (Question::Numbers(b"a"), b"", b"1|2."),
            (Question::Numbers(b"b"), b"", b"1|2."),
        ],
    );
    Ok(())
}
