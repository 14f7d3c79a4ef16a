//! Names of a book by their numbers.
use crate::asking::{Question, add_read, answers};
use crate::sameness::same;
use kt_rules::{Book, RuleReader};
use std::alloc::Global;
use std::test::Fail;

const LINES: [(&[u8], Option<&[u8]>); 9] = [
    (b"a b &: c", Some(b"x")),
    (b"d: c", None),
    (
        b"e: include/first-of-them.h include/second-of-them.h include/third.h",
        None,
    ),
    (
        b"f: include/first-of-them.h include/second-of-them.h include/third.h",
        None,
    ),
    (
        b"g: include/first-of-them.h include/second-of-them.h include/third.h",
        Some(b"x"),
    ),
    (
        b"h: include/first-of-them.h include/second-of-them.h include/other.h",
        None,
    ),
    (b"x.o y.o: %.o: %.c", None),
    (b"b: d", None),
    (
        b"i j: include/first-of-them.h include/second-of-them.h include/third.h",
        None,
    ),
];

// `NeededName::number_in` finds each number that there is.
#[test]
fn tells_numbers(rt: HostRuntime) -> Result<(), Fail> {
    answers(
        &rt,
        rt.alloc(),
        &[
            (b"a: b ./a c | d", Question::Numbers(b"a"), b"102|3."),
            (
                b"a b: c\nc: b\nb: d a | c",
                Question::Numbers(b"b"),
                b"2|.30|2.",
            ),
            (
                b"x.o: %.o: %.c h ./h | ./%.h d",
                Question::Numbers(b"x.o"),
                b"-22|-4.",
            ),
        ],
    )?;
    Ok(())
}

// The names of the book are `a`, `b`, `c` and `d`, by these numbers from 0.
#[test]
fn finds_rules_by_number(rt: HostRuntime) -> Result<(), Fail> {
    let text = b"a: b;x\nb: c\na c: d";
    answers(
        &rt,
        rt.alloc(),
        &[
            (text, Question::ExplicitAt(b"a", 0), b"m:1 a.m:3 a."),
            (text, Question::ExplicitAt(b"b", 1), b"m:2 b."),
            (text, Question::ExplicitAt(b"c", 2), b"m:3 c."),
            (text, Question::ExplicitAt(b"d", 3), b""),
            // Numbers of other names.
            (text, Question::ExplicitAt(b"a", 1), b"m:1 a.m:3 a."),
            (text, Question::ExplicitAt(b"b", 3), b"m:2 b."),
            (text, Question::ExplicitAt(b"d", 0), b""),
            (text, Question::ExplicitAt(b"ab", 0), b""),
            // Numbers of no name.
            (text, Question::ExplicitAt(b"a", 4), b"m:1 a.m:3 a."),
            (
                text,
                Question::ExplicitAt(b"a", usize::MAX),
                b"m:1 a.m:3 a.",
            ),
            (text, Question::ExplicitAt(b"", 4), b""),
            // Suffix rules.
            (
                b".c.o:;x\n.c.o: p",
                Question::ExplicitAt(b".c.o", 0),
                b"m:2 .c.o.",
            ),
            (b".c.o:;x", Question::ExplicitAt(b".c.o", 0), b""),
        ],
    )?;
    Ok(())
}

// Whether a book takes the rules of all lines.
fn takes_all(alloc: Global, book: &mut Book) -> bool {
    let mut reader = RuleReader::new(alloc);
    for (head, recipe) in LINES {
        if add_read(alloc, book, &mut reader, head, recipe).is_err() {
            return false;
        }
    }
    true
}

#[test]
fn tells_what_is_made_alike(rt: HostRuntime) -> Result<(), Fail> {
    let alloc = rt.alloc();
    let rows: [(&[u8], &[u8], bool); 11] = [
        (b"a", b"a", true),
        // Another rule, for one of the two.
        (b"a", b"b", false),
        (b"b", b"a", false),
        // Of another line.
        (b"a", b"d", false),
        // Of the same long text, with a recipe, and of another long text.
        (b"e", b"f", true),
        (b"f", b"g", false),
        (b"f", b"h", false),
        (b"i", b"j", true),
        // Each has its own stem.
        (b"x.o", b"y.o", false),
        // Without rules.
        (b"c", b"c", true),
        (b"c", b"e", false),
    ];
    let mut book = Book::new(alloc)?;
    assert!(rt; takes_all(alloc, &mut book));
    for (name, other, expected) in rows {
        let alike = book.are_made_alike(name, 0, other, 0);
        same(&rt, (name, other), alike, expected);
    }
    Ok(())
}

// Whether a name is phony, of as many as are compared, and of more.
#[test]
fn tells_phony_names(rt: HostRuntime) -> Result<(), Fail> {
    let eight = b".PHONY: a b c d e f g h";
    let nine = b".PHONY: a b c d e f g h i";
    answers(
        &rt,
        rt.alloc(),
        &[
            (eight, Question::IsPhony(b"h"), b"yes"),
            (eight, Question::IsPhony(b"i"), b"no"),
            (eight, Question::IsPhony(b""), b"no"),
            (nine, Question::IsPhony(b"a"), b"yes"),
            (nine, Question::IsPhony(b"i"), b"yes"),
            (nine, Question::IsPhony(b"j"), b"no"),
        ],
    )?;
    Ok(())
}
