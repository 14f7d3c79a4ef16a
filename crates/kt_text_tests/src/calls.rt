//! Worked values of each call, by the manuals and by GNU make.
use crate::sameness::same;
use kt_text::functions::TextFunction;
use kt_text::{
    Line, LineFault, LineMark, TextFault, condensed, front_number, functions, has_percent,
    is_blank, is_continued, is_separator, joined, line_content, line_marks, logical_lines,
    match_pattern, push_with_stem, stripped, stripped_start, trailing_separators, trim_end,
    trim_start, words,
};
use std::process::Abort;
use std::test::Fail;

#[test]
fn words_are_runs(rt: HostRuntime) -> Result<(), Fail> {
    let mut found = words(b" a\tbc\n\nd ");
    assert_eq!(rt; found.next().ok_or("a")?, b"a".as_slice());
    assert_eq!(rt; found.next().ok_or("bc")?, b"bc".as_slice());
    assert_eq!(rt; found.next().ok_or("d")?, b"d".as_slice());
    assert_eq!(rt; found.next().is_none(), true);
    Ok(())
}

#[test]
fn first_bytes_make_a_number(rt: HostRuntime) {
    let rows: [(&[u8], u64); 3] = [
        (b"", 0),
        (b"\x01\x02", 0x0102_0000_0000_0000),
        (b"abcdefghij", 0x6162_6364_6566_6768),
    ];
    for (text, wanted) in rows {
        same(&rt, text, front_number(text), wanted);
    }
}

#[test]
fn patterns_match(rt: HostRuntime) {
    let rows: [(&[u8], &[u8], Option<(usize, usize)>); 7] = [
        (b"%.c", b".c", Some((0, 0))),
        (b"%.c", b"x.c", Some((0, 1))),
        (b"lib%.a", b"libm.a", Some((3, 4))),
        (b"a%b%c", b"axb%c", Some((1, 2))),
        (b"ab%bc", b"abc", None),
        (b"%.c", b"x.o", None),
        (b"a", b"a", None),
    ];
    for (pattern, word, wanted) in rows {
        let stem = match_pattern(pattern, word).map(|stem| (stem.start, stem.end));
        same(&rt, (pattern, word), stem, wanted);
    }
}

#[test]
fn text_functions_are_found_by_name(rt: HostRuntime) {
    let rows: [(&[u8], Option<(TextFunction, usize)>); 5] = [
        (b"subst", Some((TextFunction::Subst, 3))),
        (b"filter-out", Some((TextFunction::FilterOut, 2))),
        (b"join", Some((TextFunction::Join, 2))),
        (b"filter_out", None),
        (b"", None),
    ];
    for (name, wanted) in rows {
        let found = TextFunction::named(name);
        same(
            &rt,
            name,
            found.map(|function| (function, function.arity())),
            wanted,
        );
        if let Some(function) = found {
            assert_eq!(rt; function.name(), name);
        }
    }
}

#[test]
fn text_functions_are_applied(rt: HostRuntime) -> Result<(), Fail> {
    let alloc = rt.alloc();
    let rows: [(TextFunction, &[u8]); 4] = [
        (TextFunction::Subst, b"bb,b"),
        (TextFunction::Filter, b""),
        (TextFunction::Addprefix, b"ab"),
        (TextFunction::Strip, b"a"),
    ];
    for (function, wanted) in rows {
        let result = function.apply(alloc, b"a", b"b", b"ba,b")?;
        same(&rt, function, result.as_slice(), wanted);
    }
    assert_eq!(rt;
        TextFunction::Word.apply(alloc, b"a", b"b", b"").is_err(),
        true
    );
    Ok(())
}

#[test]
fn stems_are_put_in(rt: HostRuntime) -> Result<(), Fail> {
    let rows: [(&[u8], bool, &[u8]); 4] = [
        (b"%.c", true, b"d/x.c"),
        (b"lib%.%", true, b"d/libx.%"),
        (b"%", true, b"d/x"),
        (b"y.c", false, b"d/y.c"),
    ];
    for (pattern, is_pattern, wanted) in rows {
        let mut text = Vec::from_slice(rt.alloc(), b"d/")?;
        push_with_stem(&mut text, pattern, b"x")?;
        same(&rt, pattern, text.as_slice(), wanted);
        same(&rt, pattern, has_percent(pattern), is_pattern);
    }
    Ok(())
}

#[test]
fn blanks_are_trimmed(rt: HostRuntime) {
    assert_eq!(rt; trim_start(b"\t a \n "), b"a \n ".as_slice());
    assert_eq!(rt; trim_end(b" \n a\t "), b" \n a".as_slice());
}

#[test]
fn separators_are_stripped(rt: HostRuntime) {
    assert_eq!(rt; stripped(b"\t\n a b \n"), b"a b".as_slice());
    assert_eq!(rt; stripped_start(b"\t\n a b \n"), b"a b \n".as_slice());
    assert_eq!(rt; trailing_separators(b"\t\n a b \n"), 2);
    assert_eq!(rt; (is_separator(b'\n'), is_separator(b'\r')), (true, false));
    assert_eq!(rt; (is_blank(b'\t'), is_blank(b'\n')), (true, false));
}

#[test]
fn line_ends_are_cut_off(rt: HostRuntime) {
    assert_eq!(rt; line_content(b"a\r\n"), b"a".as_slice());
    assert_eq!(rt; line_content(b"a\r"), b"a\r".as_slice());
}

#[test]
fn odd_backslashes_continue(rt: HostRuntime) {
    assert_eq!(rt; is_continued(b"a\\\r\n"), true);
    assert_eq!(rt; is_continued(b"a\\\\\n"), false);
}

#[test]
fn lines_are_joined(rt: HostRuntime) -> Result<(), Fail> {
    // a text, and of its lines place, end, number and tab
    let rows: [(&[u8], &[(usize, usize, u64, bool)]); 10] = [
        (b"", &[]),
        (b"\n", &[(0, 0, 1, false)]),
        (b"a\\\nb\nc\n", &[(0, 4, 1, false), (5, 6, 3, false)]),
        (b"a\\\\\nb\n", &[(0, 3, 1, false), (4, 5, 2, false)]),
        (b"\tx\r\ny", &[(0, 2, 1, true), (4, 5, 2, false)]),
        (b"x\\\n", &[(0, 1, 1, false)]),
        (b"x\\\n\ny", &[(0, 3, 1, false), (4, 5, 3, false)]),
        (b"x\\\\\\", &[(0, 3, 1, false)]),
        (b"a\\\r\n b\r\n", &[(0, 6, 1, false)]),
        (b"x\\\r\r\ny\r", &[(0, 3, 1, false), (5, 7, 2, false)]),
    ];
    for (text, wanted) in rows {
        let lines = logical_lines(rt.alloc(), text)?;
        same(&rt, text, lines.len(), wanted.len());
        let marks = line_marks(rt.alloc(), text)?;
        same(&rt, text, marks.len(), wanted.len());
        for ((line, mark), (start, end, number, tab)) in lines.iter().zip(&marks).zip(wanted) {
            same(&rt, text, line.span.start, *start);
            same(&rt, text, line.span.end, *end);
            same(&rt, text, line.number, *number);
            same(&rt, text, line.tab, *tab);
            same(&rt, text, mark.line() == *line, true);
        }
    }
    Ok(())
}

#[test]
fn marks_hold_lines(rt: HostRuntime) -> Result<(), Fail> {
    let last = Line {
        span: 4_294_967_290..4_294_967_295,
        number: 4_294_967_295,
        tab: true,
    };
    assert!(rt; LineMark::of(&last)?.line() == last);
    for (end, number) in [(4_294_967_296, 1), (1, 4_294_967_296)] {
        let beyond = Line {
            span: 0..end,
            number,
            tab: false,
        };
        same(&rt, (number, end), LineMark::of(&beyond).is_err(), true);
    }
    Ok(())
}

#[test]
fn a_nul_has_its_line(rt: HostRuntime) {
    let rows: [(&[u8], u64); 3] = [(b"\0", 1), (b"a\n\0", 2), (b"a \\\nb\0\n\0", 2)];
    for (text, wanted) in rows {
        match logical_lines(rt.alloc(), text) {
            Err(LineFault::Nul(number)) => same(&rt, text, number, wanted),
            _ => assert!(rt; false, "{text:?} has lines"),
        }
    }
}

#[test]
fn continuations_are_condensed(rt: HostRuntime) -> Result<(), Fail> {
    let rows: [(&[u8], &[u8]); 15] = [
        (b"x \\\n\\\ny", b"x y"),
        (b"a \\\n \t b", b"a b"),
        (b"a\\\nb\n", b"a b\n"),
        (b"a \\\n \\\n \\\nb\\\n  c", b"a b c"),
        (b"a\\\\\nb", b"a\\\\\nb"),
        (b"a\\\\\\\nb", b"a\\\\ b"),
        (b"a\\\r\n b\r\nc\r", b"a b\nc\r"),
        (b"x\\\n", b"x "),
        (b"x \\\n\\\n", b"x "),
        (b"x\\\r\n", b"x "),
        (b"x\\\\\n", b"x\\\\\n"),
        (b"x\\", b"x\\"),
        (b"\\\ny", b" y"),
        (b"x\\\n ", b"x "),
        (b"", b""),
    ];
    for (text, wanted) in rows {
        same(&rt, text, condensed(rt.alloc(), text)?.as_slice(), wanted);
    }
    Ok(())
}

#[test]
fn lines_are_joined_to_one(rt: HostRuntime) -> Result<(), Fail> {
    let rows: [(&[u8], &[u8]); 5] = [
        (b"a b", b"a b"),
        (b"a\\", b"a\\"),
        (b"a\r", b"a\r"),
        (b"a$ \\\n \\\r\n\tb", b"a$ b"),
        (b"", b""),
    ];
    for (line, wanted) in rows {
        let found = joined(rt.alloc(), line)?;
        same(&rt, line, found.as_slice(), wanted);
    }
    Ok(())
}

#[test]
fn long_lines_are_condensed(rt: HostRuntime) -> Result<(), Fail> {
    let mut text = Vec::new(rt.alloc());
    for _ in 0..5_000 {
        text.extend_from_slice(b"y \\\n\t")?;
    }
    let found = condensed(rt.alloc(), &text)?;
    assert_eq!(rt; found.len(), 10_000);
    assert_eq!(rt; found.starts_with(b"y y "), true);
    Ok(())
}

#[test]
fn late_lines_have_great_numbers(rt: HostRuntime) -> Result<(), Fail> {
    let mut text = Vec::new(rt.alloc());
    for _ in 0..70_000 {
        text.push(b'\n')?;
    }
    text.push(b'x')?;
    let lines = logical_lines(rt.alloc(), &text)?;
    let last = lines.last().ok_or("a line")?;
    assert_eq!(rt; last.number, 70_001);
    assert_eq!(rt; last.span.start, 70_000);
    Ok(())
}

fn assert_text(rt: &impl Abort, answer: Result<Vec<u8>, TextFault>, wanted: &[u8]) {
    match answer {
        Ok(text) => same(rt, wanted, text.as_slice(), wanted),
        Err(_) => assert!(rt; false, "refused"),
    }
}

fn assert_refused(rt: &impl Abort, answer: Result<Vec<u8>, TextFault>) {
    match answer {
        Err(fault) => assert!(rt; fault == TextFault::BadArgument),
        Ok(_) => assert!(rt; false, "taken"),
    }
}

#[test]
fn text_is_replaced(rt: HostRuntime) {
    let rows: [(&[u8], &[u8], &[u8], &[u8]); 4] = [
        (b"ee", b"EE", b"feet on the street", b"fEEt on the strEEt"),
        (b"", b"x", b"ab", b"abx"),
        (b"aa", b"b", b"aaaa a", b"bb a"),
        (b" ", b",", b"a b", b"a,b"),
    ];
    for (from, to, text, wanted) in rows {
        assert_text(&rt, functions::subst(rt.alloc(), from, to, text), wanted);
    }
}

#[test]
fn words_are_replaced(rt: HostRuntime) {
    let rows: [(&[u8], &[u8], &[u8], &[u8]); 9] = [
        (b"%.c", b"%.o", b"x.c.c bar.c", b"x.c.o bar.o"),
        (b"%.c", b"%.o", b"a.c b", b"a.o b"),
        (b"%", b"%%", b"a b", b"a% b%"),
        (b"a", b"%", b"a b", b"% b"),
        (b"a ", b"x", b"a", b"a"),
        (b"%", b"", b"a b", b""),
        (b"a%", b"", b"ab c", b"c"),
        (b"a%c", b"x", b"abc ac", b"x x"),
        (b"a%a", b"x", b"a aa", b"a x"),
    ];
    for (pattern, replacement, text, wanted) in rows {
        assert_text(
            &rt,
            functions::patsubst(rt.alloc(), pattern, replacement, text),
            wanted,
        );
    }
}

#[test]
fn quoted_percents_are_refused(rt: HostRuntime) {
    assert_refused(&rt, functions::patsubst(rt.alloc(), b"a\\%", b"x", b"a"));
    assert_refused(&rt, functions::patsubst(rt.alloc(), b"a", b"\\%", b"a"));
    assert_refused(&rt, functions::filter(rt.alloc(), b"x a\\%", b"a"));
    assert_refused(&rt, functions::filter_out(rt.alloc(), b"\\%", b"a"));
}

#[test]
fn words_are_selected(rt: HostRuntime) {
    // patterns, text, what filter and what filter-out gives
    let rows: [(&[u8], &[u8], &[u8], &[u8]); 4] = [
        (
            b"%.c %.s",
            b"foo.c bar.c baz.s ugh.h",
            b"foo.c bar.c baz.s",
            b"ugh.h",
        ),
        (
            b"main1.o main2.o",
            b"main1.o foo.o main2.o bar.o",
            b"main1.o main2.o",
            b"foo.o bar.o",
        ),
        (b"a b%", b"a b c a", b"a b a", b"c"),
        (b"", b"a b", b"", b"a b"),
    ];
    for (patterns, text, wanted, others) in rows {
        assert_text(&rt, functions::filter(rt.alloc(), patterns, text), wanted);
        assert_text(
            &rt,
            functions::filter_out(rt.alloc(), patterns, text),
            others,
        );
    }
}

#[test]
fn needles_are_found(rt: HostRuntime) {
    assert_text(&rt, functions::findstring(rt.alloc(), b"a", b"a b c"), b"a");
    assert_text(&rt, functions::findstring(rt.alloc(), b"a", b"b c"), b"");
}

#[test]
fn lists_are_read(rt: HostRuntime) {
    // a list, the list stripped, sorted, counted, its first word and its last
    let rows: [(&[u8], &[u8], &[u8], &[u8], &[u8], &[u8]); 4] = [
        (b" a\t b\n", b"a b", b"a b", b"2", b"a", b"b"),
        (
            b"foo bar lose",
            b"foo bar lose",
            b"bar foo lose",
            b"3",
            b"foo",
            b"lose",
        ),
        (b"b a b", b"b a b", b"a b", b"3", b"b", b"b"),
        (b" ", b"", b"", b"0", b"", b""),
    ];
    for (text, stripped, sorted, count, first, last) in rows {
        assert_text(&rt, functions::strip(rt.alloc(), text), stripped);
        assert_text(&rt, functions::sort(rt.alloc(), text), sorted);
        assert_text(&rt, functions::words(rt.alloc(), text), count);
        assert_text(&rt, functions::firstword(rt.alloc(), text), first);
        assert_text(&rt, functions::lastword(rt.alloc(), text), last);
    }
}

#[test]
fn words_are_sorted(rt: HostRuntime) {
    let rows: [(&[u8], &[u8]); 4] = [
        (b"aa a A a.c a", b"A a a.c aa"),
        (
            b"abcdefghj abcdefghi abcdefgh abcdefghi abcdefg",
            b"abcdefg abcdefgh abcdefghi abcdefghj",
        ),
        (b"\xc3\xa9 z", b"z \xc3\xa9"),
        (b"a\0 a", b"a a\0"),
    ];
    for (text, wanted) in rows {
        assert_text(&rt, functions::sort(rt.alloc(), text), wanted);
    }
}

#[test]
fn words_are_numbered(rt: HostRuntime) {
    let rows: [(&[u8], &[u8], &[u8]); 4] = [
        (b"2", b"foo bar baz", b"bar"),
        (b" 1\t", b"a b", b"a"),
        (b"3", b"a b", b""),
        (b"000000000000000002", b"a b", b"b"),
    ];
    for (n, text, wanted) in rows {
        assert_text(&rt, functions::word(rt.alloc(), n, text), wanted);
    }
}

#[test]
fn ranges_are_numbered(rt: HostRuntime) {
    let rows: [(&[u8], &[u8], &[u8], &[u8]); 5] = [
        (b"2", b"3", b"foo bar baz", b"bar baz"),
        (b"2", b"9", b"a b c", b"b c"),
        (b"3", b"2", b"a b c", b""),
        (b"1", b"0", b"a b", b""),
        (b"4", b"9", b"a b c", b""),
    ];
    for (s, e, text, wanted) in rows {
        assert_text(&rt, functions::wordlist(rt.alloc(), s, e, text), wanted);
    }
}

#[test]
fn bad_numbers_are_refused(rt: HostRuntime) {
    let numbers: [&[u8]; 7] = [
        b"0",
        b"",
        b"x",
        b"1\n",
        b"-1",
        b"1 1",
        b"1000000000000000000",
    ];
    for n in numbers {
        assert_refused(&rt, functions::word(rt.alloc(), n, b"a"));
        assert_refused(&rt, functions::wordlist(rt.alloc(), n, b"1", b"a"));
    }
    assert_refused(&rt, functions::wordlist(rt.alloc(), b"1", b"x", b"a"));
}

#[test]
fn names_are_taken_apart(rt: HostRuntime) {
    let rows: [(&[u8], &[u8], &[u8], &[u8], &[u8]); 5] = [
        (
            b"src/foo.c hacks",
            b"src/ ./",
            b"foo.c hacks",
            b".c",
            b"src/foo hacks",
        ),
        (b"a/b.c d.e/f", b"a/ d.e/", b"b.c f", b".c", b"a/b d.e/f"),
        (
            b"s/foo.c s-1.0/bar",
            b"s/ s-1.0/",
            b"foo.c bar",
            b".c",
            b"s/foo s-1.0/bar",
        ),
        (b"/ .c a/", b"/ ./ a/", b".c", b".c", b"/ a/"),
        (b"x.tar.gz", b"./", b"x.tar.gz", b".gz", b"x.tar"),
    ];
    for (names, dirs, files, suffixes, bases) in rows {
        assert_text(&rt, functions::dir(rt.alloc(), names), dirs);
        assert_text(&rt, functions::notdir(rt.alloc(), names), files);
        assert_text(&rt, functions::suffix(rt.alloc(), names), suffixes);
        assert_text(&rt, functions::basename(rt.alloc(), names), bases);
    }
}

#[test]
fn names_are_put_together(rt: HostRuntime) {
    assert_text(
        &rt,
        functions::addsuffix(rt.alloc(), b".c", b"foo bar"),
        b"foo.c bar.c",
    );
    assert_text(
        &rt,
        functions::addprefix(rt.alloc(), b"src/", b"foo bar"),
        b"src/foo src/bar",
    );
    let rows: [(&[u8], &[u8], &[u8]); 3] = [
        (b"a b", b".c .o", b"a.c b.o"),
        (b"a b", b"1 2 3", b"a1 b2 3"),
        (b"a b c", b"1", b"a1 b c"),
    ];
    for (first, second, wanted) in rows {
        assert_text(&rt, functions::join(rt.alloc(), first, second), wanted);
    }
}
