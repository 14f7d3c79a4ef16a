//! Rule lines by the GNU make manual and by the rows that kati is to read.
use crate::sameness::same;
use crate::telling::{put_fault, put_needs, put_place};
use kt_rules::{Entry, Kind, RuleFault, RuleReader, TargetView, dotless, without_dots};
use kt_rules_doubles::{place_of, rule_of, text_of};
use kt_testing::put;
use std::alloc::{AllocError, Global};
use std::process::Abort;
use std::test::Fail;

/// A target with its stem between square brackets, and what it needs between angle brackets.
fn put_target(alloc: Global, told: &mut Vec<u8>, entry: &Entry, target: TargetView) {
    put(told, b" ");
    put(told, target.name);
    if let Some(stem) = target.stem() {
        put(told, b"[");
        put(told, stem);
        put(told, b"]");
    }
    put(told, b"<");
    put_needs(alloc, told, entry.needs(target));
    put(told, b">");
}

fn kind_word(kind: Kind) -> &'static [u8] {
    match kind {
        Kind::SingleColon => b"one",
        Kind::DoubleColon => b"two",
        Kind::Group => b"all",
        Kind::Pattern => b"any",
        Kind::TerminalPattern => b"end",
    }
}

/// The kind of an entry and its targets.
fn put_entry(alloc: Global, told: &mut Vec<u8>, entry: &Entry) {
    put(told, kind_word(entry.kind()));
    for target in entry.targets() {
        put_target(alloc, told, entry, target);
    }
}

/// What `read_rule` tells of a head: the entry, or the fault as a line.
pub(crate) fn told(alloc: Global, head: &[u8]) -> Vec<u8> {
    told_of(alloc, rule_of(alloc, head, None, 7))
}

fn told_of(alloc: Global, read: Result<Entry, RuleFault>) -> Vec<u8> {
    let mut told = Vec::new(alloc);
    match read {
        Ok(entry) => put_entry(alloc, &mut told, &entry),
        Err(fault) => put_fault(&mut told, &fault),
    }
    told
}

/// What a reader tells of its next head.
fn told_next(alloc: Global, reader: &mut RuleReader, head: &[u8]) -> Vec<u8> {
    match place_of(alloc, 7) {
        Ok(place) => told_of(alloc, reader.read(head, None, place)),
        Err(_refused) => Vec::new(alloc),
    }
}

fn tells(rt: &impl Abort, alloc: Global, rows: &[(&[u8], &[u8])]) {
    for row in rows {
        let told = told(alloc, row.0);
        same(rt, row.0, told.as_slice(), row.1);
    }
}

#[test]
fn reads_rules(rt: HostRuntime) {
    tells(
        &rt,
        rt.alloc(),
        &[
            (b"a: b ", b"one a<b,|>"),
            (b"t: x | x y ", b"one t<x,|x,y,>"),
            (b"t: x|y", b"one t<x|y,|>"),
            (b"t: a ./| b", b"one t<a,|,b,|>"),
            (b"t: a | b | c", b"one t<a,|b,|,c,>"),
            (b"t | u: a", b"one t<a,|> |<a,|> u<a,|>"),
            (b".PHONY: | b", b"one .PHONY<|b,>"),
            (b"a\\ b: c\\:d ", b"one a b<c:d,|>"),
            (b"a\\\\:b: c", b"one a\\:b<c,|>"),
            (
                b"a\\\\\\:b\\\\\\ c: d\\\\\\:\\\\\\",
                b"one a\\\\:b\\\\ c<d\\\\:\\\\\\,|>",
            ),
            (b"./././///a////b:   c \t\n \t d", b"one a////b<c,d,|>"),
            (b"a: b\\\tc", b"one a<b\\,c,|>"),
            (
                b"all: ./x .//x ././/x .// a//b ./",
                b"one all<x,x,x,./,a//b,./,|>",
            ),
            (b"a ./a b a: c", b"one a<c,|> b<c,|>"),
            (b"t : a %.o | b", b"one t<a,%.o,|b,>"),
            (b"a: ; b", b"one a<;,b,|>"),
            (b"a: b # c", b"one a<b,#,c,|>"),
            (b"a:: b", b"two a<b,|>"),
            (b".PHONY a:: b", b"two .PHONY<b,|> a<b,|>"),
            (b"%.o: %.c | x", b"any %.o<%.c,|x,>"),
            (b"%.o ./%.o: %.c", b"any %.o<%.c,|>"),
            (b"%.h %.c:: ./%.y", b"end %.h<%.y,|> %.c<%.y,|>"),
        ],
    );
}

#[test]
fn reads_static_patterns_and_groups(rt: HostRuntime) {
    tells(
        &rt,
        rt.alloc(),
        &[
            (
                b"x.o y.o: %.o: %.c a | %.h",
                b"one x.o[x]<x.c,a,|x.h,> y.o[y]<y.c,a,|y.h,>",
            ),
            (b"x.c:: %: ", b"two x.c[x.c]<|>"),
            (b".c: %.c: ", b"one .c[]<|>"),
            (b".c.o: .c%: ", b"one .c.o[.o]<|>"),
            (
                b"a/x ./x: %x: ./%%/y %//z",
                b"one a/x[a/]<a/%/y,a///z,|> x[]<%/y,//z,|>",
            ),
            (b"./x: .%: b", b"m:7 21 bad static pattern x"),
            (b"x: %x: %./y", b"one x[]<y,|>"),
            (
                b".PHONY a: %: x%",
                b"one .PHONY[.PHONY]<x.PHONY,|> a[a]<xa,|>",
            ),
            (b"b.o a.o &: c ", b"all b.o<c,|> a.o<c,|>"),
            (b"a b&: c | d", b"all a<c,|d,> b<c,|d,>"),
            (b"a\\&: c", b"all a\\<c,|>"),
        ],
    );
}

#[test]
fn reads_lines_without_targets(rt: HostRuntime) {
    tells(
        &rt,
        rt.alloc(),
        &[
            (b"", b"one"),
            (b" \t\n", b"one"),
            (b": a ", b"one"),
            (b": *.c", b"one"),
            (b":: .WAIT", b"one"),
            (b"&: b", b"one"),
            (b": %.o : b", b"one"),
            (b": a : b : c", b"m:7 05 missing separator"),
            (b": a b: c", b"m:7 21 bad static pattern a b"),
            (b": *%: c", b"m:7 20 refused name *%"),
            (b"&:: b", b"m:7 35 bad group"),
        ],
    );
}

#[test]
fn refuses_lines_in_order(rt: HostRuntime) {
    tells(
        &rt,
        rt.alloc(),
        &[
            (b"a", b"m:7 05 missing separator"),
            (b"a\\:b", b"m:7 05 missing separator"),
            (b"a: b: %: c: d", b"m:7 05 missing separator"),
            (b"a ::: b", b"m:7 21 bad static pattern "),
            (b"a.o: %.o  %.x: b", b"m:7 21 bad static pattern %.o  %.x"),
            // A quoted space at the end belongs to the name.
            (b"a: b\\  : c", b"m:7 21 bad static pattern b\\ "),
            (b"a: b\\\\\\   : c", b"m:7 21 bad static pattern b\\\\\\ "),
            (b"\na: b\nc: d", b"m:7 21 bad static pattern b\nc"),
            (b"a: b: *", b"m:7 21 bad static pattern b"),
            (b"a: *.c", b"m:7 20 refused name *.c"),
            (b"./~x: ", b"m:7 20 refused name ~x"),
            (b"a: b? l(m) d", b"m:7 20 refused name b?"),
            (b"a: (m) l(m)", b"m:7 20 refused name l(m)"),
            (b"a: %: \\% c", b"m:7 20 refused name \\%"),
            (b"a*: [%: c", b"m:7 20 refused name a*"),
            (b"a: x[% : *", b"m:7 20 refused name x[%"),
            (b"a % *: c", b"m:7 20 refused name *"),
            (b"a %: .WAIT", b"m:7 05 missing separator"),
            (b"a%: %: c", b"m:7 05 missing separator"),
            (b".DEFAULT %.o: x", b"m:7 05 missing separator"),
            (b".DEFAULT .PHONY &: x ", b"m:7 35 bad group"),
            (b".PHONY a &: b", b"m:7 35 bad group"),
            (b"%.a %.b &: c", b"m:7 35 bad group"),
            (b"a b &:: c", b"m:7 35 bad group"),
            (b"a b &: c : d : e", b"m:7 35 bad group"),
            (b".DEFAULT a &: b", b"m:7 22 refused target .DEFAULT"),
            (b"x .IGNORE: %.o: %.c", b"m:7 21 bad static pattern x"),
            (b".IGNORE x: %.o: %.c", b"m:7 22 refused target .IGNORE"),
            (b"x: %.o: .WAIT", b"m:7 21 bad static pattern x"),
            (b"a: b ./.WAIT", b"m:7 22 refused target .WAIT"),
            (b".WAIT: b", b"m:7 22 refused target .WAIT"),
            (
                b".POSIX .SILENT: * .WAIT",
                b"one .POSIX<*,.WAIT,|> .SILENT<*,.WAIT,|>",
            ),
            (b".POSIX a: *", b"m:7 20 refused name *"),
            (b".PHONY: *", b"m:7 20 refused name *"),
        ],
    );
}

/// So many letters as no name of the other rows has.
const LONG: [u8; 300] = [b'x'; 300];

/// A text with the long word for each `@`.
fn lengthened(alloc: Global, text: &[u8]) -> Vec<u8> {
    let mut long = Vec::new(alloc);
    for byte in text {
        match *byte {
            b'@' => put(&mut long, &LONG),
            other => put(&mut long, &[other]),
        }
    }
    long
}

#[test]
fn reads_long_words(rt: HostRuntime) {
    let rows: &[(&[u8], &[u8])] = &[
        (b"@: @.c | @", b"one @<@.c,|@,>"),
        (b"./@: ././@", b"one @<@,|>"),
        (b"@\\ @: a", b"one @ @<a,|>"),
        (b"%@: @%", b"any %@<@%,|>"),
        (b"@.o: %.o: %.c", b"one @.o[@]<@.c,|>"),
        (b"@", b"m:7 05 missing separator"),
        (b"a: *@", b"m:7 20 refused name *@"),
        (b"a: @: b", b"m:7 21 bad static pattern @"),
        (b"@: y%: z", b"m:7 21 bad static pattern @"),
    ];
    let alloc = rt.alloc();
    for row in rows {
        let told = told(alloc, lengthened(alloc, row.0).as_slice());
        let expected = lengthened(alloc, row.1);
        same(&rt, row.0, told.as_slice(), expected.as_slice());
    }
}

/// The lines of a recipe.
fn put_recipe(told: &mut Vec<u8>, entry: &Entry) {
    for line in entry.recipe().unwrap_or(&[]) {
        put_place(told, &line.place);
        put(told, line.text.as_slice());
    }
}

/// Adds a line to a recipe.
fn push(alloc: Global, entry: &mut Entry, line: &[u8], number: u64) -> Result<(), AllocError> {
    let place = place_of(alloc, number)?;
    entry.push(text_of(alloc, line)?, place)
}

#[test]
fn keeps_recipes(rt: HostRuntime) -> Result<(), Fail> {
    let alloc = rt.alloc();
    let mut told = Vec::new(alloc);
    let mut entry = rule_of(alloc, b"a: b", Some(b"one,"), 7)?;
    push(alloc, &mut entry, b"two", 9)?;
    put_recipe(&mut told, &entry);
    assert_eq!(rt; told.as_slice(), b"m:7 one,m:9 two".as_slice());
    Ok(())
}

#[test]
fn begins_recipes(rt: HostRuntime) -> Result<(), Fail> {
    let alloc = rt.alloc();
    let mut told = Vec::new(alloc);
    let mut entry = rule_of(alloc, b"", None, 7)?;
    assert!(rt; entry.recipe().is_none());
    push(alloc, &mut entry, b"", 8)?;
    put_recipe(&mut told, &entry);
    assert_eq!(rt; told.as_slice(), b"m:8 ".as_slice());
    assert!(rt; entry.targets().len() == 0);
    Ok(())
}

/// What a rule and a fault tell of a line.
fn told_of_line(alloc: Global, line: u64) -> Result<Vec<u8>, AllocError> {
    let mut told = Vec::new(alloc);
    if let Ok(entry) = rule_of(alloc, b"a:", None, line) {
        put_place(&mut told, &entry.place().share()?);
    }
    if let Err(fault) = rule_of(alloc, b"a", None, line) {
        put_fault(&mut told, &fault);
    }
    Ok(told)
}

/// The place of a rule, shared, and that of a fault.
#[test]
fn tells_file_and_line(rt: HostRuntime) -> Result<(), Fail> {
    let rows: &[(u64, &[u8])] = &[
        (0, b"m:0 m:0 05 missing separator"),
        (12, b"m:12 m:12 05 missing separator"),
        (65_535, b"m:65535 m:65535 05 missing separator"),
        (65_536, b"m:65536 m:65536 05 missing separator"),
        (
            18_446_744_073_709_551_615,
            b"m:18446744073709551615 m:18446744073709551615 05 missing separator",
        ),
    ];
    for row in rows {
        let told = told_of_line(rt.alloc(), row.0)?;
        same(&rt, row.0, told.as_slice(), row.1);
    }
    Ok(())
}

/// What is printed of the fault of a line.
fn printed(alloc: Global, head: &[u8]) -> Result<String, AllocError> {
    match rule_of(alloc, head, None, 7) {
        Ok(_entry) => Ok(String::new(alloc)),
        Err(fault) => format!(in alloc; "{fault}"),
    }
}

#[test]
fn prints_faults(rt: HostRuntime) -> Result<(), Fail> {
    let rows: &[(&[u8], &str)] = &[
        (b"a", "missing separator [E05]"),
        (b"a: *.c", "refused name *.c [E20]"),
    ];
    for row in rows {
        let printed = printed(rt.alloc(), row.0)?;
        same(&rt, row.0, printed.as_str(), row.1);
    }
    Ok(())
}

#[test]
fn removes_leading_dots(rt: HostRuntime) -> Result<(), Fail> {
    for (name, left) in [
        (b"./x".as_slice(), b"x".as_slice()),
        (b".//././/x", b"x"),
        (b".//", b"./"),
        (b"./", b"./"),
        (b"", b""),
        (b"..//./x", b"..//./x"),
        (b"/./x", b"/./x"),
        (b".", b"."),
    ] {
        same(&rt, name, without_dots(name), left);
        let owned = dotless(rt.alloc(), Vec::from_slice(rt.alloc(), name)?)?;
        same(&rt, name, owned.as_slice(), left);
    }
    Ok(())
}

/// Heads that one reader reads one after another, and what it tells of each.
const HEADS: [(&[u8], &[u8]); 17] = [
    (
        b"x: include/of_thirty_two_letters.h1 include/of_thirty_two_letters.h2",
        b"one x<include/of_thirty_two_letters.h1,include/of_thirty_two_letters.h2,|>",
    ),
    (
        b"y ./z: include/of_thirty_two_letters.h1 include/of_thirty_two_letters.h2",
        b"one y<include/of_thirty_two_letters.h1,include/of_thirty_two_letters.h2,|> z<include/of_thirty_two_letters.h1,include/of_thirty_two_letters.h2,|>",
    ),
    (
        b"x:: include/of_thirty_two_letters.h1 include/of_thirty_two_letters.h2",
        b"two x<include/of_thirty_two_letters.h1,include/of_thirty_two_letters.h2,|>",
    ),
    (
        b"x&: include/of_thirty_two_letters.h1 include/of_thirty_two_letters.h2",
        b"all x<include/of_thirty_two_letters.h1,include/of_thirty_two_letters.h2,|>",
    ),
    (
        b"x: include/of_thirty_two_letters.h1 | include/of_thirty_two_letters.h2",
        b"one x<include/of_thirty_two_letters.h1,|include/of_thirty_two_letters.h2,>",
    ),
    (
        b"%.o: include/of_thirty_two_letters.h1 | include/of_thirty_two_letters.h2",
        b"any %.o<include/of_thirty_two_letters.h1,|include/of_thirty_two_letters.h2,>",
    ),
    (
        b"*: include/of_thirty_two_letters.h1 | include/of_thirty_two_letters.h2",
        b"m:7 20 refused name *",
    ),
    (
        b": include/of_thirty_two_letters.h1 | include/of_thirty_two_letters.h2",
        b"one",
    ),
    (
        b".WAIT: include/of_thirty_two_letters.h1 | include/of_thirty_two_letters.h2",
        b"m:7 22 refused target .WAIT",
    ),
    (
        b"x: include/of_thirty_two_letters.h1 include/of_thirty_two_letters.h2 *",
        b"m:7 20 refused name *",
    ),
    (
        b"x: include/of_thirty_two_letters.h1 | include/of_thirty_two_letters.h2",
        b"one x<include/of_thirty_two_letters.h1,|include/of_thirty_two_letters.h2,>",
    ),
    (
        b"x: include/of_thirty_two_letters.h1 include/of_thirty_two_letters.h2 .WAIT",
        b"m:7 22 refused target .WAIT",
    ),
    (
        b"x: include/of_thirty_two_letters.h1 include/of_thirty_two_letters.h2 .WAIT",
        b"m:7 22 refused target .WAIT",
    ),
    (
        b".POSIX: include/of_thirty_two_letters.h1 include/of_thirty_two_letters.h2 .WAIT",
        b"one .POSIX<include/of_thirty_two_letters.h1,include/of_thirty_two_letters.h2,.WAIT,|>",
    ),
    (
        b"x.o: %.o: include/of_thirty_two_letters.h1 include/of_thirty_two_letters.h2",
        b"one x.o[x]<include/of_thirty_two_letters.h1,include/of_thirty_two_letters.h2,|>",
    ),
    (b"x: y", b"one x<y,|>"),
    (
        b"x: include/of_thirty_two_letters.h1 include/of_thirty_two_letters.h2",
        b"one x<include/of_thirty_two_letters.h1,include/of_thirty_two_letters.h2,|>",
    ),
];

#[test]
fn reads_again_what_it_remembers(rt: HostRuntime) {
    let alloc = rt.alloc();
    let mut reader = RuleReader::new(alloc);
    for row in HEADS {
        let told = told_next(alloc, &mut reader, row.0);
        assert_eq!(&rt; told.as_slice(), row.1, "of {:?}", row.0);
    }
}
