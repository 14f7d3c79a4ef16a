//! What command lines ask for.
use crate::sameness::same;
use crate::told::told;

/// Words on lines, and what is reported of them.
const ASKED: [(&str, &str); 41] = [
    ("", "100"),
    ("kati", "100"),
    ("-f", "100"),
    (
        "kati\n-f\nlib.mk\nCC=clang\nall",
        "100 -f lib.mk [all] {CC}{clang}",
    ),
    // forms of options
    ("kati\n-fX", "100 -f X"),
    ("kati\n-f=X", "100 -f X"),
    ("kati\n-f==X", "100 -f =X"),
    ("kati\n-f\n", "100 -f "),
    ("kati\n-f\n-", "100 -f -"),
    // a value in the word of its option may begin with a hyphen
    ("kati\n-f=-x", "100 -f -x"),
    ("kati\n-f-x", "100 -f -x"),
    ("kati\n--files=-x", "100 --files -x"),
    ("kati\n--files=--ninja", "100 --files --ninja"),
    ("kati\n-f\nA=1", "100 -f A=1"),
    ("kati\n--files\nX", "100 --files X"),
    ("kati\n--files=X", "100 --files X"),
    ("kati\n--files=", "100 --files "),
    ("kati\n--check=a=b", "100 --check a=b"),
    (
        "kati\n--check\nX\n--files\nY\n-f\nZ",
        "100 -f Z --files Y --check X",
    ),
    ("kati\nt\n--ninja\n-f=Makefile", "100 -f Makefile [t]"),
    // words that are no options
    ("kati\n-", "100 [-]"),
    ("kati\n", "100 []"),
    ("kati\n--\n-f", "100 [-f]"),
    ("kati\n--\n--\n-f\nA=1", "100 [--] [-f] {A}{1}"),
    ("kati\n--\n--help", "100 [--help]"),
    ("kati\nhelp", "100 [help]"),
    ("kati\nb\na\nb", "100 [b] [a] [b]"),
    ("kati\na b", "100 [a b]"),
    (
        "kati\n\u{e4}\n\u{e9}=\u{fc}",
        "100 [\u{e4}] {\u{e9}}{\u{fc}}",
    ),
    // macros
    ("kati\nA=1\nb\nA=2", "100 [b] {A}{1} {A}{2}"),
    ("kati\nA=", "100 {A}{}"),
    ("kati\nA= x ", "100 {A}{ x }"),
    ("kati\nA=x=y", "100 {A}{x=y}"),
    ("kati\nA==", "100 {A}{=}"),
    ("kati\n:A=x", "100 {:A}{x}"),
    ("kati\nA:B=x", "100 {A:B}{x}"),
    // the limit
    ("kati\n--depth\n1", "001"),
    ("kati\n--depth\n400", "400"),
    ("kati\n--depth=100", "100"),
    ("kati\n--depth\n+007", "007"),
    ("kati\n--depth\n000000000000000000000399", "399"),
];

#[test]
fn words_ask(rt: HostRuntime) {
    for (lines, wanted) in ASKED {
        let told = told(&rt, rt.alloc(), lines);
        same(&rt, lines, told.as_slice(), wanted.as_bytes());
    }
}

/// Words on lines, and why they ask for nothing.
const REFUSED: [(&str, &str); 52] = [
    ("kati\n-h", "help"),
    ("kati\n--help", "help"),
    ("kati\nall\n--help", "help"),
    // the first trouble from the left decides
    ("kati\n--help\n--nothing", "help"),
    ("kati\n--nothing\n--help", "usage"),
    ("kati\n-hx", "help"),
    ("kati\n-xh", "usage"),
    // missing, repeated and unknown options
    ("kati\n-f", "usage"),
    ("kati\n--files", "usage"),
    ("kati\n--check", "usage"),
    ("kati\n--depth", "usage"),
    ("kati\n-f\n--ninja", "usage"),
    ("kati\n-f\n-x", "usage"),
    ("kati\n--files\n-x", "usage"),
    ("kati\n-f\n--", "usage"),
    ("kati\n-f\nMakefile\n-f\nMakefile", "usage"),
    ("kati\n--files\nx\n--files\nx", "usage"),
    ("kati\n--check=x\n--check=x", "usage"),
    ("kati\n--depth=1\n--depth=1", "usage"),
    ("kati\n--ninja\n--ninja", "usage"),
    ("kati\n--ninja=x", "usage"),
    ("kati\n--nothing", "usage"),
    ("kati\nt\n--nothing", "usage"),
    ("kati\nA=1\n--nothing=x", "usage"),
    ("kati\n-n", "usage"),
    ("kati\n-j4", "usage"),
    ("kati\n-V", "usage"),
    ("kati\n--version", "usage"),
    ("kati\n--file=x", "usage"),
    ("kati\n--makefile=x", "usage"),
    ("kati\n--words=x", "usage"),
    ("kati\n-A=1", "usage"),
    // the limit
    ("kati\n--depth\nx", "usage"),
    ("kati\n--depth\n", "usage"),
    ("kati\n--depth\n0", "usage"),
    ("kati\n--depth\n401", "usage"),
    ("kati\n--depth=-1", "usage"),
    ("kati\n--depth= 1", "usage"),
    ("kati\n--depth\n18446744073709551617", "usage"),
    // macros whose names no macro can have
    ("kati\n=x", "bad macro =x"),
    ("kati\n==", "bad macro =="),
    ("kati\nA:=x", "bad macro A:=x"),
    ("kati\nA::=x", "bad macro A::=x"),
    ("kati\nA+=x\nA?=x", "bad macro A+=x"),
    ("kati\na\nB=1\nA?=x\n=x", "bad macro A?=x"),
    ("kati\n--\nA!=x", "bad macro A!=x"),
    ("kati\nA B=x", "bad macro A B=x"),
    // found after all words were taken
    ("kati\nA:=x\n--help", "help"),
    ("kati\nA:=x\n--depth=0", "usage"),
    ("kati\nA:=x\n--depth=401", "usage"),
    ("kati\n=x\n--nothing", "usage"),
    ("kati\nA+=x\n-f", "usage"),
];

#[test]
fn words_are_refused(rt: HostRuntime) {
    for (lines, wanted) in REFUSED {
        let told = told(&rt, rt.alloc(), lines);
        same(&rt, lines, told.as_slice(), wanted.as_bytes());
    }
}

/// Bytes that words are cut at stand in no macro's name.
const SEPARATORS: [&str; 3] = ["A\tB=x", "\t=x", " A=x"];

#[test]
fn separators_are_refused(rt: HostRuntime) {
    for word in SEPARATORS {
        let lines = format!(in rt.alloc(); "kati\n{word}").expect(&rt, "memory");
        let told = told(&rt, rt.alloc(), lines.as_str());
        same(&rt, word, told.as_slice().starts_with(b"bad macro "), true);
    }
}
