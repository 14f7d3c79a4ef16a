//! Automatic macros.
use crate::sameness::same;
use crate::told::{Asked, Question, Row, tells, told};
use kt_testing::{Random, put};
use std::alloc::Global;

/// So many makefiles that look random are tried.
const COUNT: usize = 400;

#[test]
fn lists_prerequisites(rt: HostRuntime) {
    const ROWS: &[Row] = &[
        (
            "t: x | x y\n\techo $^ - $|\n",
            "",
            "t",
            "/bin/sh -c 'echo x - y'\n",
        ),
        (
            "t: b a b | c b c ; $@ $< $^ $+ $? $| [$%]\n",
            "",
            "t",
            "/bin/sh -c 't b b a b a b b a c []'\n",
        ),
        (
            "t: k a b c d e f g h i a k j | a z y z ; $^ - $+ - $? - $|\n",
            "",
            "t",
            "/bin/sh -c 'k a b c d e f g h i j - k a b c d e f g h i a k j - k a b c d e f g h i j - z y'\n",
        ),
        (
            "a: b ; one $^\na: c ; two $^\n",
            "",
            "a",
            "/bin/sh -c 'two c b'\n",
        ),
        (
            "a:: x | y ; one $|\na:: y | x ; two $|\n",
            "",
            "a",
            "/bin/sh -c 'one y' && /bin/sh -c 'two x'\n",
        ),
        (
            "t: b a\nb a &: c ; x $^\nb: d\n",
            "",
            "t",
            "/bin/sh -c 'x c'\n/bin/sh -c 'x c d'\nphony\n",
        ),
    ];
    tells(&rt, rt.alloc(), 100, ROWS);
}

/// A rule with fewer than so many prerequisites that look random, and what is reported of it.
fn rule(alloc: Global, random: &mut Random, end: usize) -> (Vec<u8>, Vec<u8>) {
    let mut seen: Vec<&[u8]> = Vec::new(alloc);
    let mut makefile = Vec::new(alloc);
    let mut each = Vec::new(alloc);
    let mut every = Vec::new(alloc);
    put(&mut makefile, b"t:");
    for _ in 0..random.below(end) {
        let name = random.piece(&PREREQUISITES);
        put(&mut makefile, b" ");
        put(&mut makefile, name);
        put(&mut every, b" ");
        put(&mut every, name);
        if !seen.iter().any(|other| *other == name) {
            put(&mut each, b" ");
            put(&mut each, name);
            let _refused = seen.push(name);
        }
    }
    put(&mut makefile, b" ; x $^ - $+ - $?\n");
    let mut wanted = Vec::new(alloc);
    put(&mut wanted, b"/bin/sh -c 'x");
    put_list(&mut wanted, each.as_slice());
    put(&mut wanted, b" -");
    put_list(&mut wanted, every.as_slice());
    put(&mut wanted, b" -");
    put_list(&mut wanted, each.as_slice());
    put(&mut wanted, b"'\n");
    (makefile, wanted)
}

/// Puts a list after a space, which stands there where the list is empty, too.
fn put_list(text: &mut Vec<u8>, list: &[u8]) {
    if list.is_empty() {
        put(text, b" ");
    }
    put(text, list);
}

const PREREQUISITES: [&[u8]; 12] = [
    b"a", b"b", b"c", b"d", b"e", b"f", b"g", b"h", b"aa", b"ab", b"d/a", b"d/b",
];

#[test]
fn lists_each_as_the_plain_way(rt: HostRuntime) {
    let asked = Asked {
        list: b"",
        goals: b"t",
        question: Question::Commands(100),
    };
    let mut random = Random::new(38);
    for _ in 0..COUNT {
        let (makefile, wanted) = rule(rt.alloc(), &mut random, 24);
        let told = told(&rt, rt.alloc(), makefile.as_slice(), asked);
        same(&rt, makefile.as_slice(), told.as_slice(), wanted.as_slice());
    }
}

#[test]
fn tells_stems(rt: HostRuntime) {
    const ROWS: &[Row] = &[
        (
            "x.o y.o: %.o: %.c ; cc $< $*\n",
            "",
            "x.o",
            "/bin/sh -c 'cc x.c x'\n",
        ),
        (
            "%.o: %.c ; cc $< $*\n",
            "d/x.c\n",
            "d/x.o",
            "/bin/sh -c 'cc d/x.c d/x'\n",
        ),
        (
            "%.o: %.c ; one $<\nx%.o: x%.c ; two $*\n",
            "xy.c\n",
            "xy.o",
            "/bin/sh -c 'two y'\n",
        ),
        ("x.c: %: ; echo $*\n", "", "x.c", "/bin/sh -c 'echo x.c'\n"),
        (
            "a.c: ; echo [$*]\n.SUFFIXES:\n",
            "",
            "a.c",
            "/bin/sh -c 'echo []'\n",
        ),
        (
            ".SUFFIXES: .b.c .c.c\nx.b.c: ; echo [$*]\n",
            "",
            "x.b.c",
            "/bin/sh -c 'echo [x.b]'\n",
        ),
        ("% %.o: %.c ; x $*\n", "a.c\n", "a.o", "/bin/sh -c 'x a'\n"),
    ];
    tells(&rt, rt.alloc(), 100, ROWS);
}

#[test]
fn takes_names_apart(rt: HostRuntime) {
    const ROWS: &[Row] = &[
        (
            "t: a/x.c b ; echo $(<D) $(^F) $(@D)\n",
            "",
            "t",
            "/bin/sh -c 'echo a x.c b .'\n",
        ),
        (
            "a\\ b: ; echo [$(@D)][$(@F)][$(*D)][$(<D)]\n",
            "",
            "a b",
            "/bin/sh -c 'echo [.][a b][][]'\n",
        ),
        (
            "t: /x //y a/ ; echo $(^D) $(^F)\n",
            "",
            "t",
            "/bin/sh -c 'echo / / a x y'\n",
        ),
        (
            "t: a | b ; echo [$(|D)][$(%D)]\n",
            "",
            "t",
            "/bin/sh -c 'echo [][]'\n",
        ),
        (
            "d/t.c: e/a e/a ; $(@F) $(+D) $(+F) $(?D) $(*D) $(*F) $(<F)\n",
            "",
            "d/t.c",
            "/bin/sh -c 't.c e e a a e d t a'\n",
        ),
    ];
    tells(&rt, rt.alloc(), 100, ROWS);
}

#[test]
fn hides_the_table(rt: HostRuntime) {
    const ROWS: &[Row] = &[(
        "@ = table\nt: $@ ; $(foreach @,a b,$@) $@ $(value @)\n",
        "",
        "t",
        "/bin/sh -c 'a b t t'\n",
    )];
    tells(&rt, rt.alloc(), 100, ROWS);
}

/// Names of automatic macros, and after them those of none.
const NAMES: &[&[u8]] = &[
    b"@", b"<", b"^", b"+", b"?", b"|", b"*", b"%", b"@D", b"@F", b"<D", b"^F", b"*F", b"|D",
    b"%D", b"@@", b"A", b"",
];

const NONE: &str = "|D is none\n%D is none\n@@ is none\nA is none\n is none\n";

/// A makefile, a goal, a part of its node, and the values of the automatic macros.
const VALUES: [(&str, &str, usize, &str); 6] = [
    (
        "d/t.c: e/a f e/a | g f g ; x\n",
        "d/t.c",
        0,
        "@=d/t.c\n<=e/a\n^=e/a f\n+=e/a f e/a\n?=e/a f\n|=g\n*=d/t\n%=\n@D=d\n@F=t.c\n<D=e\n^F=a f\n*F=t\n",
    ),
    // Each rule of two colons has its own.
    (
        "a:: x | y ; one\na:: y z | x ; two\n",
        "a",
        0,
        "@=a\n<=x\n^=x\n+=x\n?=x\n|=y\n*=\n%=\n@D=.\n@F=a\n<D=.\n^F=x\n*F=\n",
    ),
    (
        "a:: x | y ; one\na:: y z | x ; two\n",
        "a",
        1,
        "@=a\n<=y\n^=y z\n+=y z\n?=y z\n|=x\n*=\n%=\n@D=.\n@F=a\n<D=.\n^F=y z\n*F=\n",
    ),
    (
        "x.o y.o: %.o: d/%.c ; x\n",
        "y.o",
        0,
        "@=y.o\n<=d/y.c\n^=d/y.c\n+=d/y.c\n?=d/y.c\n|=\n*=y\n%=\n@D=.\n@F=y.o\n<D=d\n^F=y.c\n*F=y\n",
    ),
    (
        "t: ; x\n",
        "t",
        0,
        "@=t\n<=\n^=\n+=\n?=\n|=\n*=\n%=\n@D=.\n@F=t\n<D=\n^F=\n*F=\n",
    ),
    // A part that the node doesn't have tells its target.
    (
        "t: a | b ; x\n",
        "t",
        1,
        "@=t\n<=\n^=\n+=\n?=\n|=\n*=\n%=\n@D=.\n@F=t\n<D=\n^F=\n*F=\n",
    ),
];

#[test]
fn gives_values(rt: HostRuntime) {
    for (makefile, goal, part, values) in VALUES {
        let asked = Asked {
            list: b"",
            goals: goal.as_bytes(),
            question: Question::Values(part, NAMES),
        };
        let told = told(&rt, rt.alloc(), makefile.as_bytes(), asked);
        let found = told.as_slice().strip_suffix(NONE.as_bytes()).unwrap_or(b"");
        same(&rt, (part, goal, makefile), found, values.as_bytes());
    }
}
