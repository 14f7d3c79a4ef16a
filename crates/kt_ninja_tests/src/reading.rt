//! Texts that are read and texts that aren't, by the Ninja manual and by kati's own rules.
use crate::sameness::same;
use kt_ninja_doubles::shown;
use kt_ninja_reader::{ReadFault, read_plan};
use std::alloc::{AllocError, Global};

/// Texts, and the plans that they say.
const PLANS: [(&[u8], &[u8]); 26] = [
    // Commands are expanded.
    (b"", b">\n"),
    (
        b"rule r\n command = cat $in\nbuild o: r a$ b\n",
        b"o,;=cat 'a b';a b,;;#>\n",
    ),
    (
        b"rule r\n command = cat $in_newline\nbuild o: r a b\n",
        b"o,;=cat a\nb;a,b,;;#>\n",
    ),
    (
        b"rule r\n command = x >$out\nbuild a b: r\n",
        b"a,b,;=x >a b;;;#>\n",
    ),
    (
        b"sh = /bin/sh -c\nrule c\n command = $sh 'cc -c $in -o $out'\nbuild a.o: c   a.c\ndefault a.o\n",
        b"a.o,;=/bin/sh -c 'cc -c a.c -o a.o';a.c,;;#>a.o,\n",
    ),
    (
        b"rule r\n command = $out $in ${in_newline}\nbuild a b: r c+1 $$d | e || f\n out = 9\n",
        b"a,b,;=a b c+1 '$d' c+1\n'$d';c+1,$d,;e,;f,#>\n",
    ),
    (
        b"rule r\n command = $in\nbuild a: r it's\n",
        b"a,;='it'\\''s';it's,;;#>\n",
    ),
    // Lines are joined.
    (
        b"name = x\nbuild $na$\n  me: phony\ndefault x\n",
        b"x,;;;;#>x,\n",
    ),
    (b"$\nbuild t: phony\ndefault t\n", b"t,;;;;#>t,\n"),
    (b"build t: phony\n$\n # c $\ndefault t\n", b"t,;;;;#>t,\n"),
    (
        b"# c\n\n   \nx = 1\n  # c\n\nbuild $x$ $:${x}: phony\n",
        b"1 :1,;;;;#>\n",
    ),
    // Inputs stand after their bars, and default targets add up.
    (b"build t: phony ||@b\ndefault t\n", b"t,;;;;@b,#>t,\n"),
    (b"build t:phony a|b||c\n", b"t,;;a,;b,;c,#>\n"),
    (
        b"build a: phony |\nbuild b: phony ||\nbuild c: phony | ||\n",
        b"a,;;;;#b,;;;;#c,;;;;#>\n",
    ),
    (b"build =: phony\ndefault =\n", b"=,;;;;#>=,\n"),
    (
        b"build b: phony\nbuild a: phony\ndefault b\ndefault a b\n",
        b"b,;;;;#a,;;;;#>b,a,b,\n",
    ),
    // Blocks have their scope.
    (
        b"rule r\n command = x $in\nbuild a: r b\n command = /bin/sh -c '$$^ $in'\ndefault a\n",
        b"a,;=/bin/sh -c '$^ ';b,;;#>a,\n",
    ),
    (
        b"build t: phony\n command = x\ndefault t\n",
        b"t,;;;;#>t,\n",
    ),
    (b"build $x: phony\n x = y\n", b"y,;;;;#>\n"),
    (b"x = 1\nbuild $x: phony\n x = $x$x\n", b"11,;;;;#>\n"),
    // Values are looked up at their place.
    (
        b"rule r\n command = $x $y\nx = 1\nbuild $x: r\n y = $x\nx = 2\n",
        b"1,;=2 1;;;#>\n",
    ),
    (
        b"x =  a \nrule r\n command = $x|\nbuild b: r\n",
        b"b,;=a |;;;#>\n",
    ),
    (
        b"x =\nrule r\n# c\n command = $x$ \n\nbuild b: r  \n",
        b"b,;= ;;;#>\n",
    ),
    (
        b"rule r\n command = $a.b ${a.b}\na = 1\na.b = 2\nbuild o: r\n",
        b"o,;=1.b 2;;;#>\n",
    ),
    (
        b"rule r-._1\n command = x\nbuild o: r-._1\n",
        b"o,;=x;;;#>\n",
    ),
    // What kati prints.
    (
        b"# kati\nrule r0\n command = /bin/sh -c 'cc -c a.c -o a.o'\nbuild a.o: r0 a.c\ndefault a.o\n",
        b"a.o,;=/bin/sh -c 'cc -c a.c -o a.o';a.c,;;#>a.o,\n",
    ),
];

/// The lines of faults, and texts that have them.
const FAULTS: [(u64, &[u8]); 73] = [
    // Joined lines have the number of their first.
    (1, b"x = 3"),
    (1, b"rule$\n r\n command = x\n"),
    (1, b"build a: phony\n$\n\n x = 1\n"),
    (1, b"$\n"),
    (2, b"build a: phony\n$\nbuild a: phony\n"),
    (2, b"build t: phony\ndefault t\n$\n"),
    (2, b"build t: phony\n$"),
    (6, b"build a: phony |\n\nx = $\n 1$\n\nbuild a: phony\n"),
    // Bytes and places.
    (1, b"rule r\n\n command = x\n"),
    (1, b"# c\n x = 1\n"),
    (1, b"build a: phony\n\n x = 1\n"),
    (1, b"build a: phony\n# \r\n"),
    (1, b"x = 1\0\n"),
    (2, b"build a: phony\nbuild b\r: phony\n"),
    (2, b"# kati\nrule r0\n"),
    (4, b"# c\n\nbuild a: phony\nrule r\nbuild b: phony\n"),
    (4, b"x = 1\n\n\ny\n"),
    (6, b"build a: phony\n\n\nbuild b: phony\n\nbuild a: phony\n"),
    // Rules.
    (1, b"rule r\n command = x\n command = y\n"),
    (1, b"rule r\n"),
    (1, b"rule r\n command =\n"),
    (1, b"rule r\n command = $command\n"),
    (1, b"rule r\n command = x\n x = y\n"),
    (1, b"rule r\n x = y\n"),
    (1, b"rule phony\n command = x\n"),
    (1, b"rule r s\n command = x\n"),
    (1, b"rule\n command = x\n"),
    (1, b"rule $r\n command = x\n"),
    (1, b"rule= x\n"),
    (3, b"rule r\n command = x\nrule r\n command = x\n"),
    // Bars and colons.
    (1, b"build t: phony |@b\ndefault t\n"),
    (1, b"build a: phony ||| b\n"),
    (1, b"build a: phony b:c\n"),
    (1, b"build a|b: phony\n"),
    (1, b"build : phony\n"),
    (1, b"build a:\n"),
    (1, b"build a\n"),
    (1, b"build a: phony | b | c\n"),
    (1, b"build a: phony || b | c\n"),
    (1, b"build a: phony || b || c\n"),
    (2, b"build a: phony\ndefault a|\n"),
    // Default targets.
    (1, b"default x\n"),
    (1, b"build t: phony\n pool = x\ndefault t\n"),
    (1, b"default = 3\n"),
    (1, b"default a\nbuild a: phony\n"),
    (2, b"build a: phony\ndefault a\n x = 1\n"),
    (2, b"build a: phony\ndefault\n"),
    (2, b"build a: phony\ndefault a:\n"),
    (2, b"build a: phony\ndefault a b\n"),
    // Statements.
    (1, b"build a: q b\n"),
    (1, b"build a: phony\n x = 1\n y = $x\n"),
    (1, b"build a b a: phony\n"),
    (1, b"build a: phony\n x = 1\n x = 2\n"),
    (1, b"build a: phony\n x 1\n"),
    (1, b"build a: phony\n x y = 1\n"),
    (1, b"build $x: phony\n"),
    (1, b"build a: phony $x\n"),
    (1, b"build a: $p\n"),
    (1, b"build a: phony $%\n"),
    (1, b"build a: r\nrule r\n command = x\n"),
    (2, b"build a: phony\nbuild a: phony\n"),
    // Bindings.
    (1, b"x = $\\\n"),
    (1, b"x = ${y\n"),
    (1, b"x = ${}\n"),
    (1, b"x = $.\n"),
    (1, b"x = y\n z = 1\n"),
    (1, b"include x\n"),
    (1, b"subninja x\n"),
    (1, b"pool x\n depth = 1\n"),
    (1, b"include = x\n"),
    (1, b"= x\n"),
    (1, b"hello\n"),
    (1, b"\tx = 1\n"),
];

/// What is read, shown as a text; nothing where there is no plan.
fn told(alloc: Global, text: &[u8]) -> Vec<u8> {
    match read_plan(alloc, text) {
        Ok(plan) => shown(alloc, &plan),
        Err(_) => Vec::new(alloc),
    }
}

/// The line of the fault, or 0.
fn fault(alloc: Global, text: &[u8]) -> u64 {
    match read_plan(alloc, text) {
        Err(ReadFault::NotNinja(number)) => number,
        _ => 0,
    }
}

#[test]
fn texts_say_their_plan(rt: HostRuntime) {
    for (text, plan) in PLANS {
        let told = told(rt.alloc(), text);
        same(&rt, text, told.as_slice(), plan);
    }
}

#[test]
fn texts_have_their_fault(rt: HostRuntime) {
    for (line, text) in FAULTS {
        same(&rt, text, fault(rt.alloc(), text), line);
    }
}

/// What kati prints for `a.o: a.c`.
const OUTPUT: &[u8] =
    b"# kati\nrule r0\n command = /bin/sh -c 'cc -c a.c -o a.o'\nbuild a.o: r0 a.c\ndefault a.o\n";

/// A beginning of it is a plan, or has its fault; after line 2 that is the rule without its command.
#[test]
fn each_beginning_of_an_output_is_read_or_has_its_line(rt: HostRuntime) {
    for (length, _) in OUTPUT.iter().enumerate() {
        let (line, plan): (u64, &[u8]) = match length {
            0 | 7 | 56 => (0, b">\n"),
            74 => (0, b"a.o,;=/bin/sh -c 'cc -c a.c -o a.o';a.c,;;#>\n"),
            1..=6 => (1, b""),
            8..=55 => (2, b""),
            57..=73 => (4, b""),
            _ => (5, b""),
        };
        let beginning = &OUTPUT[..length];
        same(&rt, length, fault(rt.alloc(), beginning), line);
        let told = told(rt.alloc(), beginning);
        same(&rt, length, told.as_slice(), plan);
    }
}

/// A text, a given number of times.
fn repeated(alloc: Global, text: &[u8], count: usize) -> Result<Vec<u8>, AllocError> {
    let mut all = Vec::new(alloc);
    for _ in 0..count {
        all.extend_from_slice(text)?;
    }
    Ok(all)
}

/// What stands in front, a text and how often, and what stands after; the plan, with the text where `%` stands.
const LONG: [(&[u8], &[u8], usize, &[u8], &[u8]); 5] = [
    // a path of 5,000 bytes
    (b"build ", b"x", 5_000, b": phony\n", b"%,;;;;#>\n"),
    // a variable's name of 300 bytes
    (b"", b"v", 300, b" = 1\nbuild a: phony\n", b"a,;;;;#>\n"),
    // spaces before a value, comments, and empty lines
    (b"x =", b" ", 70_000, b"y\nbuild $x: phony\n", b"y,;;;;#>\n"),
    (b"", b"# c $\n", 5_000, b"build a: phony\n", b"a,;;;;#>\n"),
    (
        b"build a: phony\n",
        b"\n",
        70_000,
        b"default a\n",
        b"a,;;;;#>a,\n",
    ),
];

/// The text, with another in place of the percent sign.
fn with_middle(alloc: Global, shown: &[u8], middle: &[u8]) -> Result<Vec<u8>, AllocError> {
    let mut text = Vec::new(alloc);
    for byte in shown {
        if *byte == b'%' {
            text.extend_from_slice(middle)?;
        } else {
            text.push(*byte)?;
        }
    }
    Ok(text)
}

#[test]
fn long_texts_are_read(rt: HostRuntime) {
    for (front, text, count, back, plan) in LONG {
        let middle = repeated(rt.alloc(), text, count).expect(&rt, "memory");
        let mut whole = front.to_vec(rt.alloc()).expect(&rt, "memory");
        whole
            .extend_from_slice(middle.as_slice())
            .expect(&rt, "memory");
        whole.extend_from_slice(back).expect(&rt, "memory");
        let wanted = with_middle(rt.alloc(), plan, middle.as_slice()).expect(&rt, "memory");
        let told = told(rt.alloc(), whole.as_slice());
        same(&rt, (count, text), told.as_slice(), wanted.as_slice());
    }
}

#[test]
fn lines_are_numbered_past_16_bits(rt: HostRuntime) {
    let mut text = repeated(rt.alloc(), b"# c\n", 70_000).expect(&rt, "memory");
    text.extend_from_slice(b"build a: phony\nx\n")
        .expect(&rt, "memory");
    assert_eq!(rt; fault(rt.alloc(), text.as_slice()), 70_002);
}
