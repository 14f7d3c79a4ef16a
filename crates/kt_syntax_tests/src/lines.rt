//! Terms, kinds of lines and texts of parts, from the manuals and kati's own rules.
use crate::sameness::same;
use kt_syntax::{
    Directive, Form, LineText, Mark, Operator, Term, classify, classify_text, plain, recipe_text,
    rule_parts, terms,
};
use std::test::Fail;

/// Each term in brackets, with a letter for its mark.
pub(crate) fn told(text: &[u8], rt: &HostRuntime) -> Result<Vec<u8>, Fail> {
    let mut told = Vec::new(rt.alloc());
    for term in terms(text) {
        let (kind, body) = match term {
            Ok(Term::Lit(bytes)) => (b'l', bytes),
            Ok(Term::Dollar) => (b'd', b"".as_slice()),
            Ok(Term::Ref(Mark::Byte, body)) => (b'b', body),
            Ok(Term::Ref(Mark::Parentheses, body)) => (b'p', body),
            Ok(Term::Ref(Mark::Braces, body)) => (b'c', body),
            Err(_) => (b'u', b"".as_slice()),
        };
        told.push(kind)?;
        told.push(b'[')?;
        told.extend_from_slice(body)?;
        told.push(b']')?;
    }
    Ok(told)
}

#[test]
fn cuts_texts(rt: HostRuntime) -> Result<(), Fail> {
    let rows: [(&[u8], &[u8]); 13] = [
        (b"", b""),
        (b"a$(b$$)c$$$d$", b"l[a]p[b$$]l[c]d[]b[d]l[]"),
        (b"x$(a", b"l[x]u[]"),
        (b"${a)}$(b})", b"c[a)]p[b}]"),
        (b"$(a(b)c)d)", b"p[a(b)c]l[d)]"),
        (b"$((a)", b"u[]"),
        (b"$\\#b", b"b[\\]l[#b]"),
        (b"$#$;", b"b[#]b[;]"),
        (b"a$\\\n b", b"l[a]b[\\]l[\n b]"),
        (b"$(\\\n)$ \\\n", b"p[\\\n]b[ ]l[\\\n]"),
        (b"a$\\\r\nb", b"l[a]b[\\]l[\r\nb]"),
        (b"a$\\\\\\\nb", b"l[a]b[\\]l[\\\\\nb]"),
        (b"$)", b"b[)]"),
    ];
    for (text, expected) in rows {
        let found = told(text, &rt)?;
        same(&rt, text, found.as_slice(), expected);
    }
    Ok(())
}

/// The kind of a line in one letter, and its parts, each in brackets.
pub(crate) fn kind_view(line: &LineText<'_>, tab: bool, rt: &HostRuntime) -> Result<Vec<u8>, Fail> {
    let mut told = Vec::new(rt.alloc());
    let (kind, first, second) = match classify(line, tab) {
        Form::Blank => (b'b', b"".as_slice(), b"".as_slice()),
        Form::Assignment(name, Operator::Deferred, value) => (b'=', name, value),
        Form::Assignment(name, Operator::Immediate, value) => (b':', name, value),
        Form::Assignment(name, Operator::Escaped, value) => (b'e', name, value),
        Form::Assignment(name, Operator::Conditional, value) => (b'?', name, value),
        Form::Assignment(name, Operator::Append, value) => (b'+', name, value),
        Form::Assignment(name, Operator::Shell, value) => (b'!', name, value),
        Form::Directive(Directive::Else, rest) => (b'E', rest, b"".as_slice()),
        Form::Directive(Directive::Endif, rest) => (b'F', rest, b"".as_slice()),
        Form::Directive(Directive::Endef, rest) => (b'D', rest, b"".as_slice()),
        Form::Directive(Directive::Ifeq, rest) => (b'I', rest, b"".as_slice()),
        Form::Directive(Directive::OptionalInclude, rest) => (b'S', rest, b"".as_slice()),
        Form::Directive(_, rest) => (b'd', rest, b"".as_slice()),
        Form::Refused(word) => (b'x', word, b"".as_slice()),
        Form::Rule => (b'r', b"".as_slice(), b"".as_slice()),
    };
    told.push(kind)?;
    for part in [first, second] {
        told.push(b'[')?;
        told.extend_from_slice(part)?;
        told.push(b']')?;
    }
    Ok(told)
}

#[test]
fn tells_kinds(rt: HostRuntime) -> Result<(), Fail> {
    let rows: [(&[u8], bool, &[u8]); 53] = [
        (b"", false, b"b[][]"),
        (b" \t# x", false, b"b[][]"),
        (b"ifeq = 3", false, b"=[ifeq][3]"),
        (b"a:: b = c", false, b"r[][]"),
        (b"a b = c", false, b"r[][]"),
        (b"a\\:=b", false, b":[a\\][b]"),
        (b"a\\ = b", false, b"=[a\\][b]"),
        (b"a+b?c;d$$ = 1", false, b"=[a+b?c;d$$][1]"),
        (b"a::::=b", false, b"r[][]"),
        (b"a:::=b", false, b"e[a][b]"),
        (b"a : = b", false, b"r[][]"),
        (b"a:b=c", false, b"r[][]"),
        (b"a b := c", false, b"r[][]"),
        (b"A$(x = 1", false, b"r[][]"),
        (b"endif $(x", false, b"F[$(x][]"),
        (b"A = $(x", false, b"=[A][$(x]"),
        (b"ifeq(a,b)", false, b"r[][]"),
        (b"include: a", false, b"r[][]"),
        (b"else;", false, b"r[][]"),
        (b"\tA = 1", true, b"=[A][1]"),
        (b"\t# c", true, b"b[][]"),
        (b"\tendif", true, b"r[][]"),
        (b"endif", false, b"F[][]"),
        (b"endef#c", false, b"D[#c][]"),
        (b"endef = x", false, b"=[endef][x]"),
        (b"A = a$\\\\#b # c", false, b"=[A][a$\\\\#b # c]"),
        (b"$# = 1", false, b"=[$#][1]"),
        (b"a\\# = hash", false, b"=[a\\#][hash]"),
        (b"a\\\\# = hash", false, b"r[][]"),
        (b"export Z", false, b"x[export][]"),
        (b"Z != z", false, b"![Z][z]"),
        (b"A \\\n += \\\n b", false, b"+[A][b]"),
        (b"-include\\\n a", false, b"S[a][]"),
        (b"$\\\nA = 1", false, b"=[$ A][1]"),
        (b"A$ \\\nB = 1", false, b"=[A$ B][1]"),
        (b"A$\\\n  B = 1", false, b"=[A$ B][1]"),
        (b"A$\\\n\\\nB = 1", false, b"=[A$ B][1]"),
        (b"A$ \t\\\r\n \\\n B = 1", false, b"=[A$ B][1]"),
        (b"$\\\n y = 1", false, b"=[$ y][1]"),
        (b"A$ B = 1", false, b"=[A$ B][1]"),
        (b"A$\\\\\\\nB = 1", false, b"r[][]"),
        (b"define $\\\n A :=", false, b"d[$ A :=][]"),
        (b"A = a$\\\nb # \\\n c", false, b"=[A][a$ b # c]"),
        (b"define := y", false, b":[define][y]"),
        (b"define A = $(", false, b"d[A = $(][]"),
        (b"else ifeq(a,a)", false, b"E[ifeq(a,a)][]"),
        (b"\tinclude a", true, b"d[a][]"),
        (b"include a\\ b", false, b"d[a\\ b][]"),
        (b"override A = 1", false, b"x[override][]"),
        (b"-load a", false, b"x[-load][]"),
        (b"A ?= b", false, b"?[A][b]"),
        (b"a::=b", false, b":[a][b]"),
        (b"= b", false, b"=[][b]"),
    ];
    for (text, tab, expected) in rows {
        let line = LineText::new(rt.alloc(), text)?;
        let found = kind_view(&line, tab, &rt)?;
        same(&rt, text, found.as_slice(), expected);
    }
    Ok(())
}

/// Head and recipe, each in brackets, or a star for a target-specific macro.
fn parts_told(line: &LineText<'_>, rt: &HostRuntime) -> Result<Vec<u8>, Fail> {
    let mut told = Vec::new(rt.alloc());
    match rule_parts(line) {
        Err(_) => told.push(b'*')?,
        Ok(parts) => {
            told.push(b'[')?;
            told.extend_from_slice(parts.head)?;
            told.push(b']')?;
            if let Some(recipe) = parts.recipe {
                told.push(b'[')?;
                told.extend_from_slice(recipe)?;
                told.push(b']')?;
            }
        }
    }
    Ok(told)
}

#[test]
fn cuts_rule_lines(rt: HostRuntime) -> Result<(), Fail> {
    let rows: [(&[u8], &[u8]); 34] = [
        (b"a\\#b: c ; echo $@ # yes", b"[a\\#b: c ][echo $@ # yes]"),
        (b"a: c # ; no", b"[a: c # ; no]"),
        (b"a: b$; c", b"[a: b$; c]"),
        (b"a: $(b ; x", b"[a: $(b ; x]"),
        (b"t: ; \\\n\t @ echo a", b"[t: ][@ echo a]"),
        (b"a$\\: b = c", b"*"),
        (b"a::::=b", b"*"),
        (b"a:: = b", b"*"),
        (b"a : = b", b"*"),
        (b"a:b=c", b"*"),
        (b"a b := c", b"*"),
        (b"t: export override A = b", b"*"),
        (b"t: A# = b", b"[t: A# = b]"),
        (b"t: a ; X = 1", b"[t: a ][X = 1]"),
        (b"a\\:b=c", b"[a\\:b=c]"),
        (b"a\\\\:b: c ; true", b"[a\\\\:b: c ][true]"),
        (b"t: private\\\n A = b", b"*"),
        (b"t: a b", b"[t: a b]"),
        (b"t:;", b"[t:][]"),
        (b"$(a:b=c): d", b"[$(a:b=c): d]"),
        (b"t: export  private\tA = b # c", b"*"),
        (b"t: export A", b"[t: export A]"),
        (b"t: exports A = b", b"[t: exports A = b]"),
        (b"t: \\\n a ; $(error x)", b"[t: a ][$(error x)]"),
        (b"a: x$\\\n y = z", b"*"),
        (b"t: A$ \\\nB = 1", b"*"),
        (b"t: override$\\\n A = b", b"*"),
        (b"t: override\\\n A = b", b"*"),
        (b"a$\\\n b: ; c \\\n\td", b"[a$ b: ][c \\\n\td]"),
        (b"a$\\\n;b", b"[a$ ][b]"),
        (b"a: b \\\n# ; no", b"[a: b # ; no]"),
        (b"a: b \\\n\\# ; c \\\n d", b"[a: b \\# ][c \\\n d]"),
        (b"a: b\\\tc ; x", b"[a: b\\\tc ][x]"),
        (b"a", b"[a]"),
    ];
    for (text, expected) in rows {
        let line = LineText::new(rt.alloc(), text)?;
        let found = parts_told(&line, &rt)?;
        same(&rt, text, found.as_slice(), expected);
    }
    Ok(())
}

#[test]
fn drops_comments(rt: HostRuntime) -> Result<(), Fail> {
    let rows: [(&[u8], &[u8]); 15] = [
        (b"a\\#b\\\\# c", b"a#b\\"),
        (b"a$\\#b", b"a$\\"),
        (b"a$\\\\#b", b"a$\\#b"),
        (b"$(info a\\#b\\\\#c)", b"$(info a\\#b\\\\#c)"),
        (b"$(x # y", b"$(x # y"),
        (b"[$(x # y)]", b"[$(x # y)]"),
        (b"ok # $(", b"ok "),
        (b"a$#b$$#c", b"a$#b$$"),
        (b"${a)#}#)", b"${a)#}"),
        (b"a\\\\b\\", b"a\\\\b\\"),
        (b"# c", b""),
        (b"a\\\\\\#b", b"a\\#b"),
        (b"a\\\\\\\\# c", b"a\\\\"),
        (b"a\\\\\\\\\\#b", b"a\\\\#b"),
        (b"a\\\\\\\\\\\\\\#\\\\\\# # c", b"a\\\\\\#\\# "),
    ];
    for (text, expected) in rows {
        let found = plain(rt.alloc(), text)?;
        same(&rt, text, found.as_slice(), expected);
    }
    Ok(())
}

#[test]
fn condenses_parts(rt: HostRuntime) -> Result<(), Fail> {
    let rows: [(&[u8], &[u8]); 10] = [
        (b"x \\\n\\\ny", b"x y"),
        (b"x\\\n", b"x "),
        (b"a\\\r\n b", b"a b"),
        (b"x\\\r\r\n", b"x\\\r\n"),
        (b"a$\\\nb", b"a$ b"),
        (b"[$\\\n  \\\n\tA]", b"[$ A]"),
        (b"a # b \\\n c", b"a "),
        (b"a \\\n# c", b"a "),
        (b"$(a \\\n # b)", b"$(a # b)"),
        (b"a\\\\\\\n# c", b"a\\\\ "),
    ];
    for (text, expected) in rows {
        let found = plain(rt.alloc(), text)?;
        same(&rt, text, found.as_slice(), expected);
    }
    Ok(())
}

#[test]
fn joins_recipe_lines(rt: HostRuntime) -> Result<(), Fail> {
    let rows: [(&[u8], &[u8]); 12] = [
        (b"a \\\n\tb", b"a b"),
        (b"a\\\n\t\tb", b"a\tb"),
        (b"a\\\n b", b"a b"),
        (b"a\\\r\n\tb", b"ab"),
        (b"a\\\\\nb", b"a\\\\\nb"),
        (b"a\r\nb\r", b"a\nb\r"),
        (b"a\\", b"a\\"),
        (b"a\\\n", b"a"),
        (b"echo a\\#b # c", b"echo a\\#b # c"),
        (b"$$\\\n\tb", b"$$b"),
        (b"a$\\\\\\\nb", b"a$\\\\b"),
        (b"", b""),
    ];
    for (text, expected) in rows {
        let found = recipe_text(rt.alloc(), text)?;
        same(&rt, text, found.as_slice(), expected);
    }
    Ok(())
}

#[test]
fn joins_references_of_recipe_lines(rt: HostRuntime) -> Result<(), Fail> {
    let rows: [(&[u8], &[u8]); 10] = [
        (b"[$(subst a,b,x \\\n\\\ny)]", b"[$(subst a,b,x y)]"),
        (b"a$\\\n b", b"a$ b"),
        (b"a$\\\r\n b", b"a$ b"),
        (b"[$\\\n  \\\n\tA]", b"[$ A]"),
        (b"[$\\\nA]", b"[$ A]"),
        (b"$(x \\\n y", b"$(x y"),
        (b"$(x\\\n", b"$(x "),
        (b"${a)\\\n\t}b\\\n\tc", b"${a) }bc"),
        (b"$(a $\\\n  \\\n b)", b"$(a $ b)"),
        (b"$(a  b) \\\n\tc", b"$(a  b) c"),
    ];
    for (text, expected) in rows {
        let found = recipe_text(rt.alloc(), text)?;
        same(&rt, text, found.as_slice(), expected);
    }
    Ok(())
}

/// A text of a given number of equal bytes.
fn repeated(byte: u8, count: usize, rt: &HostRuntime) -> Result<Vec<u8>, Fail> {
    let mut text = Vec::new(rt.alloc());
    for _ in 0..count {
        text.push(byte)?;
    }
    Ok(text)
}

#[test]
fn takes_long_texts(rt: HostRuntime) -> Result<(), Fail> {
    let long = repeated(b'y', 70_000, &rt)?;
    let found = plain(rt.alloc(), &long)?;
    assert_eq!(rt; found.as_slice(), long.as_slice());
    let found = recipe_text(rt.alloc(), &long)?;
    assert_eq!(rt; found.as_slice(), long.as_slice());
    let found = terms(&long).count();
    assert_eq!(rt; found, 1);
    Ok(())
}

#[test]
fn halves_long_runs(rt: HostRuntime) -> Result<(), Fail> {
    let mut text = repeated(b'\\', 10_001, &rt)?;
    text.push(b'#')?;
    let mut half = repeated(b'\\', 5_000, &rt)?;
    half.push(b'#')?;
    let found = plain(rt.alloc(), &text)?;
    assert_eq!(rt; found.as_slice(), half.as_slice());
    Ok(())
}

#[test]
fn tells_long_assignments(rt: HostRuntime) -> Result<(), Fail> {
    let mut line = repeated(b'y', 5_000, &rt)?;
    line.extend_from_slice(b" = z")?;
    match classify_text(&line, false) {
        Form::Assignment(name, _, value) => {
            assert_eq!(rt; name.len(), 5_000);
            assert_eq!(rt; value, b"z".as_slice());
        }
        _ => assert!(rt; false, "no assignment"),
    }
    Ok(())
}
