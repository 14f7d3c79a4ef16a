//! What references ask for, and what text functions give.
use crate::sameness::same;
use kt_eval::{Function, Request, TextFunction, Value, names_plainly, text_result};
use kt_syntax::Mark;
use kt_testing::put;
use std::alloc::Global;
use std::test::Fail;

/// References by mark and body, and what each asks for.
const REFERENCES: [(Mark, &str, &str); 8] = [
    (Mark::Parentheses, "if a,(b,c),d,e", "if[a][(b,c)][d,e]"),
    (Mark::Parentheses, "filter a,b", "filter[a][b]"),
    (Mark::Braces, "subst {a,b},c,d", "subst[{a,b}][c][d]"),
    (Mark::Parentheses, "call f,a,b", "other[f][a][b]"),
    (Mark::Parentheses, "shell ls", "refused shell"),
    (Mark::Parentheses, "filter", "name filter"),
    (Mark::Parentheses, "a b:c=d", "name a b:c=d"),
    (Mark::Byte, "x", "name x"),
];

/// What a reference asks for, in words.
fn put_asked(out: &mut Vec<u8>, asked: &Request<'_>) {
    match asked {
        Request::Calls(function, arguments) => {
            put(out, name_of(*function));
            for argument in arguments {
                put(out, b"[");
                put(out, *argument);
                put(out, b"]");
            }
        }
        Request::Refuses(name) => {
            put(out, b"refused ");
            put(out, *name);
        }
        Request::Refers(body) => {
            put(out, b"name ");
            put(out, *body);
        }
    }
}

fn name_of(function: Function) -> &'static [u8] {
    match function {
        Function::Text(text_function) => text_function.name(),
        Function::If => b"if",
        _ => b"other",
    }
}

#[test]
fn tells_what_is_asked(rt: HostRuntime) -> Result<(), Fail> {
    for (mark, body, expected) in REFERENCES {
        let asked = Request::by(rt.alloc(), mark, body.as_bytes())?;
        let mut told = Vec::new(rt.alloc());
        put_asked(&mut told, &asked);
        same(&rt, body, told.as_slice(), expected.as_bytes());
    }
    Ok(())
}

#[test]
fn tells_plain_names(rt: HostRuntime) {
    for (mark, body, plain) in [
        (Mark::Parentheses, "CC", true),
        (Mark::Braces, "a.b-c", true),
        (Mark::Byte, "@", true),
        (Mark::Byte, "", false),
        (Mark::Byte, "ab", false),
        (Mark::Parentheses, "a b", false),
        (Mark::Parentheses, "A:b=c", false),
        (Mark::Braces, "$x", false),
    ] {
        same(&rt, body, names_plainly(mark, body.as_bytes()), plain);
    }
}

/// The arguments of a function, apart from one another by a comma.
fn values(alloc: Global, texts: &[&str]) -> Result<Vec<Value>, Fail> {
    let mut values = Vec::new(alloc);
    for text in texts {
        values.push(Value::copied(alloc, text.as_bytes())?)?;
    }
    Ok(values)
}

#[test]
fn applies_text_functions(rt: HostRuntime) -> Result<(), Fail> {
    let rows: [(TextFunction, &[&str], &str); 4] = [
        (TextFunction::Subst, &["a", "b", "aca"], "bcb"),
        (TextFunction::Filter, &["%.c", "a.c b.o"], "a.c"),
        (TextFunction::Words, &["a b c"], "3"),
        (TextFunction::Join, &["a b"], "a b"),
    ];
    for (function, texts, expected) in rows {
        let arguments = values(rt.alloc(), texts)?;
        match text_result(rt.alloc(), function, arguments.as_slice()) {
            Ok(text) => assert_eq!(rt; text.as_slice(), expected.as_bytes()),
            Err(_) => assert_eq!(rt; expected, "refused"),
        }
    }
    Ok(())
}
