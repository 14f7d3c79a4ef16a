//! Plans as short texts: statements, each before a hash, then `>` and the default targets. A statement is its outputs,
//! nothing or `=` and the command, and explicit, implicit and order-only inputs, between semicolons. Each name stands
//! before a comma. Where memory is refused a plan lacks a part, so that it is none that is wanted.
#![tactic(auto)]

use kt_list::{Sequence, Text};
use kt_ninja::{Made, Path, Plan, Statement};
use kt_testing::put;
use std::alloc::Global;

// Puts names, a mark after each.
fn put_names(told: &mut Vec<u8>, names: &[Text], mark: &[u8]) {
    for name in names {
        put(told, name.as_slice());
        put(told, mark);
    }
}

fn put_name(names: &mut Vec<Path>, name: Vec<u8>) {
    let _refused = names.push(Path::from(name));
}

fn names_of(alloc: Global, field: &[u8]) -> Sequence<Path> {
    let mut names = Vec::new(alloc);
    let mut name = Vec::new(alloc);
    for byte in field {
        if *byte == b',' {
            put_name(&mut names, name);
            name = Vec::new(alloc);
        } else {
            put(&mut name, &[*byte]);
        }
    }
    Sequence::from(names)
}

fn made_of(alloc: Global, field: &[u8]) -> Made {
    match field {
        [b'=', command @ ..] => {
            let mut text = Vec::new(alloc);
            put(&mut text, command);
            Made::Command(Sequence::from(text))
        }
        _ => Made::Phony,
    }
}

/// The statement of a row. The last three semicolons part it, and the first; others are the command's.
fn statement_of(alloc: Global, row: &[u8]) -> Statement {
    let mut last = row.rsplitn(4, |byte| *byte == b';');
    let order_only = names_of(alloc, last.next().unwrap_or(b""));
    let implicit = names_of(alloc, last.next().unwrap_or(b""));
    let inputs = names_of(alloc, last.next().unwrap_or(b""));
    let mut first = last.next().unwrap_or(b"").splitn(2, |byte| *byte == b';');
    Statement {
        outs: names_of(alloc, first.next().unwrap_or(b"")),
        made: made_of(alloc, first.next().unwrap_or(b"")),
        inputs,
        implicit,
        order_only,
    }
}

/// The plan that the text is of.
pub fn plan_of(alloc: Global, text: &[u8]) -> Plan {
    let mut statements = Vec::new(alloc);
    let mut defaults = names_of(alloc, b"");
    for row in text.split(|byte| *byte == b'#') {
        match row {
            [b'>', names @ ..] => defaults = names_of(alloc, names),
            _ => {
                let _refused = statements.push(statement_of(alloc, row));
            }
        }
    }
    Plan {
        statements: Sequence::from(statements),
        defaults,
    }
}

fn put_field(text: &mut Vec<u8>, names: &[Path], end: &[u8]) {
    put_names(text, names, b",");
    put(text, end);
}

fn put_statement(text: &mut Vec<u8>, statement: &Statement) {
    put_field(text, statement.outs.as_slice(), b";");
    if let Made::Command(command) = &statement.made {
        put(text, b"=");
        put(text, command.as_slice());
    }
    put(text, b";");
    put_field(text, statement.inputs.as_slice(), b";");
    put_field(text, statement.implicit.as_slice(), b";");
    put_field(text, statement.order_only.as_slice(), b"#");
}

/// The text of the plan, with a newline after it.
pub fn shown(alloc: Global, plan: &Plan) -> Vec<u8> {
    let mut text = Vec::new(alloc);
    for statement in plan.statements.as_slice() {
        put_statement(&mut text, statement);
    }
    put(&mut text, b">");
    put_field(&mut text, plan.defaults.as_slice(), b"\n");
    text
}
