//! Graphs, whose names are numbers in the crate, beside graphs of names, by thousands of short books of rules.
use crate::asking::{Asked, Question, told};
use crate::sameness::same;
use kt_testing::{Random, put};
use std::alloc::Global;
use std::test::Fail;

/// How many books a test compares.
const COUNT: usize = 2000;

/// The names that rules make and need, each of one letter.
const LETTERS: &[u8] = b"abcdef";

const NAMES: &[&[u8]] = &[b"a", b"b", b"c", b"d", b"e", b"f"];

/// A rule of a letter, by the letters of what it needs.
#[derive(Drop)]
struct Rule {
    name: u8,
    needed: Vec<u8>,
    order_only: Vec<u8>,
    has_recipe: bool,
}

/// At most one rule of each letter, the last letter's first.
fn rules(alloc: Global, random: &mut Random) -> Vec<Rule> {
    let mut rules = Vec::new(alloc);
    for name in LETTERS.iter().rev() {
        let rule = Rule {
            name: *name,
            needed: random.text(alloc, NAMES, 4),
            order_only: random.text(alloc, NAMES, 3),
            has_recipe: random.below(2) == 0,
        };
        if random.below(4) > 0 {
            let _refused = rules.push(rule);
        }
    }
    rules
}

/// Letters, a space before each.
fn put_names(text: &mut Vec<u8>, names: &[u8]) {
    for name in names {
        put(text, &[b' ', *name]);
    }
}

/// The rules as a text, a line each.
fn book(alloc: Global, rules: &[Rule]) -> Vec<u8> {
    let mut text = Vec::new(alloc);
    for rule in rules {
        if !text.is_empty() {
            put(&mut text, b"\n");
        }
        put(&mut text, &[rule.name, b':']);
        put_names(&mut text, rule.needed.as_slice());
        put(&mut text, b" |");
        put_names(&mut text, rule.order_only.as_slice());
        put(&mut text, if rule.has_recipe { b";x" } else { b"" });
    }
    text
}

/// Puts the letters that aren't there yet, nor in others.
fn put_once(names: &mut Vec<u8>, more: &[u8], others: &[u8]) {
    for name in more {
        if !names.contains(name) && !others.contains(name) {
            put(names, &[*name]);
        }
    }
}

/// The letters that these reach by rules, these among them: in as many rounds as there are letters.
fn reached(alloc: Global, rules: &[Rule], names: &[u8]) -> Vec<u8> {
    let mut reached = Vec::new(alloc);
    put_once(&mut reached, names, b"");
    for _ in LETTERS {
        for rule in rules {
            if reached.contains(&rule.name) {
                put_once(&mut reached, rule.needed.as_slice(), b"");
                put_once(&mut reached, rule.order_only.as_slice(), b"");
            }
        }
    }
    reached
}

/// Whether what a rule needs reaches its own letter.
fn is_circular(alloc: Global, rules: &[Rule], rule: &Rule) -> bool {
    let by_needed = reached(alloc, rules, rule.needed.as_slice());
    let by_order_only = reached(alloc, rules, rule.order_only.as_slice());
    by_needed.contains(&rule.name) || by_order_only.contains(&rule.name)
}

fn put_statement(told: &mut Vec<u8>, alloc: Global, rule: &Rule) {
    let mut needed = Vec::new(alloc);
    let mut order_only = Vec::new(alloc);
    put_once(&mut needed, rule.needed.as_slice(), b"");
    put_once(
        &mut order_only,
        rule.order_only.as_slice(),
        needed.as_slice(),
    );
    put(told, &[rule.name, b' ', b':']);
    put_names(told, needed.as_slice());
    put(told, if order_only.is_empty() { b"" } else { b" |" });
    put_names(told, order_only.as_slice());
    put(told, if rule.has_recipe { b" ;x\n" } else { b"\n" });
}

/// What is reported of the graph of `a`.
fn told_by_names(alloc: Global, rules: &[Rule]) -> Vec<u8> {
    let mut told = Vec::new(alloc);
    let names = reached(alloc, rules, b"a");
    for rule in rules.iter().rev() {
        if names.contains(&rule.name) && is_circular(alloc, rules, rule) {
            put(&mut told, b"E28 circular: ");
            put(&mut told, &[rule.name]);
            return told;
        }
    }
    for rule in rules.iter().rev() {
        if names.contains(&rule.name) {
            put_statement(&mut told, alloc, rule);
        }
    }
    told
}

fn is_made(rules: &[Rule], name: u8) -> bool {
    rules.iter().any(|rule| rule.name == name)
}

#[test]
fn graphs_by_numbers_are_graphs_by_names(rt: HostRuntime) -> Result<(), Fail> {
    let mut random = Random::new(1);
    for _ in 0..COUNT {
        let rules = rules(rt.alloc(), &mut random);
        if is_made(rules.as_slice(), b'a') {
            let text = book(rt.alloc(), rules.as_slice());
            let asked = Asked {
                rules: text.as_slice(),
                files: b"",
                question: Question::Statements,
            };
            let found = told(rt.alloc(), asked, b"a")?;
            let wanted = told_by_names(rt.alloc(), rules.as_slice());
            same(&rt, text.as_slice(), found.as_slice(), wanted.as_slice());
        }
    }
    Ok(())
}
