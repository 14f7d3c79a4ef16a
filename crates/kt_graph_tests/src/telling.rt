//! What the tests compare: answers as texts.
use kt_graph::{Graph, GraphFault, Groups, Inputs, Node, NodeKind};
use kt_testing::put;
use std::alloc::Global;

/// A number of one digit, the last.
pub(crate) fn put_digit(told: &mut Vec<u8>, number: usize) {
    put(told, &[b'0' + (number % 10) as u8]);
}

/// A number of six digits.
pub(crate) fn put_number(told: &mut Vec<u8>, number: usize) {
    put_digit(told, number / 100_000);
    put_digit(told, number / 10_000);
    put_digit(told, number / 1000);
    put_digit(told, number / 100);
    put_digit(told, number / 10);
    put_digit(told, number);
}

/// Names, a space before each.
pub(crate) fn put_inputs(told: &mut Vec<u8>, inputs: Inputs) {
    for name in inputs {
        put(told, b" ");
        put(told, name);
    }
}

/// The made names of a graph as statements, a line each: the names that one making makes, what they need, after a
/// semicolon the recipe of the first, and at the end `=` if several hold their inputs together.
pub(crate) fn put_graph(told: &mut Vec<u8>, alloc: Global, graph: &Graph) {
    match graph.groups() {
        Ok(groups) => put_groups(told, alloc, graph, groups),
        Err(_) => put(told, b"memory"),
    }
}

// There are no more groups than nodes.
fn put_groups<'g>(told: &mut Vec<u8>, alloc: Global, graph: &'g Graph, groups: Groups<'g>) {
    let mut groups = groups;
    let mut group = Vec::new(alloc);
    for _ in graph.nodes() {
        let shares = groups.next_shares_inputs();
        match groups.next_into(&mut group) {
            Ok(true) => {
                put_group(told, group.as_slice());
                put_shared(told, shares && group.len() > 1);
                put(told, b"\n");
            }
            Ok(false) => return,
            Err(_) => {
                put(told, b"memory");
                return;
            }
        }
    }
}

fn put_group(told: &mut Vec<u8>, group: &[Node]) {
    for node in group {
        put(told, node.name());
        put(told, b" ");
    }
    put(told, b":");
    for node in group {
        put_inputs(told, node.inputs());
    }
    for node in group {
        put_order_only(told, node);
    }
    if let [first, ..] = group {
        put_recipe(told, first);
    }
}

fn put_shared(told: &mut Vec<u8>, shares: bool) {
    if shares {
        put(told, b"=");
    }
}

fn put_order_only(told: &mut Vec<u8>, node: &Node) {
    let names = node.order_only();
    if names.len() > 0 {
        put(told, b" |");
        put_inputs(told, names);
    }
}

/// The recipes of a node's parts, each after a semicolon.
fn put_recipe(told: &mut Vec<u8>, node: &Node) {
    for part in 0..node.parts() {
        for line in node.recipe(part).unwrap_or(&[]) {
            put(told, b" ;");
            put(told, line.text.as_slice());
        }
    }
}

/// A fault as a line.
pub(crate) fn put_fault(told: &mut Vec<u8>, fault: &GraphFault) {
    match fault {
        GraphFault::Memory => put(told, b"memory"),
        GraphFault::Refused { number, words } => {
            put(
                told,
                &[b'E', b'0' + number / 10 % 10, b'0' + number % 10, b' '],
            );
            put(told, words.as_slice());
        }
    }
}

pub(crate) fn put_kind(told: &mut Vec<u8>, kind: NodeKind) {
    put(
        told,
        match kind {
            NodeKind::DoubleColon => b"double".as_slice(),
            NodeKind::Explicit => b"explicit".as_slice(),
            NodeKind::Implicit => b"implicit".as_slice(),
            NodeKind::Phony => b"phony".as_slice(),
            NodeKind::Leaf => b"leaf".as_slice(),
        },
    );
}
