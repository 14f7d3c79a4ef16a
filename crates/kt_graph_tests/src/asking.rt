//! Graphs of rules, a line each with a recipe after the first `;`, and what is reported of them.
use crate::reading::{names, takes_all};
use crate::telling::{put_fault, put_graph, put_inputs, put_kind, put_number};
use kt_graph::{Graph, GraphFault, Instance, Known, Node, graph};
use kt_rules::{Book, Name};
use kt_testing::put;
use std::alloc::{AllocError, Global};

/// What is asked of a graph.
#[derive(Clone, Copy)]
pub(crate) enum Question<'a> {
    Statements,
    Node(&'a [u8]),
    Count,
}

/// Rules and a list of files, and what is asked of the graph that goals have by them.
#[derive(Clone, Copy)]
pub(crate) struct Asked<'a> {
    pub(crate) rules: &'a [u8],
    pub(crate) files: &'a [u8],
    pub(crate) question: Question<'a>,
}

/// What is reported where the words of a text are the goals.
pub(crate) fn told(alloc: Global, asked: Asked, goals: &[u8]) -> Result<Vec<u8>, AllocError> {
    let mut told = Vec::new(alloc);
    put_told_of(&mut told, alloc, asked, goals)?;
    Ok(told)
}

fn put_told_of(
    told: &mut Vec<u8>,
    alloc: Global,
    asked: Asked,
    goals: &[u8],
) -> Result<(), AllocError> {
    let goals = names(alloc, goals)?;
    put_told(told, alloc, asked, goals.as_slice())
}

/// What is reported, or what is wrong.
pub(crate) fn put_told(
    told: &mut Vec<u8>,
    alloc: Global,
    asked: Asked,
    goals: &[Name],
) -> Result<(), AllocError> {
    let mut book = Book::new(alloc)?;
    if takes_all(alloc, &mut book, asked.rules) {
        put_by_book(told, alloc, &book, asked, goals)
    } else {
        put(told, b"no book");
        Ok(())
    }
}

fn put_by_book(
    told: &mut Vec<u8>,
    alloc: Global,
    book: &Book,
    asked: Asked,
    goals: &[Name],
) -> Result<(), AllocError> {
    let known = Known::of(alloc, book, asked.files)?;
    put_outcome(
        told,
        alloc,
        graph(alloc, book, &known, goals),
        asked.question,
    );
    Ok(())
}

fn put_outcome(
    told: &mut Vec<u8>,
    alloc: Global,
    outcome: Result<Graph, GraphFault>,
    question: Question,
) {
    match outcome {
        Ok(graph) => put_answer(told, alloc, &graph, question),
        Err(fault) => put_fault(told, &fault),
    }
}

fn put_answer(told: &mut Vec<u8>, alloc: Global, graph: &Graph, question: Question) {
    match question {
        Question::Statements => put_graph(told, alloc, graph),
        Question::Node(name) => match graph.node(name) {
            Some(node) => put_node(told, node),
            None => put(told, b"not reached"),
        },
        Question::Count => put_number(told, count(graph)),
    }
}

/// The kind, then for each part its stem and all that it needs.
fn put_node(told: &mut Vec<u8>, node: Node) {
    put_kind(told, node.kind());
    for part in 0..node.parts() {
        put(told, b" [");
        put(told, node.stem(part));
        put(told, b"]");
        put_inputs(told, node.prerequisites(part));
        put(told, b" |");
        put_inputs(told, node.order_only_prerequisites(part));
    }
    put_instance(told, node.instance());
}

fn put_instance(told: &mut Vec<u8>, instance: Option<&Instance>) {
    match instance {
        Some(Instance::Group(first)) => {
            put(told, b" group ");
            put(told, first.as_slice());
        }
        Some(
            Instance::Pattern {
                directory,
                stem,
                ..
            },
        ) => {
            put(told, b" pattern ");
            put(told, directory.as_slice());
            put(told, b",");
            put(told, stem.as_slice());
        }
        None => {}
    }
}

/// How many nodes a graph has.
fn count(graph: &Graph) -> usize {
    let mut count = 0usize;
    for _ in graph.nodes() {
        count = count.saturating_add(1);
    }
    count
}
