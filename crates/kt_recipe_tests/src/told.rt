//! What is reported of a makefile: the messages and commands of its goals, or the automatic macros
//! of one.
use crate::sameness::same;
use kati_doubles::{files_of, put_messages, put_stop};
use kt_eval::{Automatic, Machine, Macros, MemFiles, Reading, Stop};
use kt_graph::{Graph, Known, Node, graph};
use kt_list::Sequence;
use kt_recipe::{Commands, auto_of, command};
use kt_rules::Name;
use kt_testing::put;
use std::alloc::Global;
use std::process::Abort;

/// A makefile, a list of files, goals, and what is reported.
pub(crate) type Row<'a> = (&'a str, &'a str, &'a str, &'a str);

pub(crate) fn tells(rt: &impl Abort, alloc: Global, limit: u64, rows: &[Row]) {
    for row in rows {
        let asked = Asked {
            list: row.1.as_bytes(),
            goals: row.2.as_bytes(),
            question: Question::Commands(limit),
        };
        let told = told(rt, alloc, row.0.as_bytes(), asked);
        same(rt, row.0, told.as_slice(), row.3.as_bytes());
    }
}

/// What is asked of the graph of goals.
#[derive(Clone, Copy)]
pub(crate) enum Question<'a> {
    /// The commands, by a limit of levels.
    Commands(u64),
    /// What names stand for in a part of the node of the goal.
    Values(usize, &'a [&'a [u8]]),
}

/// A list of files, goals on lines, and what is asked of their graph.
#[derive(Clone, Copy)]
pub(crate) struct Asked<'a> {
    pub(crate) list: &'a [u8],
    pub(crate) goals: &'a [u8],
    pub(crate) question: Question<'a>,
}

/// What is reported of a makefile.
pub(crate) fn told(rt: &impl Abort, alloc: Global, makefile: &[u8], asked: Asked) -> Vec<u8> {
    let mut files = files_of(alloc, &[("Makefile", makefile)], 0).expect(rt, "memory");
    let mut machine = Machine::new(alloc, Macros::new(alloc), limit(asked)).expect(rt, "memory");
    let mut told = Vec::new(alloc);
    match read(&mut machine, &mut files) {
        Ok(()) => put_reading(&mut told, rt, alloc, asked, &machine.finish()),
        Err(stop) => put_stop(&mut told, &stop),
    }
    told
}

fn limit(asked: Asked) -> u64 {
    match asked.question {
        Question::Commands(limit) => limit,
        Question::Values(_, _) => 100,
    }
}

/// Reads. It stands apart so that what the contract says of a reading burdens no other proof.
fn read(machine: &mut Machine, files: &mut MemFiles) -> Result<(), Stop> {
    machine.read_file(files, &["Makefile"])
}

/// The lines of a text as names.
fn names(rt: &impl Abort, alloc: Global, words: &[u8]) -> Vec<Name> {
    let mut names = Vec::new(alloc);
    for word in words.split(|byte| *byte == b'\n') {
        let word = Vec::from_slice(alloc, word).expect(rt, "memory");
        names.push(Name::from(word)).ok().expect(rt, "memory");
    }
    names
}

fn put_reading(
    told: &mut Vec<u8>,
    rt: &impl Abort,
    alloc: Global,
    asked: Asked,
    reading: &Reading,
) {
    let goals = names(rt, alloc, asked.goals);
    let known = Known::of(alloc, &reading.book, asked.list).expect(rt, "memory");
    match graph(alloc, &reading.book, &known, goals.as_slice()) {
        Ok(graph) => put_graph(told, rt, alloc, asked, &reading.macros, &graph),
        Err(_) => put(told, b"no graph"),
    }
}

fn put_graph(
    told: &mut Vec<u8>,
    rt: &impl Abort,
    alloc: Global,
    asked: Asked,
    macros: &Macros,
    graph: &Graph,
) {
    match asked.question {
        Question::Commands(limit) => put_commands(told, rt, alloc, macros, graph, limit),
        Question::Values(part, names) => match graph.node(asked.goals) {
            Some(node) => put_values(told, alloc, &node, part, names),
            None => put(told, b"no node"),
        },
    }
}

/// The messages and commands of the made nodes, in byte order.
fn put_commands(
    told: &mut Vec<u8>,
    rt: &impl Abort,
    alloc: Global,
    macros: &Macros,
    graph: &Graph,
    limit: u64,
) {
    let mut commands = Commands::new(alloc, macros, limit).expect(rt, "memory");
    let mut messages = Vec::new(alloc);
    let mut text = Vec::new(alloc);
    for node in graph.nodes() {
        if node.is_made() {
            let answer = made(&mut commands, &node, &mut messages);
            if !is_same(&answer, &written(alloc, &mut commands, &node, &mut text)) {
                put(told, b"written otherwise: ");
            }
            if !is_same(&answer, &made_alone(alloc, macros, &node, limit)) {
                put(told, b"alone otherwise: ");
            }
            put_command(told, &answer);
        }
    }
    put_messages(told, messages.as_slice());
}

fn put_command(told: &mut Vec<u8>, answer: &Result<Option<Vec<u8>>, Stop>) {
    match answer {
        Ok(Some(text)) => put(told, text.as_slice()),
        Ok(None) => put(told, b"phony"),
        Err(stop) => put_stop(told, stop),
    }
    put(told, b"\n");
}

/// Calls. It stands apart so that what the contract says burdens no other proof.
fn made(
    commands: &mut Commands<'_>,
    node: &Node,
    messages: &mut Vec<Sequence<u8>>,
) -> Result<Option<Vec<u8>>, Stop> {
    commands.command(node, messages)
}

/// As `made`, in a text that serves for all nodes.
fn written(
    alloc: Global,
    commands: &mut Commands<'_>,
    node: &Node,
    text: &mut Vec<u8>,
) -> Result<Option<Vec<u8>>, Stop> {
    commands.write(node, text, &mut Vec::new(alloc))?;
    if text.is_empty() {
        Ok(None)
    } else {
        Ok(Some(Vec::from_slice(alloc, text.as_slice())?))
    }
}

/// The command of one node alone.
fn made_alone(
    alloc: Global,
    macros: &Macros,
    node: &Node,
    limit: u64,
) -> Result<Option<Vec<u8>>, Stop> {
    command(alloc, macros, node, &mut Vec::new(alloc), limit)
}

fn is_same(one: &Result<Option<Vec<u8>>, Stop>, other: &Result<Option<Vec<u8>>, Stop>) -> bool {
    match (one, other) {
        (Ok(one), Ok(other)) => one == other,
        (Err(_), Err(_)) => true,
        _ => false,
    }
}

/// What names stand for in a part of a node, a line each.
fn put_values(told: &mut Vec<u8>, alloc: Global, node: &Node, part: usize, names: &[&[u8]]) {
    for name in names {
        put(told, name);
        put_value(told, alloc, node, part, name);
        put(told, b"\n");
    }
}

fn put_value(told: &mut Vec<u8>, alloc: Global, node: &Node, part: usize, name: &[u8]) {
    match auto_of(alloc, node, part).value(name) {
        Ok(Some(value)) => {
            put(told, b"=");
            put(told, value.as_slice());
        }
        Ok(None) => put(told, b" is none"),
        Err(_refused) => put(told, b" has no memory"),
    }
}
