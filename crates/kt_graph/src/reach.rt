//! The graph of the names that goals need.
ghost use Rattle.std.specs.Prelude.{◌≡◌, IfErr, IfOk};
ghost use Rattle.kt_text.specs.Words.{Text};
ghost use Rattle.kt_graph.specs.Known.{known_names};
ghost use Rattle.kt_graph.specs.faults.Faults.{IsSoundGraph};
ghost use Rattle.kt_graph.specs.views.faults.Faults.{ReportsFirst};
ghost use Rattle.kt_graph.specs.views.Reach.{HasMadeInputs};

use crate::faults::fault::GraphFault;
use crate::faults::first_trouble::first_trouble;
use crate::known::Known;
use crate::nodes::graph::Graph;
use kt_rules::{Book, Name};
use std::alloc::Global;

/// The graph of the names that goals need.
///
/// Refuses, in this order: a goal that no rule makes; a name that depends on itself; a name that is reserved for kati;
/// two made names of one file.
pub fn graph<'a>(
    alloc: Global,
    book: &'a Book,
    known: &'a Known<'a>,
    goals: &[Name],
) -> Result<Graph<'a>, GraphFault>
    ensures graph { IfOk result (IsSoundGraph book.now known.now goals.now) }
    ensures inputs { IfOk result (λ nodes. (files : Text) → known.now ≡ known_names book.now files
        → HasMadeInputs known.now nodes) }
    ensures fault { IfErr result (ReportsFirst book.now known.now goals.now) }
{
    let graph = Graph::reached(alloc, book, known, goals)?;
    match first_trouble(&graph, goals)? {
        Some(trouble) => Err(trouble.fault(alloc)),
        None => Ok(graph),
    }
}
