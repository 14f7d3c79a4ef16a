//! Which names lead to which.
//! Fast: the edges of a name are in its node; a group is a vertex of its own, and what all its names need is added to
//! it once. Spares a list for each node, and the product of targets and prerequisites in a group.
ghost use Rattle.std.specs.Prelude.{◌≡◌, ◌++◌, [], IfOk, OnOk, true};
ghost use Rattle.kt_graph.specs.inner.faults.Edges.{AddsNode, AreEdgesOf, AreMadeBelow, AreNeededBelow, AreReversed};
ghost use Rattle.kt_graph.specs.inner.faults.Edges.{HaveEdges, IsRepeated, LeadToVertices, making_edges, vertex_count};
ghost use Rattle.kt_graph.specs.inner.faults.Edges.{edge_row, listed_number, next_of, numbers_after};
ghost use Rattle.kt_graph.specs.inner.nodes.Stored.{needed_numbers};
ghost use Rattle.kt_graph.specs.inner.faults.Edges.{makings_edges};
ghost use Rattle.kt_graph.specs.inner.nodes.Buckets.{rows_held, with_edges};
ghost use Rattle.kt_graph.specs.inner.nodes.Stored.{stored_at};

use crate::nodes::buckets::{add_all, add_to, bare, row_at};
use crate::nodes::stored::StoredNodes;
use kt_list::{narrow, narrow_sum};
use std::alloc::{AllocError, Global};
use std::slice::from_ref;

/// The edges between vertices, by number.
///
/// A vertex is a name or, after the names, a making of several names: each of these names leads to the making, and the
/// making to all that they need. The edges of a name are in its node, so only makings have rows.
#[derive(Drop)]
pub(crate) struct Edges<'n> {
    alloc: Global,
    nodes: &'n StoredNodes<'n>,
    // The vertices of the makings.
    makings: Vec<u32>,
    rows: Vec<Vec<u32>>,
}

impl<'n> Edges<'n> {
    /// The edges of nodes.
    pub(crate) fn of(
        alloc: Global,
        nodes: &'n StoredNodes<'n>,
        instances: usize,
    ) -> Result<Edges<'n>, AllocError>
        requires made { AreMadeBelow instances nodes.now }
        requires needed { AreNeededBelow nodes.now }
        ensures edges { IfOk result (AreEdgesOf nodes.now) }
        ensures within { IfOk result LeadToVertices }
    {
        let makings = making_numbers(alloc, nodes.len(), instances)?;
        let rows = making_rows(alloc, nodes, instances)?;
        Ok(Edges {
            alloc,
            nodes,
            makings,
            rows,
        })
    }

    /// The number of vertices.
    pub(crate) fn count(&self) -> usize
        ensures { result ≡ vertex_count self.now }
    {
        self.nodes.len() + self.rows.len()
    }

    /// The vertices that a vertex leads to, in two parts.
    #[tactic(auto, using(crate::proofs::lemmas::faults::EdgeLemmas::row_after))]
    pub(crate) fn next(&self, vertex: usize) -> (&[u32], &[u32])
        ensures { result.0.now ++ result.1.now ≡ next_of self.now vertex }
    {
        if vertex < self.nodes.len() {
            return self.next_by(vertex);
        }
        (row_at(self.rows.as_slice(), vertex - self.nodes.len()), &[])
    }

    /// These edges reversed: a row for each vertex, and no nodes. A vertex beyond 4,294,967,295 is refused as if memory
    /// were.
    pub(crate) fn reversed<'e>(&self, none: &'e StoredNodes<'e>) -> Result<Edges<'e>, AllocError>
        requires within { LeadToVertices self.now }
        requires none { none.now ≡ [] }
        ensures { IfOk result (AreReversed self.now) }
    {
        let mut rows = bare(self.alloc, self.count())?;
        for vertex in 0..self.count() {
            let to = narrow(vertex)?;
            let (next, more) = self.next(vertex);
            add_to(&mut rows, to, next)?;
            add_to(&mut rows, to, more)?;
        }
        Ok(Edges {
            alloc: self.alloc,
            nodes: none,
            makings: Vec::new(self.alloc),
            rows,
        })
    }

    // The vertices that a name leads to, from its node.
    fn next_by(&self, name: usize) -> (&[u32], &[u32])
        ensures { result.0.now ++ result.1.now ≡ edge_row self.now.makings.items (stored_at self.now.nodes.now name) }
    {
        match self.nodes.made_with(name) {
            None => (self.nodes.inputs(name), self.nodes.order_only(name)),
            Some(making) => (one_at(self.makings.as_slice(), making), &[]),
        }
    }
}

fn one_at(numbers: &[u32], place: usize) -> &[u32]
    ensures { result.now ≡ listed_number numbers.now place }
{
    match numbers.get(place) {
        Some(number) => from_ref(number),
        None => &[],
    }
}

// The vertices of a number of makings, which are after those of names. Beyond 4,294,967,295 they are refused as if
// memory were.
#[tactic(auto, using(crate::proofs::lemmas::faults::EdgeLemmas::numbers_more))]
fn making_numbers(alloc: Global, names: usize, count: usize) -> Result<Vec<u32>, AllocError>
    ensures { IfOk result (λ numbers. numbers.items ≡ numbers_after names count) }
{
    let mut numbers = Vec::new(alloc);
    for making in 0..count {
        numbers.push(narrow_sum(names, making)?)?;
    }
    Ok(numbers)
}

// For each making, what its names need. What all names of a group need isn't added for each of them.
#[tactic(auto, using(std::proofs::lemmas::List::take_all))]
fn making_rows(
    alloc: Global,
    nodes: &StoredNodes,
    count: usize,
) -> Result<Vec<Vec<u32>>, AllocError>
    ensures { IfOk result (λ rows. HaveEdges count (makings_edges nodes.now) (rows_held rows.items)) }
{
    let mut rows = bare(alloc, count)?;
    for number in 0..nodes.len() {
        add_new(&mut rows, nodes, number)?;
    }
    Ok(rows)
}

#[tactic(auto, using(crate::proofs::lemmas::faults::EdgeLemmas::edges_again))]
fn add_new(rows: &mut Vec<Vec<u32>>, nodes: &StoredNodes, number: usize) -> Result<(), AllocError>
    ensures { OnOk result (AddsNode nodes.now number (rows_held rows.old.items) (rows_held rows.new.items)) }
{
    if is_repeated(nodes, number) {
        return Ok(());
    }
    add_node(rows, nodes, number)
}

// Whether a node has the making and the inputs of the one before.
fn is_repeated(nodes: &StoredNodes, number: usize) -> bool
    ensures quick { result ≡ true → IsRepeated nodes.now number }
{
    match number.checked_sub(1) {
        Some(before) => nodes.are_alike(before, number),
        None => false,
    }
}

fn add_node(rows: &mut Vec<Vec<u32>>, nodes: &StoredNodes, number: usize) -> Result<(), AllocError>
    ensures { OnOk result (rows_held rows.new.items ≡ with_edges (rows_held rows.old.items)
        (making_edges (stored_at nodes.now number).made_with (needed_numbers (stored_at nodes.now number)))) }
{
    if let Some(making) = nodes.made_with(number) {
        add_all(rows, making, nodes.inputs(number))?;
        add_all(rows, making, nodes.order_only(number))?;
    }
    Ok(())
}
