//! Names that depend on themselves.
//! Fast: cycles are looked for by counts of arrivals, and edges are turned round only where a vertex is left. Spares a
//! second list of all edges where there is no cycle.
//! Fast: a walk over the graph holds its own stack. Spares the depth of the system's.
ghost use Rattle.std.specs.Prelude.{◌≡◌, ◌↔◌, ◌-◌, ◌&&◌, ℕ, [], All, IsTrue, MatchOption, fold, get_or, nat_eq};
ghost use Rattle.std.specs.Prelude.{flat_map, replicate, set, slice_get, false, true, IfOk, List, OnErr, OnOk, Some};
ghost use Rattle.kt_graph.specs.inner.faults.Arrivals.{AreCounted, IsLeftIn, LeavesCircular, is_left, with_arrival};
ghost use Rattle.kt_graph.specs.inner.faults.Arrivals.{without_arrival};
ghost use Rattle.kt_graph.specs.inner.faults.Edges.{LeadToVertices, HoldsCircular, IsFirstBack, LeadsBack, Visits};
ghost use Rattle.kt_graph.specs.inner.faults.Edges.{edge_rows, holds_in, next_of, vertex_count, work_with};

use crate::faults::edges::Edges;
use crate::nodes::stored::StoredNodes;
use std::alloc::{AllocError, Global};

/// The first number of an order that leads back to itself, if one does.
///
/// Counting edges mostly shows that none does: a vertex that no remaining vertex leads to is removed, again and again,
/// until none remains. Otherwise the same is done with the edges reversed, and the first is looked for among the
/// vertices that remain both times: those on a cycle or on a path between cycles.
pub(crate) fn first_circular(
    alloc: Global,
    edges: &Edges<'_>,
    none: &StoredNodes<'_>,
    order: &[u32],
) -> Result<Option<usize>, AllocError>
    requires within { LeadToVertices edges.now }
    requires none { none.now ≡ [] }
    ensures { IfOk result (λ found. MatchOption found (All
        (λ vertex. ¬ LeadsBack edges.now vertex) order.now) (IsFirstBack edges.now order.now)) }
{
    let arrivals = arrivals_left(alloc, edges)?;
    if is_none_left(arrivals.as_slice()) {
        return Ok(None);
    }
    let reversed = edges.reversed(none)?;
    let departures = arrivals_left(alloc, &reversed)?;
    let held = left_in_both(alloc, arrivals.as_slice(), departures.as_slice())?;
    LeftVertices { alloc, held }.first_back(edges, order)
}

// For each vertex, the number of edges to it from remaining vertices, after each vertex without any was removed.
#[tactic(auto, using(crate::proofs::lemmas::faults::ArrivalLemmas::begun))]
fn arrivals_left(alloc: Global, edges: &Edges<'_>) -> Result<Vec<u32>, AllocError>
    ensures { IfOk result (λ counts. LeavesCircular edges.now counts.items) }
{
    let mut counts = arrivals(alloc, edges)?;
    let mut work = Vec::new(alloc);
    for vertex in 0..edges.count() {
        leave(&mut counts, vertex, &mut work)?;
        leave_after(edges, &mut counts, &mut work)?;
    }
    Ok(counts)
}

// The number of edges to each vertex, and one more until the vertex has had its turn.
fn arrivals(alloc: Global, edges: &Edges<'_>) -> Result<Vec<u32>, AllocError>
    ensures { IfOk result (λ counts. counts.items
        ≡ fold with_arrival (replicate (vertex_count edges.now) 1) (flat_map (λ row. row) (edge_rows edges.now))) }
{
    let mut counts = vec![in alloc; 1u32; edges.count()]?;
    for vertex in 0..edges.count() {
        let (next, more) = edges.next(vertex);
        arrive_all(&mut counts, next)?;
        arrive_all(&mut counts, more)?;
    }
    Ok(counts)
}

fn arrive_all(counts: &mut Vec<u32>, vertices: &[u32]) -> Result<(), AllocError>
    ensures { OnOk result (counts.new.items ≡ fold with_arrival counts.old.items vertices.now) }
{
    for vertex in vertices {
        arrive(counts, *vertex as usize)?;
    }
    Ok(())
}

// A count beyond 4,294,967,295 is refused as if memory were.
fn arrive(counts: &mut Vec<u32>, vertex: usize) -> Result<(), AllocError>
    ensures arrived { OnOk result (counts.new.items ≡ with_arrival counts.old.items vertex) }
    ensures full { OnErr result (slice_get counts.old.items vertex ≡ Some 4294967295) }
{
    if let Some(count) = counts.get_mut(vertex) {
        match count.checked_add(1) {
            Some(more) => *count = more,
            None => return Err(AllocError),
        }
    }
    Ok(())
}

// Removes the edges of removed vertices until the work list is empty.
fn leave_after(
    edges: &Edges<'_>,
    counts: &mut Vec<u32>,
    work: &mut Vec<usize>,
) -> Result<(), AllocError>
    ensures done { OnOk result (work.new.items ≡ []) }
    ensures counted { OnOk result ((rest : List ℕ) → AreCounted edges.now counts.old.items work.old.items rest
        → AreCounted edges.now counts.new.items [] rest) }
{
    while let Some(vertex) = work.pop() {
        let (next, more) = edges.next(vertex);
        leave_all(counts, next, work)?;
        leave_all(counts, more, work)?;
    }
    Ok(())
}

fn leave_all(
    counts: &mut Vec<u32>,
    vertices: &[u32],
    work: &mut Vec<usize>,
) -> Result<(), AllocError>
    ensures { OnOk result ((counts.new.items, work.new.items)
        ≡ fold without_arrival (counts.old.items, work.old.items) vertices.now) }
{
    for vertex in vertices {
        leave(counts, *vertex as usize, work)?;
    }
    Ok(())
}

// Removes one edge to a vertex. If it was the last one, the vertex is removed, too: it goes to the work list.
fn leave(counts: &mut Vec<u32>, vertex: usize, work: &mut Vec<usize>) -> Result<(), AllocError>
    ensures { OnOk result ((counts.new.items, work.new.items)
        ≡ without_arrival (counts.old.items, work.old.items) vertex) }
{
    if is_last(counts, vertex) {
        work.push(vertex)?;
    }
    Ok(())
}

// Counts one edge to a vertex less, and returns whether it was the last one.
fn is_last(counts: &mut Vec<u32>, vertex: usize) -> bool
    ensures was { result ≡ nat_eq (get_or counts.old.items vertex 0) 1 }
    ensures gone { counts.new.items ≡ set counts.old.items vertex (get_or counts.old.items vertex 0 - 1) }
{
    match counts.get_mut(vertex) {
        Some(count) => {
            let was = *count;
            *count = was.saturating_sub(1);
            was == 1
        }
        None => false,
    }
}

fn is_none_left(counts: &[u32]) -> bool
    ensures { IsTrue result ↔ All (λ count. count ≡ 0) counts.now }
{
    !counts.iter().any(|count| *count != 0)
}

// The vertices that remain in both directions.
// Idle: all vertices.
#[tactic(auto, using(crate::proofs::lemmas::faults::ArrivalLemmas::held_more))]
fn left_in_both(
    alloc: Global,
    arrivals: &[u32],
    departures: &[u32],
) -> Result<Vec<bool>, AllocError>
    ensures quick { IfOk result (λ held. (vertex : ℕ) → IsLeftIn arrivals.now vertex → IsLeftIn departures.now vertex
        → holds_in held.items vertex ≡ true) }
{
    let mut held = Vec::with_capacity(alloc, arrivals.len())?;
    for vertex in 0..arrivals.len() {
        held.push(are_both_left(arrivals, departures, vertex))?;
    }
    Ok(held)
}

fn are_both_left(arrivals: &[u32], departures: &[u32], vertex: usize) -> bool
    ensures { result ≡ (is_left (get_or arrivals.now vertex 0) && is_left (get_or departures.now vertex 0)) }
{
    is_left(arrivals, vertex) && is_left(departures, vertex)
}

fn is_left(counts: &[u32], vertex: usize) -> bool
    ensures { result ≡ is_left (get_or counts.now vertex 0) }
{
    counts.get(vertex).copied().unwrap_or(0) != 0
}

// The vertices that remain.
#[derive(Drop)]
struct LeftVertices {
    alloc: Global,
    held: Vec<bool>,
}

impl LeftVertices {
    fn holds(&self, vertex: usize) -> bool
        ensures { result ≡ holds_in self.now.held.items vertex }
    {
        self.held.as_slice().get(vertex).copied().unwrap_or(false)
    }

    // The first vertex of an order that leads back to itself.
    #[tactic(auto, using(std::proofs::lemmas::List::take_all, crate::proofs::lemmas::faults::CircleLemmas::first_at))]
    fn first_back(&self, edges: &Edges<'_>, order: &[u32]) -> Result<Option<usize>, AllocError>
        requires { HoldsCircular edges.now self.now.held.items }
        ensures { IfOk result (λ found. MatchOption found (All
            (λ vertex. ¬ LeadsBack edges.now vertex) order.now) (IsFirstBack edges.now order.now)) }
    {
        for vertex in order {
            if self.is_circular(edges, *vertex as usize)? {
                return Ok(Some(*vertex as usize));
            }
        }
        Ok(None)
    }

    // Whether a vertex leads to itself in one step or more.
    fn is_circular(&self, edges: &Edges<'_>, vertex: usize) -> Result<bool, AllocError>
        requires { HoldsCircular edges.now self.now.held.items }
        ensures { IfOk result (λ leads. IsTrue leads ↔ LeadsBack edges.now vertex) }
    {
        if self.holds(vertex) {
            self.leads_back(edges, vertex)
        } else {
            Ok(false)
        }
    }

    // Searches among the remaining vertices: a cycle has no others.
    #[tactic(auto, using(crate::proofs::lemmas::faults::CircleLemmas::searches_on))]
    fn leads_back(&self, edges: &Edges<'_>, vertex: usize) -> Result<bool, AllocError>
        requires { HoldsCircular edges.now self.now.held.items }
        ensures { IfOk result (λ leads. IsTrue leads ↔ LeadsBack edges.now vertex) }
    {
        let mut unvisited = Vec::from_slice(self.alloc, self.held.as_slice())?;
        let mut work = Vec::new(self.alloc);
        visit_next(edges, vertex, &mut unvisited, &mut work)?;
        while let Some(other) = work.pop() {
            if other == vertex {
                return Ok(true);
            }
            visit_next(edges, other, &mut unvisited, &mut work)?;
        }
        Ok(false)
    }
}

// Adds to the work list the unvisited vertices that a vertex leads to.
fn visit_next(
    edges: &Edges<'_>,
    vertex: usize,
    unvisited: &mut Vec<bool>,
    work: &mut Vec<usize>,
) -> Result<(), AllocError>
    ensures { OnOk result (Visits (next_of edges.now vertex) unvisited.old.items unvisited.new.items
        work.old.items work.new.items) }
{
    let (next, more) = edges.next(vertex);
    visit(next, unvisited, work)?;
    visit(more, unvisited, work)?;
    Ok(())
}

// Adds to the work list the unvisited ones of some vertices.
fn visit(
    vertices: &[u32],
    unvisited: &mut Vec<bool>,
    work: &mut Vec<usize>,
) -> Result<(), AllocError>
    ensures { OnOk result (Visits vertices.now unvisited.old.items unvisited.new.items work.old.items work.new.items) }
{
    for vertex in vertices {
        take(unvisited, *vertex as usize, work)?;
    }
    Ok(())
}

// Adds a vertex to the work list if it is marked, and removes its mark.
fn take(marks: &mut Vec<bool>, vertex: usize, work: &mut Vec<usize>) -> Result<(), AllocError>
    ensures taken { OnOk result (marks.new.items ≡ set marks.old.items vertex false) }
    ensures noted { OnOk result (work.new.items ≡ work_with (holds_in marks.old.items vertex) work.old.items vertex) }
{
    if is_taken(marks, vertex) {
        work.push(vertex)?;
    }
    Ok(())
}

// Removes the mark at a place, and returns whether there was one.
fn is_taken(marks: &mut Vec<bool>, place: usize) -> bool
    ensures was { result ≡ holds_in marks.old.items place }
    ensures taken { marks.new.items ≡ set marks.old.items place false }
{
    match marks.get_mut(place) {
        Some(mark) => {
            let was = *mark;
            *mark = false;
            was
        }
        None => false,
    }
}
