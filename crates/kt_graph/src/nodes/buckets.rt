//! Rows of numbers, such as the vertices that each vertex leads to.
ghost use Rattle.std.specs.Prelude.{◌≡◌, [], get_or, IfOk, OnOk};
ghost use Rattle.kt_graph.specs.inner.nodes.Buckets.{bare_rows, edges_from, edges_to, rows_held, with_edge, with_edges};

use std::alloc::{AllocError, Global};

/// A given number of empty rows.
pub(crate) fn bare(alloc: Global, count: usize) -> Result<Vec<Vec<u32>>, AllocError>
    ensures { IfOk result (λ rows. rows_held rows.items ≡ bare_rows count) }
{
    let mut rows = Vec::with_capacity(alloc, count)?;
    for _ in 0..count {
        rows.push(Vec::new(alloc))?;
    }
    Ok(rows)
}

/// Adds edges from one vertex.
pub(crate) fn add_all(
    rows: &mut Vec<Vec<u32>>,
    from: usize,
    numbers: &[u32],
) -> Result<(), AllocError>
    ensures { OnOk result (rows_held rows.new.items
        ≡ with_edges (rows_held rows.old.items) (edges_from from numbers.now)) }
{
    for to in numbers {
        add(rows, from, *to)?;
    }
    Ok(())
}

/// Adds edges to one vertex.
pub(crate) fn add_to(rows: &mut Vec<Vec<u32>>, to: u32, froms: &[u32]) -> Result<(), AllocError>
    ensures { OnOk result (rows_held rows.new.items
        ≡ with_edges (rows_held rows.old.items) (edges_to to froms.now)) }
{
    for from in froms {
        add(rows, *from as usize, to)?;
    }
    Ok(())
}

/// Adds an edge.
#[tactic(auto, using(crate::proofs::lemmas::nodes::BucketLemmas::rows_set))]
pub(crate) fn add(rows: &mut Vec<Vec<u32>>, from: usize, to: u32) -> Result<(), AllocError>
    ensures { OnOk result (rows_held rows.new.items ≡ with_edge (rows_held rows.old.items) (from, to)) }
{
    if let Some(row) = rows.get_mut(from) {
        row.push(to)?;
    }
    Ok(())
}

/// A row, or an empty one if there is none.
pub(crate) fn row_at(rows: &[Vec<u32>], place: usize) -> &[u32]
    ensures { result.now ≡ get_or (rows_held rows.now) place [] }
{
    match rows.get(place) {
        Some(row) => row.as_slice(),
        None => &[],
    }
}
