//! The lists of numbers of all nodes, each a row.
//! Fast: the lists of all nodes are rows of one vector, and a part takes those of the part before it where they are
//! equal. Spares an allocation for each list, and equal lists of targets that stand together.
ghost use Rattle.std.specs.Prelude.{◌≡◌, IfOk, Some, slice_get, true};
ghost use Rattle.kt_graph.specs.inner.nodes.Stored.{AreRowsOf};
ghost use Rattle.kt_list.specs.views.Prefixes.{HasMore};

use kt_list::{Rows, narrow};
use std::alloc::AllocError;

/// Whether these are the rows from a place on.
pub(crate) fn are_rows(rows: &Rows<u32>, place: u32, first: &[u32], second: &[u32]) -> bool
    ensures quick { result ≡ true → AreRowsOf rows.now first.now second.now place }
{
    is_row(rows, place as usize, first) && is_row(rows, place as usize + 1, second)
}

fn is_row(rows: &Rows<u32>, place: usize, numbers: &[u32]) -> bool
    ensures quick { result ≡ true → slice_get rows.now place ≡ Some numbers.now }
{
    match rows.row(place) {
        Some(row) => row == numbers,
        None => false,
    }
}

/// Adds two rows at the end. Beyond 4,294,967,295 the error is out of memory.
pub(crate) fn put_rows(
    rows: &mut Rows<u32>,
    first: &[u32],
    second: &[u32],
) -> Result<u32, AllocError>
    ensures grew { HasMore rows.old rows.new }
    ensures are { IfOk result (AreRowsOf rows.new first.now second.now) }
{
    let place = narrow(rows.len())?;
    rows.push_row(first)?;
    rows.push_row(second)?;
    Ok(place)
}
