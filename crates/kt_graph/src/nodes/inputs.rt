//! The inputs of a node, from the rows of its parts.
//! Fast: that a node's inputs differ is told by numbers that rise, but for the first, or by sorting them, and of up to
//! 8 by comparing them; they are then the rows of its only part. Spares a set for each node, and rows of its own.
ghost use Rattle.std.specs.Prelude.{◌≡◌, [], fold, nat_eq, nat_lt, true, IfOk, OnOk};
ghost use Rattle.std.specs.List.{IsDistinct, list_all};
ghost use Rattle.kt_graph.specs.inner.nodes.Inputs.{HasOwnInputs, differ, inputs_held, numbers_without, others_held};
ghost use Rattle.kt_graph.specs.inner.nodes.Inputs.{rise, rise_after, rise_but_first, with_input_number};

use crate::nodes::stored::HeldPart;
use indexmap::IndexSet;
use kt_list::Rows;
use std::alloc::{AllocError, Global};

// Up to this many numbers are compared with one another.
const FEW: usize = 8;

/// Whether the prerequisites of a part are the inputs of a node without other parts, as in most nodes: none is
/// order-only, and none is repeated.
pub(crate) fn has_own_inputs(
    alloc: Global,
    rows: &Rows<u32>,
    part: &HeldPart,
) -> Result<bool, AllocError>
    ensures quick { IfOk result (λ own. own ≡ true → HasOwnInputs rows.now part.now) }
{
    let order_only = rows.row_at(part.needs as usize + 1);
    if !order_only.is_empty() {
        return Ok(false);
    }
    are_distinct(alloc, rows.row_at(part.needs as usize))
}

/// The prerequisites of parts, each once.
pub(crate) fn input_set(
    alloc: Global,
    rows: &Rows<u32>,
    parts: &[HeldPart],
) -> Result<IndexSet<u32>, AllocError>
    ensures { IfOk result (λ inputs. inputs.keys ≡ inputs_held rows.now parts.now) }
{
    let mut inputs = IndexSet::new(alloc);
    for part in parts {
        add_all(&mut inputs, rows.row_at(part.needs as usize))?;
    }
    Ok(inputs)
}

/// The order-only prerequisites of parts, each once and without the inputs.
pub(crate) fn order_only_set(
    alloc: Global,
    rows: &Rows<u32>,
    parts: &[HeldPart],
    inputs: &IndexSet<u32>,
) -> Result<IndexSet<u32>, AllocError>
    ensures { IfOk result (λ others. others.keys
        ≡ fold with_input_number [] (numbers_without inputs.now.keys (others_held rows.now parts.now))) }
{
    let mut others = IndexSet::new(alloc);
    for part in parts {
        add_others(&mut others, inputs, rows.row_at(part.needs as usize + 1))?;
    }
    Ok(others)
}

fn add_all(set: &mut IndexSet<u32>, numbers: &[u32]) -> Result<(), AllocError>
    ensures { OnOk result (set.new.keys ≡ fold with_input_number set.old.keys numbers.now) }
{
    for number in numbers {
        set.insert(*number)?;
    }
    Ok(())
}

// Adds those numbers that aren't among others.
fn add_others(
    set: &mut IndexSet<u32>,
    others: &IndexSet<u32>,
    numbers: &[u32],
) -> Result<(), AllocError>
    ensures { OnOk result (set.new.keys ≡ fold with_input_number set.old.keys
        (numbers_without others.now.keys numbers.now)) }
{
    for number in numbers {
        if !others.contains(number) {
            set.insert(*number)?;
        }
    }
    Ok(())
}

// Whether no number is repeated: each is greater than the one before, or they are sorted first. Sorting is cheaper
// than a set, and comparing a few with one another is cheaper than sorting. A source that was just reached may come
// before headers that other nodes need, too.
fn are_distinct(alloc: Global, numbers: &[u32]) -> Result<bool, AllocError>
    ensures quick { IfOk result (λ distinct. distinct ≡ true → IsDistinct nat_eq numbers.now) }
{
    if rise(numbers) {
        return Ok(true);
    }
    if numbers.len() <= FEW {
        return Ok(differ(numbers));
    }
    if rise_but_first(numbers) {
        return Ok(true);
    }
    let mut sorted = Vec::from_slice(alloc, numbers)?;
    sorted.sort_unstable();
    Ok(rise(sorted.as_slice()))
}

// Whether each number isn't among those after it.
#[tactic(auto, unfolding(crate::specs::inner::nodes::Inputs::differ))]
fn differ(numbers: &[u32]) -> bool
    ensures { result ≡ differ numbers.now }
{
    let mut left = numbers;
    while let [number, after @ ..] = left {
        if after.contains(number) {
            return false;
        }
        left = after;
    }
    true
}

// Whether each number is greater than the one before.
#[tactic(auto, unfolding(crate::specs::inner::nodes::Inputs::rise))]
fn rise(numbers: &[u32]) -> bool
    ensures { result ≡ rise numbers.now }
{
    match numbers.split_first() {
        None => true,
        Some((first, later)) => rise_after(*first, later),
    }
}

// Whether the first number is greater than a given one, and each other number than the one before it.
#[tactic(auto, unfolding(crate::specs::inner::nodes::Inputs::rise_after))]
fn rise_after(first: u32, numbers: &[u32]) -> bool
    ensures { result ≡ rise_after first numbers.now }
{
    let mut last = first;
    for number in numbers {
        if *number <= last {
            return false;
        }
        last = *number;
    }
    true
}

// Whether the first number is greater than all others, and each of these than the one before it.
#[tactic(auto, unfolding(crate::specs::inner::nodes::Inputs::rise_but_first))]
fn rise_but_first(numbers: &[u32]) -> bool
    ensures { result ≡ rise_but_first numbers.now }
{
    match numbers.split_first() {
        None => true,
        Some((first, later)) => rise(later) && are_below(*first, later),
    }
}

fn are_below(bound: u32, numbers: &[u32]) -> bool
    ensures { result ≡ list_all (λ number. nat_lt number bound) numbers.now }
{
    numbers.iter().all(|number| *number < bound)
}
