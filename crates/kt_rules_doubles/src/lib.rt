//! What tests need of rules: each is a line of the makefile `m`.
#![tactic(auto)]

use kt_list::Shared;
use kt_rules::{Entry, Place, RuleFault, read_rule};
use memchr::memchr;
use std::alloc::{AllocError, Global};

/// A line of `m`.
pub fn place_of(alloc: Global, line: u64) -> Result<Place, AllocError> {
    let file = Shared::from_vec(Vec::from_slice(alloc, b"m")?)?;
    Ok(Place { file, line })
}

/// A text of a recipe.
pub fn text_of(alloc: Global, bytes: &[u8]) -> Result<Shared<u8>, AllocError> {
    Shared::from_vec(Vec::from_slice(alloc, bytes)?)
}

/// The entry of a head and a recipe.
pub fn rule_of(
    alloc: Global,
    head: &[u8],
    recipe: Option<&[u8]>,
    line: u64,
) -> Result<Entry, RuleFault> {
    let place = place_of(alloc, line)?;
    match recipe {
        None => read_rule(alloc, head, None, place),
        Some(bytes) => read_rule(alloc, head, Some(text_of(alloc, bytes)?), place),
    }
}

/// The entry of a line: the head, and a recipe after the first `;`.
pub fn entry_of(alloc: Global, line: &[u8], number: u64) -> Result<Entry, RuleFault> {
    match memchr(b';', line) {
        Some(end) => rule_of(alloc, &line[..end], Some(&line[end + 1..]), number),
        None => rule_of(alloc, line, None, number),
    }
}
