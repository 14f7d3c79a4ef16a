//! Tests of kati, which call what it makes public. They stand in a crate of their own, since a crate that has tests is
//! proved once more with them.
#![tactic(auto)]

#[cfg(test)]
mod calls;
mod in_memory;
#[cfg(test)]
mod names;
#[cfg(test)]
mod runs;
#[cfg(test)]
mod sameness;

pub use in_memory::{ran_in_memory, translated_in_memory};
