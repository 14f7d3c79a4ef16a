//! Tests of kt_graph, which call what it makes public. They stand in a crate of their own, since a crate that has tests
//! is proved once more with them.
#![tactic(auto)]

#[cfg(test)]
mod asking;
#[cfg(test)]
mod choosing;
#[cfg(test)]
mod faulting;
#[cfg(test)]
mod goals;
#[cfg(test)]
mod graphs;
#[cfg(test)]
mod nodes;
#[cfg(test)]
mod numbering;
#[cfg(test)]
mod reading;
#[cfg(test)]
mod sameness;
#[cfg(test)]
mod sizes;
#[cfg(test)]
mod telling;
