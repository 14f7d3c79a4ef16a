//! Tests of kt_eval, which call what it makes public. They stand in a crate of their own, since a crate that has tests
//! is proved once more with them.
#![tactic(auto)]

#[cfg(test)]
mod expanding;
#[cfg(test)]
mod faults;
#[cfg(test)]
mod files;
#[cfg(test)]
mod reading;
#[cfg(test)]
mod sameness;
#[cfg(test)]
mod values;
