//! Tests of kt_list, which call what it makes public. They stand in a crate of their own, since a crate that has tests
//! is proved once more with them.
#![tactic(auto)]

#[cfg(test)]
mod lists;
#[cfg(test)]
mod names;
#[cfg(test)]
mod rows;
#[cfg(test)]
mod sameness;
#[cfg(test)]
mod sequences;
#[cfg(test)]
mod texts;
