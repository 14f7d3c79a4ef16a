//! Tests of kt_recipe, which call what it makes public. They stand in a crate of their own, since a crate that has
//! tests is proved once more with them.
#![tactic(auto)]

#[cfg(test)]
mod automatic;
#[cfg(test)]
mod commands;
#[cfg(test)]
mod quoting;
#[cfg(test)]
mod sameness;
#[cfg(test)]
mod told;
