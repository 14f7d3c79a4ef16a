//! Tests of kati_args, which call what it makes public. They stand in a crate of their own, since a crate that has
//! tests is proved once more with them.
#![tactic(auto)]

#[cfg(test)]
mod asking;
#[cfg(test)]
mod sameness;
#[cfg(test)]
mod texts;
#[cfg(test)]
mod told;
