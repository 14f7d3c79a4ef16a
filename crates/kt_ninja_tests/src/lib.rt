//! Tests of kt_ninja and kt_ninja_reader, which call what these make public. They stand in a crate of their own, since
//! a crate that has tests is proved once more with them.
#![tactic(auto)]

#[cfg(test)]
mod comparing;
#[cfg(test)]
mod reading;
#[cfg(test)]
mod refusing;
#[cfg(test)]
mod sameness;
#[cfg(test)]
mod spelling;
#[cfg(test)]
mod writing;
