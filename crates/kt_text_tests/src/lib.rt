//! Tests of kt_text, which call what it makes public. They stand in a crate of their own, since a crate that has tests
//! is proved once more with them.
#![tactic(auto)]

#[cfg(test)]
mod calls;
#[cfg(test)]
mod plain_way;
#[cfg(test)]
mod sameness;
#[cfg(test)]
mod scans;
