//! Tests of kt_syntax, which call what it makes public. They stand in a crate of their own, since a crate that has
//! tests is proved once more with them.
#![tactic(auto)]

#[cfg(test)]
mod lines;
#[cfg(test)]
mod nesting;
#[cfg(test)]
mod plain_way;
#[cfg(test)]
mod random_lines;
#[cfg(test)]
mod sameness;
#[cfg(test)]
mod scans;
