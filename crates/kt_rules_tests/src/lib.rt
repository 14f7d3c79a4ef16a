//! Tests of kt_rules, which call what it makes public. They stand in a crate of their own, since a crate that has tests
//! is proved once more with them.
#![tactic(auto)]

#[cfg(test)]
mod adding;
#[cfg(test)]
mod asking;
#[cfg(test)]
mod fault_kinds;
#[cfg(test)]
mod noting;
#[cfg(test)]
mod numbers;
#[cfg(test)]
mod patterns;
#[cfg(test)]
mod plain_way;
#[cfg(test)]
mod reading;
#[cfg(test)]
mod sameness;
#[cfg(test)]
mod scans;
#[cfg(test)]
mod suffixes;
#[cfg(test)]
mod telling;
