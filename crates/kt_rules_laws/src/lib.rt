//! Laws of the definitions of kt_rules.
#![tactic(auto)]

pub mod laws;
