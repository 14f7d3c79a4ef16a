//! Laws of the definitions of kt_ninja_reader.
#![tactic(auto)]

pub mod laws;
