//! Laws of the definitions of kt_eval.
#![tactic(auto)]

pub mod laws;
