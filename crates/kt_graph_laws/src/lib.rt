//! Laws of the definitions of kt_graph.
#![tactic(auto)]

pub mod laws;
