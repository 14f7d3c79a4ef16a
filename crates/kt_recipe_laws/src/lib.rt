//! Laws of the definitions of kt_recipe.
#![tactic(auto)]

pub mod laws;
