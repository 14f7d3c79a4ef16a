//! Laws of the definitions of kati and kati_args.
#![tactic(auto)]

pub mod arguments;
pub mod laws;
