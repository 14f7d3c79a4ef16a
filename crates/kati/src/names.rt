//! The names that a run asks for: the program kati-asked over any files and outputs.

mod naming;
mod program;

pub use program::asked_names;
