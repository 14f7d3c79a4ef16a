//! The commands of recipes, with their automatic macros.
#![tactic(auto)]

mod automatic;
mod calls;
mod commands;
mod forms;
mod kept;
pub mod laws;
mod lines;
mod plain;
mod prepared;
mod quoting;
mod shell;
mod subjects;

pub use automatic::{PartMacros, auto_of};
pub use commands::Commands;
pub use shell::command;
