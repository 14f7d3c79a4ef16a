//! Translates a makefile to a Ninja file: the command line, a run, and the program over any files and outputs.
#![tactic(auto)]

mod checking;
mod expecting;
mod faults;
mod goals;
pub mod laws;
mod listing;
mod makefile;
mod names;
mod outcome;
mod plan;
mod program;
mod running;
mod status;
mod telling;
mod translating;
mod words;

pub use faults::RunFault;
pub use kati_args::{ArgFault, Args, args_of};
pub use names::asked_names;
pub use outcome::Outcome;
pub use program::{USAGE, finish, refuse, whole};
pub use running::run;
pub use status::Status;
pub use translating::translate;
