//! What the words of the command line ask for.
#![tactic(auto)]

mod args;
mod asking;
mod command;
mod fault;
mod matching;
mod word;
mod words;

pub use args::{Args, GivenName, MacroWord};
pub use asking::args_of;
pub use fault::ArgFault;
pub use word::Word;
