//! The host's words, files and outputs, for the programs.
#![tactic(auto)]

mod files;
mod output;
mod words;

pub use files::HostFiles;
pub use output::HostSink;
pub use words::{Wordless, words_of};
