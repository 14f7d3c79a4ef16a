//! What the tests of several crates need: words, files and outputs over memory, and what is
//! reported of a run.
#![tactic(auto)]

mod devices;
mod texts;

pub use devices::{files_of, sink_of, words_of};
pub use texts::{put_messages, put_stop};
