//! The reading of one rule line.
//!
//! Takes the text of a rule line, with its references expanded, and the recipe that follows on the same line, and
//! returns an entry, which stays open for the lines of the recipe, or a fault. `src/book` then takes the entries.

mod checking;
pub(crate) mod cutting;
pub(crate) mod entry;
mod head;
mod head_names;
pub(crate) mod held_needs;
mod reader;
mod reading;
pub(crate) mod refused;
mod signs;
pub(crate) mod static_pattern;
mod written;

pub use entry::{Entry, Kind, Name, Needs, RecipeLine, StemmedNeeds, Target};
pub use reader::RuleReader;
pub use reading::read_rule;
