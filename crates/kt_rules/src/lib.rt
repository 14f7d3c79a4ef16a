//! The rules of a makefile.
#![tactic(auto)]

mod book;
mod copying;
mod dictionary;
mod fault;
mod fault_kind;
mod index;
mod line;
mod listed;
mod name;
mod needs;
mod place;
mod refusal;
mod target;

pub use book::{Book, BookNames, BookRule, Entries, Explicit, Pattern, TargetRule, Warnings};
pub use fault::RuleFault;
pub use fault_kind::FaultKind;
pub use index::Index;
pub use line::{Entry, Kind, Name, Needs, RecipeLine, RuleReader, StemmedNeeds, Target, read_rule};
pub use name::{dotless, without_dots};
pub use needs::{NeededName, NeededNames, NeedsView};
pub use place::Place;
pub use target::{TargetView, Targets};
