//! What is wrong with a graph as a whole.
//!
//! Takes the nodes of a graph and its goals, and returns the first of: a goal that no rule makes, a name that depends
//! on itself, a reserved name, two names of one file; or that nothing is wrong.

mod cycles;
pub(crate) mod edges;
pub(crate) mod fault;
mod files;
pub(crate) mod first_trouble;
mod paths;
mod spelling;
pub(crate) mod trouble;

pub use fault::GraphFault;
pub use paths::ALWAYS_BUILD;
