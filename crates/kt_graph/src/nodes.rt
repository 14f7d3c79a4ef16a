//! What makes each name that goals need, and what it needs.
//!
//! Takes a book, the known names and the goals, and returns a graph: each name that is reached from a goal has a number
//! and one node, which holds what its rules say, with numbers for other names.

pub(crate) mod buckets;
mod building;
mod byte_order;
pub(crate) mod graph;
mod graph_builder;
mod grouping;
mod inferring;
mod inputs;
mod needing;
pub(crate) mod node;
mod node_table;
pub(crate) mod numbering;
mod part;
mod reached;
mod reached_name;
mod rows;
mod span;
mod stem;
pub(crate) mod stored;
pub(crate) mod tables;

pub use graph::{Graph, Nodes};
pub use grouping::Groups;
pub use node::{Inputs, Instance, Node, NodeKind};
