//! What makes each name: the search for pattern rules, and the graph of the names that goals need.
#![tactic(auto)]

mod faults;
mod goals;
mod known;
mod nodes;
mod reach;
mod search;

pub use faults::{ALWAYS_BUILD, GraphFault};
pub use goals::{default_goal, named_goals};
pub use known::Known;
pub use nodes::{Graph, Groups, Inputs, Instance, Node, NodeKind, Nodes};
pub use reach::graph;
pub use search::{Choice, Chosen, Question, Search, Used};
