//! What goals need, as a plan that Ninja's text is written of.
//!
//! Takes a graph and its makefile, and returns the groups of the graph's nodes, each with its command: a statement is
//! read from these as it is printed, and none is built.

mod graph_plan;
mod name_list;
mod planning;
mod sketch;
mod statements;

pub(crate) use graph_plan::GraphPlan;
pub(crate) use planning::Planner;
