//! The reader of Ninja text: the plan that a file says.
#![tactic(auto)]

mod bytes;
mod forms;
mod joined;
mod line;
mod ninja_read;
mod paths;
mod pending_statement;
mod read_fault;
mod scopes;
mod spelling;
mod state;
mod table;

pub use ninja_read::read_plan;
pub use read_fault::ReadFault;
