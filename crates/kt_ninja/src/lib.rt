//! Build plans, and their text as a Ninja file.
#![tactic(auto)]

mod block;
mod checking;
mod copying;
mod escapes;
mod memory;
mod plan;
mod sink;
mod text;
mod view;

pub use checking::{
    Unwritable, command_can_hold, name_can_be_written, texts_can_be_written, writable,
    writable_view,
};
pub use copying::copied_plan;
pub use memory::MemSink;
pub use plan::{Made, Path, Plan, Statement};
pub use sink::{Sink, SinkFault, WriteFault, put};
pub use text::{write_plan, write_view};
pub use view::{NamesView, PlanNames, PlanView};
