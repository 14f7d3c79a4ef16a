//! Macros, functions and the reading of makefiles.
#![tactic(auto)]

mod evaluation;
mod expanding;
mod fault;
mod files;
pub mod laws;
mod macros;
mod reading;
mod state;
mod stop;
mod value;

pub use expanding::{Function, Request, names_plainly, text_result};
pub use fault::Fault;
pub use files::{FileFault, Files, LARGEST_FILE, MemFiles};
pub use kt_text::functions::TextFunction;
pub use macros::{Automatic, Flavour, Macro, Macros, Makefile, NoAutomatic, Origin};
pub use reading::{Machine, Reading};
pub use stop::Stop;
pub use value::Value;
