//! Expands texts.
//!
//! Takes a text with references, the macros, the bound names, and the number of levels that remain, and returns the
//! text without references, or a fault. Messages, assignments and rules on the way go to the evaluation.

mod applying;
pub(crate) mod calls;
mod expansion;
pub(crate) mod frames;
mod function;
mod pure;
mod sole;
mod text_functions;

pub use calls::{Request, names_plainly};
pub use function::Function;
pub use text_functions::text_result;
