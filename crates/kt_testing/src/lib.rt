//! What the tests of every crate need: texts to compare, and texts that look random.
#![tactic(auto)]

mod lines;
mod random;
mod texts;

pub use lines::{marked, put_run};
pub use random::Random;
pub use texts::put;
