//! The list types of kati's public data: contracts see each as a plain list.
#![tactic(auto)]

mod hash_chains;
mod key;
mod lists;
mod names;
mod narrowing;
mod rows;
mod sequence;
mod shared;
mod short_text;
mod text;

pub use key::Key;
pub use lists::Lists;
pub use names::Names;
pub use narrowing::{narrow, narrow_sum};
pub use rows::Rows;
pub use sequence::Sequence;
pub use shared::Shared;
pub use short_text::ShortText;
pub use text::Text;
