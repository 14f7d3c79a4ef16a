//! The text functions that expand nothing, over texts that are expanded already.
//!
//! GNU make manual, "Functions for String Substitution and Analysis" and "Functions for File
//! Names". Each has the name that it has there.

mod list;
mod names;
mod number;
mod patterns;
mod sorting;
mod substitution;
mod text_function;

pub use list::{firstword, join, lastword, strip, word, wordlist, words};
pub use names::{addprefix, addsuffix, basename, dir, notdir, suffix};
pub use sorting::sort;
pub use substitution::{filter, filter_out, findstring, patsubst, subst};
pub use text_function::TextFunction;
