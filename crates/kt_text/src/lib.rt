//! Lines, words, patterns and the text functions of the makefile language, over bytes.
#![tactic(auto)]

mod blanks;
mod byte;
mod condense;
mod cut;
mod fault;
pub mod functions;
mod line;
mod logical;
mod mark;
mod output;
mod pattern;
mod physical;
mod separators;
mod sort_key;
mod word_ends;
mod word_runs;

pub use blanks::{is_blank, trim_end, trim_start};
pub use byte::has_byte;
pub use condense::{condensed, joined};
pub use cut::words;
pub use fault::TextFault;
pub use line::{Line, LineFault};
pub use logical::{line_marks, logical_lines, nul_line};
pub use mark::LineMark;
pub use pattern::{has_percent, match_pattern, push_with_stem};
pub use physical::{is_continued, line_content};
pub use separators::{is_separator, stripped, stripped_start, trailing_separators};
pub use sort_key::{SortKey, front_number};
pub use word_runs::Words;
