//! The syntax of makefiles: terms of a text, kinds of lines, blocks of lines.
#![tactic(auto)]

mod comment;
mod cut;
mod flat;
mod form;
mod front;
mod heads;
mod kind;
mod leading;
mod line_text;
mod mask;
mod nesting;
mod next_term;
mod own;
mod part;
mod places;
mod recipe;
mod role;
mod short_step;
mod step;
mod step_list;
mod symbol;
mod term;
mod term_list;

pub use comment::plain;
pub use cut::terms;
pub use flat::Blocks;
pub use form::{Directive, Form, Operator};
pub use heads::{RuleParts, TargetSpecific, rule_parts};
pub use kind::{begins_comment, classify, classify_text};
pub use line_text::LineText;
pub use nesting::{blocks, marked_blocks};
pub use part::{Missing, Stray};
pub use recipe::recipe_text;
pub use step::BlockStep;
pub use term::{Mark, Term, Unterminated};
pub use term_list::Terms;
