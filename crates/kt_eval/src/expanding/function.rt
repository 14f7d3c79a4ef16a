//! The functions of the makefile language.
use kt_text::functions::TextFunction;

/// A function (GNU make manual, "Functions for Transforming Text").
#[derive(Clone, Copy, Debug, PartialEq, Eq)]
pub enum Function {
    Text(TextFunction),
    If,
    Or,
    And,
    Foreach,
    Call,
    Value,
    Eval,
    Error,
    Warning,
    Info,
}
