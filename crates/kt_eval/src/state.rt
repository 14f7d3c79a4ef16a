//! What is known and changed while makefiles are read.
ghost use Rattle.std.specs.Prelude.{◌≡◌};

use crate::macros::Flavour;
use crate::value::Value;
use kt_list::Sequence;

/// The flavour and value of a name while it is used.
#[derive(Debug, Drop)]
pub struct FoundValue {
    pub flavour: Flavour,
    pub value: Value,
}

/// What remains of a term after all that needs no further level was appended.
#[derive(Debug, Drop)]
pub(crate) enum TermRest {
    Nothing,
    /// A value that has to be expanded.
    Value(Value),
    /// All of it.
    Whole,
}

/// A binding of `foreach` or `call` (GNU make manual, "The foreach Function" and "The call Function").
#[derive(Debug, Drop)]
pub enum Frame {
    /// The name of a loop's variable, and its current word.
    Loop(Value, Value),
    /// The arguments of a call, the first of which is the name of the called macro.
    Call(Sequence<Value>),
}
