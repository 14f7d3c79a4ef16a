//! What the search asks.
use kt_rules::Name;
use std::alloc::{AllocError, Global};

/// The numbers of the rules in a chain, in rising order.
pub type Used = Vec<usize>;

/// The question what makes a name, after the rules of a chain.
#[derive(Debug, PartialEq, Eq, Hash, Drop)]
pub struct Question {
    pub name: Name,
    pub used: Used,
}

impl Question {
    ghost use Rattle.std.specs.Prelude.{◌≡◌, IfOk};

    pub(crate) fn new(alloc: Global, name: &[u8], used: &[usize]) -> Result<Question, AllocError>
        ensures { IfOk result (λ question. (question.name ≡ name.now) × (question.used.items ≡ used.now)) }
    {
        Ok(Question {
            name: Name::copied(alloc, name)?,
            used: Vec::from_slice(alloc, used)?,
        })
    }
}
