//! What an assignment does, from its operator and the old macro.
ghost use Rattle.std.specs.Prelude.{◌≡◌, IfOk, option_map};
ghost use Rattle.kt_eval.specs.macros.Macros.{appending, assigning, reassigning, assigning_new, with_dollars_doubled};
ghost use Rattle.kt_eval.specs.inner.Views.{assigning_view};

use crate::macros::{Flavour, Macro, Origin};
use crate::value::Value;
use kt_syntax::Operator;
use std::alloc::{AllocError, Global};

/// What an assignment does with its text.
#[derive(Drop)]
pub(crate) enum Assigning {
    /// The macro stays as it is.
    Keeps,
    /// The text as written becomes the deferred value, after this old value and a space if there is one.
    Defers(Option<Value>),
    /// The expanded text becomes the immediate value, after this old value and a space if there is one.
    Expands(Option<Value>),
    /// The expanded text with each dollar doubled becomes the deferred value.
    Escapes,
}

// What an assignment does to a macro. It doesn't change one of the command line.
#[tactic(auto, unfolding(crate::specs::macros::Macros::assigning))]
pub(crate) fn assignment_of(
    operator: Operator,
    old: Option<&Macro>,
) -> Result<Assigning, AllocError>
    ensures { IfOk result (λ found. assigning_view found
        ≡ assigning operator (option_map (λ entry. entry.now) old.entry)) }
{
    match old {
        None => Ok(assigning_new(operator)),
        Some(entry) => match entry.origin {
            Origin::CommandLine => Ok(Assigning::Keeps),
            Origin::Makefile => reassigning(operator, entry),
        },
    }
}

fn assigning_new(operator: Operator) -> Assigning
    ensures { assigning_view result ≡ assigning_new operator }
{
    match operator {
        Operator::Deferred | Operator::Conditional | Operator::Append => Assigning::Defers(None),
        Operator::Immediate => Assigning::Expands(None),
        Operator::Escaped => Assigning::Escapes,
        Operator::Shell => Assigning::Keeps,
    }
}

fn reassigning(operator: Operator, old: &Macro) -> Result<Assigning, AllocError>
    ensures { IfOk result (λ found. assigning_view found ≡ reassigning operator old.now) }
{
    match operator {
        Operator::Deferred => Ok(Assigning::Defers(None)),
        Operator::Immediate => Ok(Assigning::Expands(None)),
        Operator::Escaped => Ok(Assigning::Escapes),
        Operator::Conditional | Operator::Shell => Ok(Assigning::Keeps),
        Operator::Append => appending(old),
    }
}

// Appends to the old value, after a space. The old value is shared, not copied.
fn appending(old: &Macro) -> Result<Assigning, AllocError>
    ensures { IfOk result (λ found. assigning_view found ≡ appending old.now.flavour old.now.value) }
{
    let front = Some(old.value.share()?);
    match old.flavour {
        Flavour::Deferred => Ok(Assigning::Defers(front)),
        Flavour::Immediate => Ok(Assigning::Expands(front)),
    }
}

// A text with each dollar doubled.
#[tactic(auto, unfolding(crate::specs::macros::Macros::with_dollars_doubled))]
pub(crate) fn doubled(alloc: Global, text: &[u8]) -> Result<Vec<u8>, AllocError>
    ensures { IfOk result (λ whole. whole.items ≡ with_dollars_doubled text.now) }
{
    let mut whole = Vec::new(alloc);
    for byte in text {
        if *byte == b'$' {
            whole.push(b'$')?;
        }
        whole.push(*byte)?;
    }
    Ok(whole)
}
