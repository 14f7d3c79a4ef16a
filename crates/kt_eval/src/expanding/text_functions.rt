//! The arguments of text functions.
ghost use Rattle.std.specs.Prelude.{◌≡◌};
ghost use Rattle.kt_text.specs.views.Functions.{Answers};
ghost use Rattle.kt_eval.specs.expanding.TextFunctions.{argument, text_result};

use crate::value::Value;
use kt_text::TextFault;
use kt_text::functions::TextFunction;
use std::alloc::Global;

/// The result of a text function for its expanded arguments, of which missing ones are empty. The errors are those of
/// `TextFunction::apply`.
#[tactic(auto, unfolding(crate::specs::expanding::TextFunctions::text_result))]
pub fn text_result(
    alloc: Global,
    function: TextFunction,
    arguments: &[Value],
) -> Result<Vec<u8>, TextFault>
    ensures { Answers result (text_result function arguments.now) }
{
    let first = argument(arguments, 0);
    let second = argument(arguments, 1);
    let third = argument(arguments, 2);
    function.apply(alloc, first, second, third)
}

// The argument at a place, from 0, or an empty text.
fn argument(arguments: &[Value], place: usize) -> &[u8]
    ensures { result.now ≡ argument arguments.now place }
{
    match arguments.get(place) {
        Some(text) => text.as_slice(),
        None => b"",
    }
}
