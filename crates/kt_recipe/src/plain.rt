//! A shell whose values expand to themselves.
//! Fast: a shell whose two values are their own texts is expanded once a run. Spares its expansion for each piece of a
//! recipe.
ghost use Rattle.std.specs.Prelude.{◌≡◌, ◌++◌, ◌==◌, IfOk, codes, option_map};
ghost use Rattle.std.specs.List.{list_any};
ghost use Rattle.kt_eval.specs.macros.Macros.{find};
ghost use Rattle.kt_recipe.specs.inner.Plain.{expands_to_itself, plain_shell, plain_value};

use kt_eval::{Flavour, Macros};
use std::alloc::{AllocError, Global};

/// The expansion of `$(SHELL) $(.SHELLFLAGS)`, if both values expand to themselves, as they mostly do: then nothing has
/// to be expanded for a piece.
#[tactic(auto, unfolding(crate::specs::inner::Plain::plain_shell))]
pub(crate) fn plain_shell(
    alloc: Global,
    macros: &Macros,
    limit: u64,
) -> Result<Option<Vec<u8>>, AllocError>
    ensures { IfOk result (λ found. option_map (λ text. text.items) found ≡ plain_shell macros.now limit) }
{
    match (
        plain_value(macros, b"SHELL", limit),
        plain_value(macros, b".SHELLFLAGS", limit),
    ) {
        (Some(shell), Some(flags)) => Ok(Some(spaced(alloc, shell, flags)?)),
        _ => Ok(None),
    }
}

// The value of a macro, if it expands to itself.
#[tactic(auto, unfolding(crate::specs::inner::Plain::plain_value))]
fn plain_value<'a>(macros: &'a Macros, name: &[u8], limit: u64) -> Option<&'a [u8]>
    ensures { option_map (λ value. value.now) result ≡ plain_value limit (find name.now macros.now) }
{
    let found = macros.get(name)?;
    let value = found.value.as_slice();
    if is_plain(found.flavour, value, limit) {
        Some(value)
    } else {
        None
    }
}

// Whether a value expands to itself: it is immediate, or it has no dollar and a level is left.
fn is_plain(flavour: Flavour, value: &[u8], limit: u64) -> bool
    ensures { result ≡ expands_to_itself limit flavour value.now }
{
    match flavour {
        Flavour::Immediate => true,
        Flavour::Deferred => limit != 0 && !has_dollar(value),
    }
}

fn has_dollar(text: &[u8]) -> bool
    ensures { result ≡ list_any (λ byte. byte == 36) text.now }
{
    text.iter().any(|byte| *byte == b'$')
}

// Two texts with a space between them.
fn spaced(alloc: Global, first: &[u8], second: &[u8]) -> Result<Vec<u8>, AllocError>
    ensures { IfOk result (λ text. text.items ≡ (first.now ++ codes " ") ++ second.now) }
{
    let room = first.len().saturating_add(second.len()).saturating_add(1);
    let mut text = Vec::with_capacity(alloc, room)?;
    text.extend_from_slice(first)?;
    text.extend_from_slice(b" ")?;
    text.extend_from_slice(second)?;
    Ok(text)
}
