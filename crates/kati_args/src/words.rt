//! Words that are no option: goals and macros.
ghost use Rattle.std.specs.Prelude.{◌≡◌, IfOk, MatchOption, false, find, map, option_map, true};
ghost use Rattle.std.specs.List.{after_first, list_any};
ghost use Rattle.kt_text.specs.Words.{is_equals, is_separator};
ghost use Rattle.kati_args.specs.Args.{ends_in_operator, goals_in, is_bad_macro, is_bad_macro_name, is_macro};
ghost use Rattle.kati_args.specs.Args.{is_operator, macros_in, name_before_equals};

use crate::args::{GivenName, MacroWord};
use kt_list::Sequence;
use std::alloc::{AllocError, Global};

/// What stands before the first equals sign of a word, and what stands after it.
fn split(word: &str) -> Option<(&str, &str)>
    ensures { MatchOption result (is_macro word.now ≡ false)
        (λ cut. (is_macro word.now ≡ true) × (cut.0.now ≡ name_before_equals word.now)
        × (cut.1.now ≡ after_first is_equals word.now)) }
{
    word.split_once('=')
}

#[tactic(auto, unfolding(kt_text::specs::Words::is_separator))]
fn has_separator(name: &[u8]) -> bool
    ensures { result ≡ list_any is_separator name.now }
{
    name.iter()
        .any(|byte| matches!(*byte, b' ' | b'\t' | b'\n'))
}

fn is_operator(byte: u8) -> bool
    ensures { result ≡ is_operator byte }
{
    matches!(byte, b':' | b'?' | b'+' | b'!')
}

fn ends_in_operator(name: &[u8]) -> bool
    ensures { result ≡ ends_in_operator name.now }
{
    match name.last() {
        Some(byte) => is_operator(*byte),
        None => false,
    }
}

/// Whether no macro can have the name.
fn is_bad(name: &[u8]) -> bool
    ensures { result ≡ is_bad_macro_name name.now }
{
    name.is_empty() || has_separator(name) || ends_in_operator(name)
}

fn is_bad_word(word: &str) -> bool
    ensures { result ≡ is_bad_macro word.now }
{
    match split(word) {
        Some((name, _)) => is_bad(name.as_bytes()),
        None => false,
    }
}

/// The first macro whose name no macro can have.
pub(crate) fn first_bad<'w>(words: &[&'w str]) -> Option<&'w str>
    ensures { option_map (λ word. word.now) result ≡ find is_bad_macro (map (λ word. word.now) words.now) }
{
    for word in words {
        if is_bad_word(word) {
            return Some(word);
        }
    }
    None
}

fn name_of(alloc: Global, text: &str) -> Result<GivenName, AllocError>
    ensures { IfOk result (λ name. name ≡ text.now) }
{
    GivenName::copied(alloc, text.as_bytes())
}

/// The words without an equals sign, which are targets.
pub(crate) fn goals_in(alloc: Global, words: &[&str]) -> Result<Vec<GivenName>, AllocError>
    ensures { IfOk result (λ goals. goals.items ≡ goals_in (map (λ word. word.now) words.now)) }
{
    let mut goals = Vec::new(alloc);
    for word in words {
        if split(word).is_none() {
            goals.push(name_of(alloc, word)?)?;
        }
    }
    Ok(goals)
}

fn macro_of(alloc: Global, name: &str, value: &str) -> Result<MacroWord, AllocError>
    ensures { IfOk result (λ made. (made.name ≡ name.now) × (made.value ≡ value.now)) }
{
    Ok(MacroWord {
        name: name_of(alloc, name)?,
        value: name_of(alloc, value)?,
    })
}

/// The words with an equals sign, cut at the first.
pub(crate) fn macros_in(alloc: Global, words: &[&str]) -> Result<Vec<MacroWord>, AllocError>
    ensures { IfOk result (λ macros. macros.items ≡ macros_in (map (λ word. word.now) words.now)) }
{
    let mut macros = Vec::new(alloc);
    for word in words {
        if let Some((name, value)) = split(word) {
            macros.push(macro_of(alloc, name, value)?)?;
        }
    }
    Ok(macros)
}
