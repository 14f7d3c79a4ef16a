//! Texts between single quotes.
ghost use Rattle.std.specs.Prelude.{◌≡◌, ◌++◌, ◌+◌, ◌<◌, OnOk, drop, flat_map, length};
ghost use Rattle.kt_recipe.specs.Quoting.{quoted, quoted_byte};

use memchr::memchr;
use std::alloc::AllocError;

/// Appends a text between single quotes, as a shell reads it back (POSIX.1-2024 Shell Command
/// Language, "Single-Quotes").
#[tactic(auto, unfolding(crate::specs::Quoting::quoted))]
pub(crate) fn put_quoted(command: &mut Vec<u8>, text: &[u8]) -> Result<(), AllocError>
    ensures { OnOk result (command.new.items ≡ command.old.items ++ quoted text.now) }
{
    command.push(b'\'')?;
    put_between_quotes(command, text)?;
    command.push(b'\'')?;
    Ok(())
}

// Appends a text that is between quotes. Each single quote in it ends them, is after a backslash, and begins new ones.
#[tactic(auto, using(crate::proofs::QuotingLemmas::no_quote))]
fn put_between_quotes(command: &mut Vec<u8>, text: &[u8]) -> Result<(), AllocError>
    ensures { OnOk result (command.new.items ≡ command.old.items ++ flat_map quoted_byte text.now) }
{
    let mut rest = text;
    while let Some(at) = memchr(b'\'', rest) {
        command.extend_from_slice(&rest[..at])?;
        command.extend_from_slice(b"'\\''")?;
        rest = after(rest, at);
    }
    command.extend_from_slice(rest)
}

// The text after a byte.
fn after(text: &[u8], at: usize) -> &[u8]
    requires { at < length text.now }
    ensures { result.now ≡ drop (at + 1) text.now }
{
    &text[at + 1..]
}
