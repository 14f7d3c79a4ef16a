//! Calls of the shell, joined to one command.
ghost use Rattle.std.specs.Prelude.{◌≡◌, ◌++◌, Some, OnOk};
ghost use Rattle.kt_recipe.specs.Shell.{joined, shell_call, wrapped};
ghost use Rattle.kt_recipe.specs.views.Commands.{command_in};
ghost use Rattle.kt_recipe.specs.inner.Shell.{with_joint};

use crate::quoting::put_quoted;
use std::alloc::AllocError;

// The maximum number of bytes around a shell and a piece: ` && { `, a space, two quotes, ` || :; }`.
const ROOM: usize = 17;

/// Appends a call of the shell for a piece. If the piece is marked, its failure is ignored (GNU make manual, "Errors in
/// Recipes").
#[tactic(auto, using(crate::proofs::CallLemmas::call_joined))]
pub(crate) fn put_call(
    command: &mut Vec<u8>,
    marked: bool,
    shell: &[u8],
    piece: &[u8],
) -> Result<(), AllocError>
    ensures { OnOk result (command_in command.new.items
        ≡ Some (joined (command_in command.old.items) (wrapped marked shell.now piece.now))) }
{
    command.reserve(shell.len().saturating_add(piece.len()).saturating_add(ROOM))?;
    put_joint(command)?;
    put_wrapped(command, marked, shell, piece)
}

// Appends the text between two pieces, unless the command is empty.
fn put_joint(command: &mut Vec<u8>) -> Result<(), AllocError>
    ensures { OnOk result (command.new.items ≡ with_joint command.old.items) }
{
    if !command.is_empty() {
        command.extend_from_slice(b" && ")?;
    }
    Ok(())
}

#[tactic(auto, unfolding(crate::specs::Shell::wrapped))]
fn put_wrapped(
    command: &mut Vec<u8>,
    marked: bool,
    shell: &[u8],
    piece: &[u8],
) -> Result<(), AllocError>
    ensures { OnOk result (command.new.items ≡ command.old.items ++ wrapped marked shell.now piece.now) }
{
    if !marked {
        return put_plain(command, shell, piece);
    }
    command.extend_from_slice(b"{ ")?;
    put_plain(command, shell, piece)?;
    command.extend_from_slice(b" || :; }")
}

fn put_plain(command: &mut Vec<u8>, shell: &[u8], piece: &[u8]) -> Result<(), AllocError>
    ensures { OnOk result (command.new.items ≡ command.old.items ++ shell_call shell.now piece.now) }
{
    command.extend_from_slice(shell)?;
    command.extend_from_slice(b" ")?;
    put_quoted(command, piece)
}
