//! The commands of nodes.
ghost use Rattle.std.specs.Prelude.{◌≡◌, None, length, map, option_map};
ghost use Rattle.std.specs.Cow.{cow_slice_items};
ghost use Rattle.std.specs.List.{range_with_len};
ghost use Rattle.kt_eval.specs.views.expanding.Pure.{Says};
ghost use Rattle.kt_recipe.specs.Automatic.{automatic_in};
ghost use Rattle.kt_recipe.specs.Lines.{pieces_of_line};
ghost use Rattle.kt_recipe.specs.Shell.{expansion, put_line, put_lines, put_part, put_parts, put_piece, put_pieces};
ghost use Rattle.kt_recipe.specs.Shell.{shell_of, shell_text};
ghost use Rattle.kt_recipe.specs.views.Commands.{command_in};
ghost use Rattle.kt_recipe.specs.inner.Shell.{setting_at};

use crate::automatic::auto_of;
use crate::calls::put_call;
use crate::commands::{Commands, Expander};
use crate::kept::KeptLines;
use crate::lines::{after_run, is_marked, is_one_piece, pieces};
use kt_eval::{Macros, Stop};
use kt_graph::Node;
use kt_list::Sequence;
use kt_rules::{Place, RecipeLine};
use std::alloc::Global;
use std::borrow::CowSlice;

impl<'m> Commands<'m> {
    /// The command of a node: the pieces of its recipes, each for a shell of its own, joined by `&&` (GNU make manual,
    /// "Recipe Execution"). `None` if no recipe has a piece.
    ///
    /// Messages are appended in order; if memory runs out, a prefix of them is.
    pub fn command(
        &mut self,
        node: &Node,
        messages: &mut Vec<Sequence<u8>>,
    ) -> Result<Option<Vec<u8>>, Stop>
        ensures says { Says (option_map (λ text. text.items))
            (shell_of self.old.table self.old.limit node.now)
            result messages.old.items messages.new.items }
        ensures same { self.new ≡ self.old }
    {
        let mut command = Vec::new(self.expander.alloc());
        self.write(node, &mut command, messages)?;
        Ok(some_text(command))
    }

    /// As `command`, but it replaces the contents of a text, which is empty afterwards if no recipe has a piece. So one
    /// text can serve for the commands of many nodes, one after another.
    #[tactic(auto, unfolding(crate::specs::Shell::shell_of))]
    pub fn write(
        &mut self,
        node: &Node,
        command: &mut Vec<u8>,
        messages: &mut Vec<Sequence<u8>>,
    ) -> Result<(), Stop>
        ensures says { Says (λ _. command_in command.new.items)
            (shell_of self.old.table self.old.limit node.now)
            result messages.old.items messages.new.items }
        ensures same { self.new ≡ self.old }
    {
        command.clear();
        put_parts(
            &self.expander,
            &mut self.lines,
            &mut self.text,
            node,
            command,
            messages,
        )
    }
}

/// The command of a node with these macros and this limit of levels, as `Commands` makes it.
pub fn command(
    alloc: Global,
    macros: &Macros,
    node: &Node,
    messages: &mut Vec<Sequence<u8>>,
    limit: u64,
) -> Result<Option<Vec<u8>>, Stop>
    ensures { Says (option_map (λ text. text.items))
        (shell_of macros.now limit node.now)
        result messages.old.items messages.new.items }
{
    let mut commands = Commands::new(alloc, macros, limit)?;
    commands.command(node, messages)
}

fn some_text(command: Vec<u8>) -> Option<Vec<u8>>
    ensures { option_map (λ text. text.items) result ≡ command_in command.items }
{
    if command.is_empty() {
        None
    } else {
        Some(command)
    }
}

// Appends the commands of a node's parts.
#[tactic(auto, unfolding(crate::specs::Shell::put_parts))]
fn put_parts(
    expander: &Expander<'_>,
    kept: &mut KeptLines<'_>,
    text: &mut Vec<u8>,
    node: &Node,
    command: &mut Vec<u8>,
    messages: &mut Vec<Sequence<u8>>,
) -> Result<(), Stop>
    requires { kept.old ≡ expander.now }
    ensures says { Says (λ _. command_in command.new.items)
        (put_parts expander.now.table expander.now.limit node.now (range_with_len 0 (length node.now.parts))
        (command_in command.old.items))
        result messages.old.items messages.new.items }
    ensures same { kept.new ≡ kept.old }
{
    for part in 0..node.parts() {
        let shell = Shell {
            expander,
            node,
            part,
        };
        shell.put_part(kept, text, command, messages)?;
    }
    Ok(())
}

// What the lines of a part's recipe are expanded with.
#[derive(Clone, Copy)]
struct Shell<'a, 'm, 'g> {
    expander: &'a Expander<'m>,
    node: &'a Node<'g>,
    part: usize,
}

impl<'a, 'm, 'g> Shell<'a, 'm, 'g> {
    // Appends the command of the part.
    #[tactic(auto, unfolding(crate::specs::Shell::put_part))]
    fn put_part(
        &self,
        kept: &mut KeptLines<'_>,
        text: &mut Vec<u8>,
        command: &mut Vec<u8>,
        messages: &mut Vec<Sequence<u8>>,
    ) -> Result<(), Stop>
        requires { kept.old ≡ self.now.expander.now }
        ensures says { Says (λ _. command_in command.new.items)
            (put_part self.now.expander.now.table self.now.expander.now.limit self.now.node.now self.now.part
            (command_in command.old.items))
            result messages.old.items messages.new.items }
        ensures same { kept.new ≡ kept.old }
    {
        match self.node.recipe(self.part) {
            Some(lines) => self.put_lines(lines, kept, text, command, messages),
            None => Ok(()),
        }
    }

    #[tactic(auto, unfolding(crate::specs::Shell::put_lines))]
    fn put_lines(
        &self,
        lines: &[RecipeLine],
        kept: &mut KeptLines<'_>,
        text: &mut Vec<u8>,
        command: &mut Vec<u8>,
        messages: &mut Vec<Sequence<u8>>,
    ) -> Result<(), Stop>
        requires { kept.old ≡ self.now.expander.now }
        ensures says { Says (λ _. command_in command.new.items)
            (put_lines self.now.expander.now.table (automatic_in self.now.node.now self.now.part)
            self.now.expander.now.limit lines.now (command_in command.old.items))
            result messages.old.items messages.new.items }
        ensures same { kept.new ≡ kept.old }
    {
        for (number, line) in lines.iter().enumerate() {
            self.put_line(number, line, kept, text, command, messages)?;
        }
        Ok(())
    }

    // Appends the commands of the line with a number. It is expanded only if its expansion isn't known but for
    // automatic macros.
    fn put_line(
        &self,
        number: usize,
        line: &RecipeLine,
        kept: &mut KeptLines<'_>,
        text: &mut Vec<u8>,
        command: &mut Vec<u8>,
        messages: &mut Vec<Sequence<u8>>,
    ) -> Result<(), Stop>
        requires { kept.old ≡ self.now.expander.now }
        ensures says { Says (λ _. command_in command.new.items)
            (put_line (setting_at self.now line.now.place) line.now.text (command_in command.old.items))
            result messages.old.items messages.new.items }
        ensures same { kept.new ≡ kept.old }
    {
        let bare = after_run(line.text.as_slice());
        if kept.fill(number, bare, self.node, self.part, text)? {
            let marked = is_marked(line.text.as_slice());
            return self.put_text(&line.place, marked, text.as_slice(), command, messages);
        }
        self.put_expanded(line, command, messages)
    }

    // Appends the commands of a line, which is expanded.
    #[tactic(auto, unfolding(crate::specs::Shell::put_line))]
    fn put_expanded(
        &self,
        line: &RecipeLine,
        command: &mut Vec<u8>,
        messages: &mut Vec<Sequence<u8>>,
    ) -> Result<(), Stop>
        ensures { Says (λ _. command_in command.new.items)
            (put_line (setting_at self.now line.now.place) line.now.text (command_in command.old.items))
            result messages.old.items messages.new.items }
    {
        let line_text = line.text.as_slice();
        let text = self.expand(&line.place, after_run(line_text), messages)?;
        let marked = is_marked(line_text);
        self.put_text(&line.place, marked, text.as_slice(), command, messages)
    }

    // Appends the commands of an expanded line.
    fn put_text(
        &self,
        place: &Place,
        marked: bool,
        text: &[u8],
        command: &mut Vec<u8>,
        messages: &mut Vec<Sequence<u8>>,
    ) -> Result<(), Stop>
        ensures { Says (λ _. command_in command.new.items)
            (put_pieces (setting_at self.now place.now) marked (pieces_of_line text.now) (command_in command.old.items))
            result messages.old.items messages.new.items }
    {
        if is_one_piece(text) {
            return self.put_piece(place, marked, text, command, messages);
        }
        let pieces = pieces(self.expander.alloc(), text)?;
        self.put_pieces(place, marked, pieces.as_slice(), command, messages)
    }

    #[tactic(auto, unfolding(crate::specs::Shell::put_pieces))]
    fn put_pieces(
        &self,
        place: &Place,
        marked: bool,
        pieces: &[&[u8]],
        command: &mut Vec<u8>,
        messages: &mut Vec<Sequence<u8>>,
    ) -> Result<(), Stop>
        ensures { Says (λ _. command_in command.new.items)
            (put_pieces (setting_at self.now place.now) marked (map (λ piece. piece.now) pieces.now)
            (command_in command.old.items))
            result messages.old.items messages.new.items }
    {
        for piece in pieces {
            self.put_piece(place, marked, *piece, command, messages)?;
        }
        Ok(())
    }

    // Appends the command of a piece, unless it is empty. The shell is expanded for each piece.
    #[tactic(auto, unfolding(crate::specs::Shell::put_piece))]
    fn put_piece(
        &self,
        place: &Place,
        marked: bool,
        piece: &[u8],
        command: &mut Vec<u8>,
        messages: &mut Vec<Sequence<u8>>,
    ) -> Result<(), Stop>
        ensures { Says (λ _. command_in command.new.items)
            (put_piece (setting_at self.now place.now) marked piece.now (command_in command.old.items))
            result messages.old.items messages.new.items }
    {
        let text = after_run(piece);
        if text.is_empty() {
            return Ok(());
        }
        let shell = self.shell(place, messages)?;
        put_call(command, marked || is_marked(piece), shell.as_slice(), text)?;
        Ok(())
    }

    // The shell for a piece. It is expanded only if one of its values has to be.
    #[tactic(auto, using(crate::proofs::PlainLemmas::shell_is))]
    fn shell(
        &self,
        place: &Place,
        messages: &mut Vec<Sequence<u8>>,
    ) -> Result<CowSlice<'_, u8>, Stop>
        ensures { Says cow_slice_items
            (expansion (setting_at self.now place.now) shell_text)
            result messages.old.items messages.new.items }
    {
        match self.expander.plain_shell() {
            Some(shell) => Ok(CowSlice::Borrowed(shell)),
            None => {
                let shell = self.expand(place, b"$(SHELL) $(.SHELLFLAGS)", messages)?;
                Ok(CowSlice::Owned(shell))
            }
        }
    }

    #[tactic(auto, unfolding(crate::specs::Shell::expansion))]
    fn expand(
        &self,
        place: &Place,
        text: &[u8],
        messages: &mut Vec<Sequence<u8>>,
    ) -> Result<Vec<u8>, Stop>
        ensures { Says (λ v. v.items)
            (expansion (setting_at self.now place.now) text.now)
            result messages.old.items messages.new.items }
    {
        let automatic = auto_of(self.expander.alloc(), self.node, self.part);
        let place = place.share()?;
        self.expander.expand(text, &automatic, place, messages)
    }
}
