//! What the commands of a makefile are made with.
ghost use Rattle.std.specs.Prelude.{◌≡◌, IfOk, Some, option_map};
ghost use Rattle.kt_eval.specs.views.expanding.Pure.{Says};

use crate::kept::KeptLines;
use crate::plain::plain_shell;
use kt_eval::{Automatic, Macros, Stop};
use kt_list::Sequence;
use kt_rules::Place;
use std::alloc::{AllocError, Global};
use std::marker::Model;

/// Expands texts of recipes. If both values of the shell expand to themselves, as they mostly do, the shell is expanded
/// here, once for all pieces.
#[derive(Drop)]
pub(crate) struct Expander<'m> {
    alloc: Global,
    macros: &'m Macros,
    limit: u64,
    shell: Option<Vec<u8>>,
}

impl<'m> Model for Expander<'m> {
    ghost use Rattle.std.specs.Prelude.{◌≡◌, option_map};
    ghost use Rattle.kt_recipe.specs.views.Commands.{Commands};
    ghost use Rattle.kt_recipe.specs.inner.Plain.{plain_shell};

    ghost Value = { Commands };

    ghost view = { λ expander. record { table = expander.macros.now; limit = expander.limit } };

    ghost invariant = { λ expander. option_map (λ text. text.items) expander.shell
        ≡ plain_shell expander.macros.now expander.limit };
}

impl<'m> Expander<'m> {
    ghost use Rattle.kt_eval.specs.expanding.Pure.{expanded_pure};
    ghost use Rattle.kt_recipe.specs.inner.Plain.{plain_shell};

    fn new(alloc: Global, macros: &'m Macros, limit: u64) -> Result<Expander<'m>, AllocError>
        ensures { IfOk result (λ expander. expander ≡ record { table = macros.now; limit = limit }) }
    {
        let shell = plain_shell(alloc, macros, limit)?;
        Ok(Expander {
            alloc,
            macros,
            limit,
            shell,
        })
    }

    pub(crate) fn alloc(&self) -> Global {
        self.alloc
    }

    // The shell of all pieces, if its values expand to themselves.
    pub(crate) fn plain_shell(&self) -> Option<&[u8]>
        ensures { option_map (λ text. text.now) result ≡ plain_shell self.now.table self.now.limit }
    {
        match &self.shell {
            Some(shell) => Some(shell.as_slice()),
            None => None,
        }
    }

    // Expands a text of a recipe.
    pub(crate) fn expand<A: Automatic>(
        &self,
        text: &[u8],
        automatic: &A,
        place: Place,
        messages: &mut Vec<Sequence<u8>>,
    ) -> Result<Vec<u8>, Stop>
        ensures { Says (λ v. v.items)
            (expanded_pure self.now.table (A.values automatic.now) (Some place) self.now.limit text.now)
            result messages.old.items messages.new.items }
    {
        self.macros
            .expand_pure(text, automatic, Some(place), messages, self.limit)
    }
}

/// Makes the commands of a makefile's nodes.
#[derive(Drop)]
pub struct Commands<'m> {
    pub(crate) expander: Expander<'m>,
    pub(crate) lines: KeptLines<'m>,
    // The text of a line, which serves for one after another.
    pub(crate) text: Vec<u8>,
}

impl<'m> Model for Commands<'m> {
    ghost use Rattle.std.specs.Prelude.{◌≡◌};
    ghost use Rattle.kt_recipe.specs.views.Commands.{Commands};

    ghost Value = { Commands };

    ghost view = { λ commands. commands.expander };

    ghost invariant = { λ commands. commands.lines ≡ commands.expander };
}

impl<'m> Commands<'m> {
    /// Commands with these macros and this limit of levels.
    pub fn new(alloc: Global, macros: &'m Macros, limit: u64) -> Result<Commands<'m>, AllocError>
        ensures { IfOk result (λ commands. commands ≡ record { table = macros.now; limit = limit }) }
    {
        let expander = Expander::new(alloc, macros, limit)?;
        Ok(Commands {
            expander,
            lines: KeptLines::new(alloc, macros, limit),
            text: Vec::new(alloc),
        })
    }
}
