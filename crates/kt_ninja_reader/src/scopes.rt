//! Variables and what they stand for.
ghost use Rattle.std.specs.Prelude.{◌≡◌, ◌∷◌, ◌++◌, [], true, IfOk, OnOk, is_some, map};
ghost use Rattle.std.specs.List.{list_all, flat_map};
ghost use Rattle.std.specs.Option.{option_copied};
ghost use Rattle.kt_ninja_reader.specs.inner.Cutting.{dollar_piece};
ghost use Rattle.kt_ninja_reader.specs.Scopes.{bound_text, byte_in_quotes, command_value, find_in, is_shell_safe, piece_text};
ghost use Rattle.kt_ninja_reader.specs.Scopes.{put_in, shell_word, shell_words, value_in, value_within};

use crate::spelling::{Dollar, Spelling};
use crate::table::Table;
use kt_list::{Sequence, Text};
use kt_ninja::Path;
use std::alloc::{AllocError, Global};
use std::boxed::Box;
use std::marker::Model;
use std::mem;

/// The values of variables.
pub(crate) type Scope = Table<Sequence<u8>>;

/// The values of a block's variables. A block that sets none, as most do, holds no table.
#[derive(Drop)]
pub(crate) struct BlockScope {
    values: Option<Box<Scope>>,
}

impl Model for BlockScope {
    ghost use Rattle.std.specs.Prelude.{ℕ, List, [], option_map, unwrap_or};

    ghost Value = { List (List ℕ × List ℕ) };

    ghost view = { λ s. unwrap_or (option_map (λ b. b.value) s.values) [] };
}

impl BlockScope {
    pub(crate) fn new() -> BlockScope
        ensures { result ≡ [] }
    {
        BlockScope { values: None }
    }

    /// Whether it holds no table.
    pub(crate) fn is_unset(&self) -> bool
        ensures quick { result ≡ true → self.now ≡ [] }
    {
        self.values.is_none()
    }

    #[tactic(auto, unfolding(crate::specs::Scopes::find_in))]
    pub(crate) fn get(&self, name: &[u8]) -> Option<&Sequence<u8>>
        ensures { option_copied result ≡ find_in self.now name.now }
    {
        match &self.values {
            Some(values) => values.as_ref().get(name),
            None => None,
        }
    }

    #[tactic(auto, unfolding(crate::specs::Scopes::find_in))]
    pub(crate) fn has(&self, name: &[u8]) -> bool
        ensures { result ≡ is_some (find_in self.now name.now) }
    {
        match &self.values {
            Some(values) => values.as_ref().has(name),
            None => false,
        }
    }

    // Its table, which it holds no more.
    fn take(&mut self, alloc: Global) -> Scope
        ensures { result ≡ self.old }
    {
        match mem::replace(&mut self.values, None) {
            Some(values) => Box::into_inner(values),
            None => Table::new(alloc),
        }
    }

    /// Puts the value at the name, in place of what was there.
    pub(crate) fn put(
        &mut self,
        alloc: Global,
        name: Text,
        value: Sequence<u8>,
    ) -> Result<(), AllocError>
        ensures { OnOk result (self.new ≡ put_in self.old name value) }
    {
        let mut values = self.take(alloc);
        values.put(name, value)?;
        self.values = Some(Box::new(alloc, values)?);
        Ok(())
    }
}

/// Where the variables of a path or a value are looked up.
#[derive(Clone, Copy)]
pub(crate) struct Scopes<'a> {
    pub(crate) block: &'a BlockScope,
    pub(crate) file: &'a Scope,
}

impl<'a> Scopes<'a> {
    fn value(&self, name: &[u8]) -> &'a [u8]
        ensures { result.now ≡ value_within self.now.block.now self.now.file.now name.now }
    {
        match self.block.get(name) {
            Some(value) => value.as_slice(),
            None => value_in(self.file, name),
        }
    }
}

fn value_in<'a>(scope: &'a Scope, name: &[u8]) -> &'a [u8]
    ensures { result.now ≡ value_in scope.now name.now }
{
    match scope.get(name) {
        Some(value) => value.as_slice(),
        None => &[],
    }
}

/// What a spelling stands for.
#[tactic(auto, using(crate::proofs::lemmas::ScopeLemmas::expanded_run))]
pub(crate) fn expanded(
    alloc: Global,
    spelling: &Spelling,
    scopes: Scopes,
) -> Result<Vec<u8>, AllocError>
    ensures { IfOk result (λ text. text.items
        ≡ bound_text (value_within scopes.entry.block.now scopes.entry.file.now) spelling.now) }
{
    let mut text = Vec::new(alloc);
    let mut rest = spelling.copy();
    loop {
        let run = rest.run();
        text.extend_from_slice(run.plain)?;
        let Some(dollar) = run.dollar else {
            return Ok(text);
        };
        add_dollar(&mut text, dollar, scopes)?;
        rest = run.after;
    }
}

// Adds what stands after a dollar.
fn add_dollar(text: &mut Vec<u8>, dollar: Dollar, scopes: Scopes) -> Result<(), AllocError>
    ensures { OnOk result (text.new.items ≡ text.old.items
        ++ piece_text (value_within scopes.entry.block.now scopes.entry.file.now) (dollar_piece dollar.entry)) }
{
    match dollar {
        Dollar::Byte(byte) => Ok(text.push(byte)?),
        Dollar::Variable(name) => text.extend_from_slice(scopes.value(name)),
    }
}

fn is_shell_safe(byte: u8) -> bool
    ensures { result ≡ is_shell_safe byte }
{
    byte.is_ascii_alphanumeric() || matches!(byte, b'_' | b'+' | b'-' | b'.' | b'/')
}

fn all_shell_safe(path: &[u8]) -> bool
    ensures { result ≡ list_all is_shell_safe path.now }
{
    path.iter().all(|byte| is_shell_safe(*byte))
}

// Adds a byte of single quotes.
fn add_quoted_byte(text: &mut Vec<u8>, byte: u8) -> Result<(), AllocError>
    ensures { OnOk result (text.new.items ≡ text.old.items ++ byte_in_quotes byte) }
{
    if byte == b'\'' {
        text.extend_from_slice(b"'\\''")
    } else {
        Ok(text.push(byte)?)
    }
}

// Adds the bytes of single quotes.
fn add_quoted(text: &mut Vec<u8>, path: &[u8]) -> Result<(), AllocError>
    ensures { OnOk result (text.new.items ≡ text.old.items ++ flat_map byte_in_quotes path.now) }
{
    for byte in path {
        add_quoted_byte(text, *byte)?;
    }
    Ok(())
}

// Adds a path as one word of a shell.
#[tactic(auto, unfolding(crate::specs::Scopes::shell_word))]
fn add_shell_word(text: &mut Vec<u8>, path: &[u8]) -> Result<(), AllocError>
    ensures { OnOk result (text.new.items ≡ text.old.items ++ shell_word path.now) }
{
    if all_shell_safe(path) {
        return text.extend_from_slice(path);
    }
    text.push(b'\'')?;
    add_quoted(text, path)?;
    Ok(text.push(b'\'')?)
}

// Adds paths as words of a shell, each after a byte.
fn add_later_words(text: &mut Vec<u8>, between: u8, paths: &[Path]) -> Result<(), AllocError>
    ensures { OnOk result (text.new.items ≡ text.old.items ++ flat_map (λ path. between ∷ shell_word path) paths.now) }
{
    for path in paths {
        text.push(between)?;
        add_shell_word(text, path.as_slice())?;
    }
    Ok(())
}

// Adds paths as words of a shell, with a byte between them.
fn add_shell_words(text: &mut Vec<u8>, between: u8, paths: &[Path]) -> Result<(), AllocError>
    ensures { OnOk result (text.new.items ≡ text.old.items ++ shell_words between paths.now) }
{
    match paths.split_first() {
        None => Ok(()),
        Some((first, later)) => {
            add_shell_word(text, first.as_slice())?;
            add_later_words(text, between, later)
        }
    }
}

/// What the command of a rule may name.
#[derive(Clone, Copy)]
pub(crate) struct CommandScopes<'a> {
    pub(crate) inputs: &'a [Path],
    pub(crate) outs: &'a [Path],
    pub(crate) scopes: Scopes<'a>,
}

impl<'a> CommandScopes<'a> {
    #[tactic(auto, unfolding(crate::specs::Scopes::command_value))]
    fn add_value(&self, text: &mut Vec<u8>, name: &[u8]) -> Result<(), AllocError>
        ensures { OnOk result (text.new.items ≡ text.old.items
            ++ command_value self.now.inputs.now self.now.outs.now self.now.scopes.block.now
            self.now.scopes.file.now name.now) }
    {
        if name == b"in".as_slice() {
            add_shell_words(text, b' ', self.inputs)
        } else if name == b"in_newline".as_slice() {
            add_shell_words(text, b'\n', self.inputs)
        } else if name == b"out".as_slice() {
            add_shell_words(text, b' ', self.outs)
        } else {
            text.extend_from_slice(self.scopes.value(name))
        }
    }

    // Adds what stands after a dollar of the command.
    fn add_dollar(&self, text: &mut Vec<u8>, dollar: Dollar) -> Result<(), AllocError>
        ensures { OnOk result (text.new.items ≡ text.old.items
            ++ piece_text (command_value self.now.inputs.now self.now.outs.now self.now.scopes.block.now
            self.now.scopes.file.now) (dollar_piece dollar.entry)) }
    {
        match dollar {
            Dollar::Byte(byte) => Ok(text.push(byte)?),
            Dollar::Variable(name) => self.add_value(text, name),
        }
    }
}

/// The command line that a rule's command is for a statement.
#[tactic(auto, using(crate::proofs::lemmas::ScopeLemmas::expanded_run))]
pub(crate) fn command_line(
    alloc: Global,
    command: &Spelling,
    scopes: CommandScopes,
) -> Result<Vec<u8>, AllocError>
    ensures { IfOk result (λ text. text.items
        ≡ bound_text (command_value scopes.entry.inputs.now scopes.entry.outs.now scopes.entry.scopes.block.now
        scopes.entry.scopes.file.now) command.now) }
{
    let mut text = Vec::new(alloc);
    let mut rest = command.copy();
    loop {
        let run = rest.run();
        text.extend_from_slice(run.plain)?;
        let Some(dollar) = run.dollar else {
            return Ok(text);
        };
        scopes.add_dollar(&mut text, dollar)?;
        rest = run.after;
    }
}
