//! Finite maps from names.
//! Fast: a rule's name is a slice of the file. Spares a copy of each.
ghost use Rattle.std.specs.Prelude.{◌≡◌, [], is_some, OnOk};
ghost use Rattle.std.specs.Option.{option_copied};
ghost use Rattle.kt_ninja_reader.specs.Scopes.{find_in, put_in};

use crate::spelling::Spelling;
use indexmap::IndexMap;
use kt_list::{Key, Text};
use std::alloc::{AllocError, Global};
use std::marker::Model;

// Values by their names.
#[derive(Drop)]
pub(crate) struct Table<V: Drop> {
    entries: IndexMap<Text, V>,
}

impl<V: Drop> Model for Table<V> {
    ghost use Rattle.std.specs.Prelude.{ℕ, List};

    ghost Value = { List (List ℕ × V) };

    ghost view = { λ t. t.entries.entries };
}

impl<V: Drop> Table<V> {
    pub(crate) fn new(alloc: Global) -> Table<V>
        ensures { result ≡ [] }
    {
        Table {
            entries: IndexMap::new(alloc),
        }
    }

    #[tactic(auto, using(crate::proofs::lemmas::TableLemmas::find_in_entries))]
    pub(crate) fn get(&self, name: &[u8]) -> Option<&V>
        ensures { option_copied result ≡ find_in self.now name.now }
    {
        self.entries.get(Key(name))
    }

    #[tactic(auto, using(crate::proofs::lemmas::TableLemmas::find_in_entries))]
    pub(crate) fn has(&self, name: &[u8]) -> bool
        ensures { result ≡ is_some (find_in self.now name.now) }
    {
        self.entries.contains_key(Key(name))
    }

    // Puts the value at the name, in place of what was there.
    #[tactic(auto, using(crate::proofs::lemmas::TableLemmas::put_in_entries, crate::proofs::lemmas::TableLemmas::put_in_entries))]
    pub(crate) fn put(&mut self, name: Text, value: V) -> Result<(), AllocError>
        ensures { OnOk result (self.new ≡ put_in self.old name value) }
    {
        self.entries.insert(name, value)?;
        Ok(())
    }
}

// The commands of rules by their names, which stand in the file.
#[derive(Drop)]
pub(crate) struct RuleCommands<'t> {
    commands: IndexMap<Key<'t>, Spelling<'t>>,
}

impl<'t> Model for RuleCommands<'t> {
    ghost use Rattle.std.specs.Prelude.{ℕ, List, map};
    ghost use Rattle.kt_ninja_reader.specs.Pieces.{Piece};

    ghost Value = { List (List ℕ × List Piece) };

    ghost view = { λ r. map (λ e. (e.0.0.now, e.1)) r.commands.entries };
}

impl<'t> RuleCommands<'t> {
    pub(crate) fn new(alloc: Global) -> RuleCommands<'t>
        ensures { result ≡ [] }
    {
        RuleCommands {
            commands: IndexMap::new(alloc),
        }
    }

    #[tactic(auto, using(crate::proofs::lemmas::TableLemmas::find_in_borrowed))]
    pub(crate) fn get(&self, name: &'t [u8]) -> Option<&Spelling<'t>>
        ensures { option_copied result ≡ find_in self.now name.now }
    {
        self.commands.get(&Key(name))
    }

    #[tactic(auto, using(crate::proofs::lemmas::TableLemmas::find_in_borrowed))]
    pub(crate) fn has(&self, name: &'t [u8]) -> bool
        ensures { result ≡ is_some (find_in self.now name.now) }
    {
        self.commands.contains_key(&Key(name))
    }

    // Puts the command at the name, in place of what was there.
    pub(crate) fn put(&mut self, name: &'t [u8], command: Spelling<'t>) -> Result<(), AllocError>
        ensures { OnOk result (self.new ≡ put_in self.old name.now command.entry) }
    {
        self.commands.insert(Key(name), command)?;
        Ok(())
    }
}
