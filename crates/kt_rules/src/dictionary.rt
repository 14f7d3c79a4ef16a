//! Names and lists of names by numbers.
//! Fast: a name is held once and told by its number from then on, and so is a list of names. Spares a hash, a copy and
//! a comparison at each further place, and the numbers of a list that several rules have.
ghost use Rattle.std.specs.Prelude.{◌≡◌, [], Some, get_or, length, option_map, slice_get, IfOk, IsTrue, OnOk};
ghost use Rattle.kt_list.specs.views.Names.{AreBelow, AreNumbersOf, name_at, place_of};
ghost use Rattle.kt_list.specs.views.Prefixes.{HasMore};
ghost use Rattle.kt_rules.specs.views.Targets.{text_in};
ghost use Rattle.kt_rules.specs.inner.Dictionary.{GrowsDictionary, IsListOf};

use crate::line::entry::Name;
use kt_list::{Lists, Names, narrow};
use std::alloc::{AllocError, Global};
use std::marker::Model;

/// Names, and lists of names, each once. The place of a name is its number, and so is that of a list.
///
/// A contract sees the names, and for each list the numbers of its names.
#[derive(Drop)]
pub(crate) struct Dictionary {
    names: Names,
    lists: Lists,
    // The numbers of the names of the last list that was added.
    numbers: Vec<u32>,
}

impl Model for Dictionary {
    ghost use Rattle.std.specs.Prelude.{ℕ, List, All, length};
    ghost use Rattle.kt_text.specs.Words.{Text};
    ghost use Rattle.kt_list.specs.views.Names.{AreBelow};

    ghost Value = { List Text × List (List ℕ) };

    ghost view = { λ dictionary. (dictionary.names, dictionary.lists) };

    ghost invariant = { λ dictionary. All (AreBelow (length dictionary.names)) dictionary.lists };
}

impl Dictionary {
    /// No names, and no lists.
    pub(crate) fn new(alloc: Global) -> Dictionary
        ensures { result ≡ ([], []) }
    {
        Dictionary {
            names: Names::new(alloc),
            lists: Lists::new(alloc),
            numbers: Vec::new(alloc),
        }
    }

    /// The names, by their numbers.
    pub(crate) fn names(&self) -> &Names
        ensures { result.now ≡ self.now.0 }
    {
        &self.names
    }

    /// The name with a number, or nothing.
    pub(crate) fn name(&self, number: u32) -> &[u8]
        ensures { result.now ≡ name_at self.now.0 number }
    {
        self.names.name_at(number as usize)
    }

    /// The name with a number, if there is a number.
    pub(crate) fn name_if(&self, number: Option<u32>) -> Option<&[u8]>
        ensures { text_in result ≡ option_map (name_at self.now.0) number }
    {
        match number {
            Some(number) => Some(self.name(number)),
            None => None,
        }
    }

    /// The numbers of the names of the list with a number, or none.
    pub(crate) fn list(&self, number: u32) -> &[u32]
        ensures numbers { result.now ≡ get_or self.now.1 number [] }
        ensures below { AreBelow (length self.now.0) result.now }
    {
        match self.lists.get(number as usize) {
            Some(list) => list,
            None => &[],
        }
    }

    /// Whether a name has this number, told without hashing.
    #[tactic(auto, using(crate::proofs::lemmas::book::NoteLemmas::place_at))]
    pub(crate) fn has_number(&self, name: &[u8], number: usize) -> bool
        ensures quick { IsTrue result → place_of self.now.0 name.now ≡ Some number }
    {
        // The contract of `len` makes known that the names differ.
        let _count = self.names.len();
        is_name_at(&self.names, number, name)
    }

    /// The number of a name, which gets the next one if it has none. One beyond 4,294,967,295 is refused as if memory
    /// were.
    pub(crate) fn number(&mut self, name: &[u8]) -> Result<u32, AllocError>
        ensures numbered { IfOk result (λ number. slice_get self.new.0 number ≡ Some name.now) }
        ensures grown { GrowsDictionary self.old self.new }
    {
        number_name(&mut self.names, name)
    }

    /// The number of a list, which gets the next one if it has none; each of its names gets a number, too. If memory
    /// runs out, some names may have got theirs.
    pub(crate) fn number_list(&mut self, list: &[Name]) -> Result<u32, AllocError>
        ensures numbered { IfOk result (λ number. IsListOf self.new number list.now) }
        ensures grown { GrowsDictionary self.old self.new }
    {
        number_names(&mut self.names, &mut self.numbers, list)?;
        let number = self.lists.add(self.numbers.as_slice())?;
        Ok(number)
    }
}

// Whether a number is that of a name, told without hashing.
fn is_name_at(names: &Names, number: usize, name: &[u8]) -> bool
    ensures quick { IsTrue result → slice_get names.now number ≡ Some name.now }
{
    match names.get(number) {
        Some(held) => held == name,
        None => false,
    }
}

// Puts the numbers of names in place of those that were there.
fn number_names(names: &mut Names, numbers: &mut Vec<u32>, list: &[Name]) -> Result<(), AllocError>
    ensures numbered { OnOk result (AreNumbersOf names.new numbers.new.items list.now) }
    ensures grown { HasMore names.old names.new }
{
    numbers.clear();
    for name in list {
        let number = number_name(names, name.as_slice())?;
        numbers.push(number)?;
    }
    Ok(())
}

fn number_name(names: &mut Names, name: &[u8]) -> Result<u32, AllocError>
    ensures numbered { IfOk result (λ number. slice_get names.new number ≡ Some name.now) }
    ensures grown { HasMore names.old names.new }
{
    let number = names.number(name)?;
    narrow(number)
}
