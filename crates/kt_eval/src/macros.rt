//! The macros of a makefile.
//!
//! Takes an assignment or a `define`: an operator, a name and a text, and returns the table in which the name has its
//! value, as written or expanded. A scope decides where names are looked up, and whether anything may be set.
ghost use Rattle.std.specs.Prelude.{◌≡◌, ◌++◌, ◌==◌, IfOk, OnOk, Some, option_map};
ghost use Rattle.std.specs.List.{list_any};
ghost use Rattle.kt_eval.specs.State.{found_of};
ghost use Rattle.kt_eval.specs.inner.Plain.{is_plain, put_of, still_deferred};

pub(crate) mod assigning;
mod assignments;
pub(crate) mod automatic;
pub(crate) mod scope;

use crate::state::FoundValue;
use crate::value::Value;
pub use automatic::{Automatic, NoAutomatic};
use indexmap::IndexMap;
use kt_list::{Key, Text};
pub use scope::Makefile;
use std::alloc::{AllocError, Global};
use std::marker::Model;

/// Whether the value of a macro is expanded when it is used (GNU make manual, "The Two Flavors of
/// Variables").
#[derive(Clone, Copy, Debug, PartialEq, Eq)]
pub enum Flavour {
    /// It is expanded at each use.
    Deferred,
    /// It was expanded when it was assigned, and isn't again.
    Immediate,
}

/// Where a macro was set (GNU make manual, "Overriding Variables").
#[derive(Clone, Copy, Debug, PartialEq, Eq)]
pub enum Origin {
    /// In a makefile, or before any was read.
    Makefile,
    /// On the command line, which no makefile overrides.
    CommandLine,
}

/// The value of a macro, and how it was set.
#[derive(Debug, Drop)]
pub struct Macro {
    pub flavour: Flavour,
    pub origin: Origin,
    pub value: Value,
}

impl Macro {
    ghost use Rattle.std.specs.Prelude.{codes};
    ghost use Rattle.kt_eval.specs.macros.Macros.{set_by_makefile};

    // A macro that a makefile sets.
    pub(crate) fn of_makefile(flavour: Flavour, value: Value) -> Macro
        ensures { result ≡ set_by_makefile flavour value }
    {
        Macro {
            flavour,
            origin: Origin::Makefile,
            value,
        }
    }

    // Appends a space and more text to the value; in place, if nothing else holds the value.
    fn append(&mut self, alloc: Global, more: &[u8]) -> Result<(), AllocError>
        ensures { OnOk result (self.new ≡ record self.old { value = (self.old.value ++ codes " ") ++ more.now }) }
    {
        self.value.extend_from_slice(alloc, b" ")?;
        self.value.extend_from_slice(alloc, more)
    }

    // Appends the value if it needs no expansion with `below` levels left, and otherwise returns it, shared.
    #[tactic(auto, unfolding(crate::proofs::Steps::value_open))]
    pub(crate) fn put_value(
        &self,
        below: u64,
        out: &mut Vec<u8>,
    ) -> Result<Option<Value>, AllocError>
        ensures put { OnOk result (out.new.items ≡ out.old.items ++ put_of below (Some (found_of self.now))) }
        ensures left { IfOk result (λ left. left ≡ still_deferred below (Some (found_of self.now))) }
    {
        let value = self.value.as_slice();
        if is_plain(below, self.flavour, value) {
            out.extend_from_slice(value)?;
            return Ok(None);
        }
        Ok(Some(self.value.share()?))
    }

    // The flavour and value of the macro; the value is shared, not copied.
    pub(crate) fn found(&self) -> Result<FoundValue, AllocError>
        ensures { IfOk result (λ found. found ≡ found_of self.now) }
    {
        Ok(FoundValue {
            flavour: self.flavour,
            value: self.value.share()?,
        })
    }
}

// Whether a value needs no expansion: it is immediate, or it has no dollar and a level is left.
pub(crate) fn is_plain(below: u64, flavour: Flavour, value: &[u8]) -> bool
    ensures { result ≡ is_plain below flavour value.now }
{
    match flavour {
        Flavour::Immediate => true,
        Flavour::Deferred => below != 0 && !has_dollar(value),
    }
}

pub(crate) fn has_dollar(text: &[u8]) -> bool
    ensures { result ≡ list_any (λ byte. byte == 36) text.now }
{
    text.iter().any(|byte| *byte == b'$')
}

/// The macros by name, in the order in which they were first set.
#[derive(Drop)]
pub struct Macros {
    pub(crate) alloc: Global,
    entries: IndexMap<Text, Macro>,
}

impl Model for Macros {
    ghost use Rattle.kt_eval.specs.macros.Macros.{Macros};

    ghost Value = { Macros };

    ghost view = { λ s. s.entries.entries };
}

impl Macros {
    ghost use Rattle.std.specs.Prelude.{[], OnErr, codes};
    ghost use Rattle.kt_eval.specs.macros.Macros.{find, put, set_by_makefile};

    /// No macros.
    pub fn new(alloc: Global) -> Macros
        ensures { result ≡ [] }
    {
        Macros {
            alloc,
            entries: IndexMap::new(alloc),
        }
    }

    /// The macro with a name.
    pub fn get(&self, name: &[u8]) -> Option<&Macro>
        ensures { option_map (λ entry. entry.now) result ≡ find name.now self.now }
    {
        self.entries.get(Key(name))
    }

    // The flavour and value of a name; the value is shared, not copied.
    pub(crate) fn found(&self, name: &[u8]) -> Result<Option<FoundValue>, AllocError>
        ensures { IfOk result (λ found. found ≡ option_map found_of (find name.now self.now)) }
    {
        match self.get(name) {
            None => Ok(None),
            Some(entry) => Ok(Some(entry.found()?)),
        }
    }

    // Appends the value of a name if it needs no expansion with `below` levels left, and otherwise returns it.
    #[tactic(auto, unfolding(crate::proofs::Steps::value_open))]
    pub(crate) fn put_value(
        &self,
        name: &[u8],
        below: u64,
        out: &mut Vec<u8>,
    ) -> Result<Option<Value>, AllocError>
        ensures put { OnOk result (out.new.items
            ≡ out.old.items ++ put_of below (option_map found_of (find name.now self.now))) }
        ensures left { IfOk result (λ left. left
            ≡ still_deferred below (option_map found_of (find name.now self.now))) }
    {
        match self.get(name) {
            None => Ok(None),
            Some(entry) => entry.put_value(below, out),
        }
    }

    /// Sets the macro with a name: a name that is there keeps its place, and a new one is added at the end.
    pub fn insert(&mut self, name: Vec<u8>, value: Macro) -> Result<(), AllocError>
        ensures set { OnOk result (self.new ≡ put name.items value self.old) }
        ensures refused { OnErr result (self.new ≡ self.old) }
    {
        self.enter(Text::from(name), value)
    }

    // As `insert`, for a name that is copied.
    pub(crate) fn set(&mut self, name: &[u8], value: Macro) -> Result<(), AllocError>
        ensures { OnOk result (self.new ≡ put name.now value self.old) }
    {
        let name = Text::copied(self.alloc, name)?;
        self.enter(name, value)
    }

    fn enter(&mut self, name: Text, value: Macro) -> Result<(), AllocError>
        ensures set { OnOk result (self.new ≡ put name value self.old) }
        ensures refused { OnErr result (self.new ≡ self.old) }
    {
        self.entries.insert(name, value)?;
        Ok(())
    }

    // Sets a macro to `front`, a space and a text. If `front` was the value of this macro and nothing else holds it, it
    // grows in place, since the macro's own share is dropped first.
    pub(crate) fn append(
        &mut self,
        name: &[u8],
        flavour: Flavour,
        front: Value,
        text: &[u8],
    ) -> Result<(), AllocError>
        ensures { OnOk result (self.new
            ≡ put name.now (set_by_makefile flavour ((front ++ codes " ") ++ text.now)) self.old) }
    {
        let alloc = self.alloc;
        let mut longer = Macro::of_makefile(flavour, front);
        match self.entries.get_mut(Key(name)) {
            Some(entry) => {
                *entry = longer;
                entry.append(alloc, text)
            }
            None => {
                longer.append(alloc, text)?;
                self.set(name, longer)
            }
        }
    }
}
