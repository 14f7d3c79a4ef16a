//! Where names without a binding are looked up, and where rules are added.
ghost use Rattle.std.specs.Prelude.{◌≡◌, ◌++◌, ◌∷◌, [], Bool, List, codes, false, option_map, IfOk, IfSome};
ghost use Rattle.std.specs.Prelude.{MatchOption, OnErr, OnOk};
ghost use Rattle.kt_rules.specs.Book.{added, refusal_of};
ghost use Rattle.kt_rules.specs.Entry.{Entry as EntrySeen};
ghost use Rattle.kt_rules.specs.views.Refusals.{GivesExpected};
ghost use Rattle.kt_eval.specs.macros.Macros.{Macros as MacrosSeen, find, put, set_by_makefile};
ghost use Rattle.kt_eval.specs.State.{unbound};
ghost use Rattle.kt_eval.specs.files.Files.{Store};
ghost use Rattle.kt_eval.specs.declared.macros.Macro.{Macro};
ghost use Rattle.kt_eval.specs.inner.Plain.{put_of, still_deferred};

use crate::macros::automatic::Automatic;
use crate::macros::{Flavour, Macro, Macros};
use crate::state::FoundValue;
use crate::value::Value;
use kt_rules::{Book, Entry, RuleFault, Warnings};
use std::alloc::AllocError;

/// Macros, with automatic ones before them, and rules.
pub(crate) trait MacroScope {
    /// The macros that were set.
    ghost table: { Self → MacrosSeen };

    /// The automatic macros, which hide the others.
    ghost automatic: { Self → Store };

    /// The rules that were closed.
    ghost book: { Self → List EntrySeen };

    /// Whether macros may be set and rules made: a makefile may, a recipe may not.
    ghost writable: { Bool };

    fn is_writable(&self) -> bool
        ensures { result ≡ writable };

    fn find(&self, name: &[u8]) -> Result<Option<FoundValue>, AllocError>
        ensures { IfOk result (λ found. found ≡ unbound name.now (automatic self.now) (table self.now)) };

    // Appends the value of a name if it needs no expansion with `below` levels left, and otherwise returns it.
    fn put_value(
        &self,
        name: &[u8],
        below: u64,
        out: &mut Vec<u8>,
    ) -> Result<Option<Value>, AllocError>
        ensures put { OnOk result (out.new.items
            ≡ out.old.items ++ put_of below (unbound name.now (automatic self.now) (table self.now))) }
        ensures left { IfOk result (λ left. left
            ≡ still_deferred below (unbound name.now (automatic self.now) (table self.now))) };

    fn get(&self, name: &[u8]) -> Option<&Macro>
        ensures { option_map (λ entry. entry.now) result ≡ find name.now (table self.now) };

    // Sets a macro, if macros may be set.
    fn put(&mut self, name: &[u8], value: Macro) -> Option<Result<(), AllocError>>
        ensures set { MatchOption result (writable ≡ false)
            (λ done. OnOk done (table self.new ≡ put name.now value (table self.old))) }
        ensures kept_automatic { automatic self.new ≡ automatic self.old }
        ensures kept_book { book self.new ≡ book self.old };

    // Sets a macro to `front`, a space and a text, if macros may be set.
    fn append(
        &mut self,
        name: &[u8],
        flavour: Flavour,
        front: Value,
        text: &[u8],
    ) -> Option<Result<(), AllocError>>
        ensures set { MatchOption result (writable ≡ false) (λ done. OnOk done (table self.new
            ≡ put name.now (set_by_makefile flavour ((front ++ codes " ") ++ text.now)) (table self.old))) }
        ensures kept_automatic { automatic self.new ≡ automatic self.old }
        ensures kept_book { book self.new ≡ book self.old };

    // Adds a rule, if rules may be made.
    fn add(&mut self, rule: Entry) -> Option<Result<Warnings, RuleFault>>
        ensures answers { MatchOption result (writable ≡ false)
            (λ result. GivesExpected result (added (book self.old) rule (refusal_of (book self.old) rule))) }
        ensures grown { IfSome result (λ result. OnOk result (book self.new ≡ book self.old ++ rule ∷ [])) }
        ensures refused { IfSome result (λ result. OnErr result (book self.new ≡ book self.old)) }
        ensures kept_automatic { automatic self.new ≡ automatic self.old }
        ensures kept_table { table self.new ≡ table self.old };
}

/// What a makefile sets: macros and rules.
#[derive(Drop)]
pub struct Makefile {
    pub macros: Macros,
    pub book: Book,
}

impl MacroScope for Makefile {
    ghost use Rattle.std.specs.Prelude.{[], true};

    ghost table = { λ s. s.macros };

    ghost automatic = { λ _. [] };

    ghost book = { λ s. s.book };

    ghost writable = { true };

    fn is_writable(&self) -> bool {
        true
    }

    fn find(&self, name: &[u8]) -> Result<Option<FoundValue>, AllocError> {
        self.macros.found(name)
    }

    fn put_value(
        &self,
        name: &[u8],
        below: u64,
        out: &mut Vec<u8>,
    ) -> Result<Option<Value>, AllocError> {
        self.macros.put_value(name, below, out)
    }

    fn get(&self, name: &[u8]) -> Option<&Macro> {
        self.macros.get(name)
    }

    fn put(&mut self, name: &[u8], value: Macro) -> Option<Result<(), AllocError>> {
        Some(self.macros.set(name, value))
    }

    fn append(
        &mut self,
        name: &[u8],
        flavour: Flavour,
        front: Value,
        text: &[u8],
    ) -> Option<Result<(), AllocError>> {
        Some(self.macros.append(name, flavour, front, text))
    }

    fn add(&mut self, rule: Entry) -> Option<Result<Warnings, RuleFault>> {
        Some(self.book.add(rule))
    }
}

/// The macros of a makefile and the automatic ones of a recipe, neither of which changes.
#[derive(Drop)]
pub(crate) struct FrozenMacros<'a, A: Automatic> {
    pub(crate) macros: &'a Macros,
    pub(crate) automatic: &'a A,
}

impl<'a, A: Automatic> MacroScope for FrozenMacros<'a, A> {
    ghost use Rattle.std.specs.Prelude.{[], false};

    ghost table = { λ s. s.macros.now };

    ghost automatic = { λ s. A.values s.automatic.now };

    ghost book = { λ _. [] };

    ghost writable = { false };

    fn is_writable(&self) -> bool {
        false
    }

    fn find(&self, name: &[u8]) -> Result<Option<FoundValue>, AllocError> {
        match self.automatic.value(name)? {
            Some(value) => {
                let macros = self.macros;
                Ok(Some(FoundValue {
                    flavour: Flavour::Immediate,
                    value: Value::copied(macros.alloc, value.as_slice())?,
                }))
            }
            None => self.macros.found(name),
        }
    }

    #[tactic(auto, unfolding(crate::proofs::Steps::value_open))]
    fn put_value(
        &self,
        name: &[u8],
        below: u64,
        out: &mut Vec<u8>,
    ) -> Result<Option<Value>, AllocError> {
        if let Some(value) = self.automatic.value(name)? {
            out.extend_from_slice(value.as_slice())?;
            return Ok(None);
        }
        self.macros.put_value(name, below, out)
    }

    fn get(&self, name: &[u8]) -> Option<&Macro> {
        self.macros.get(name)
    }

    fn put(&mut self, _name: &[u8], _value: Macro) -> Option<Result<(), AllocError>> {
        None
    }

    fn append(
        &mut self,
        _name: &[u8],
        _flavour: Flavour,
        _front: Value,
        _text: &[u8],
    ) -> Option<Result<(), AllocError>> {
        None
    }

    fn add(&mut self, _rule: Entry) -> Option<Result<Warnings, RuleFault>> {
        None
    }
}
