//! The prerequisites of an entry, which other entries may hold, too.
ghost use Rattle.std.specs.Prelude.{◌≡◌, IfOk, IfSome, IsTrue};
ghost use Rattle.kt_rules.specs.Entry.{no_needs};
ghost use Rattle.kt_rules.specs.inner.Remembered.{NamesNeeds, needs_wait};

use crate::line::checking::needs_wait;
use crate::line::entry::Needs;
use std::alloc::{AllocError, Global};
use std::marker::Model;
use std::rc::Rc;

/// The prerequisites of an entry.
///
/// A contract sees them as just those.
#[derive(Drop)]
pub(crate) struct HeldNeeds {
    form: NeedsStorage,
}

#[derive(Drop)]
enum NeedsStorage {
    /// No other entry holds them.
    Own(Needs),
    /// Others may hold them, too.
    Shared(Rc<PlainNeeds>),
}

impl Model for HeldNeeds {
    ghost use Rattle.kt_rules.specs.declared.line.entry.Needs.{Needs};
    ghost use Rattle.kt_rules.specs.inner.Holding.{needs_in};

    ghost Value = { Needs };

    ghost view = { λ needs. needs_in needs.form };
}

impl HeldNeeds {
    /// Prerequisites that no other entry holds.
    pub(crate) fn own(needs: Needs) -> HeldNeeds
        ensures { result ≡ needs }
    {
        HeldNeeds {
            form: NeedsStorage::Own(needs),
        }
    }

    /// No prerequisites.
    pub(crate) fn none(alloc: Global) -> HeldNeeds
        ensures { result ≡ no_needs }
    {
        HeldNeeds::own(Needs::none(alloc))
    }

    /// These prerequisites, held once more. None of them is copied.
    pub(crate) fn shared(needs: &Rc<PlainNeeds>) -> Result<HeldNeeds, AllocError>
        ensures { IfOk result (λ held. held ≡ needs.now.value.1) }
    {
        Ok(HeldNeeds {
            form: NeedsStorage::Shared(needs.clone()?),
        })
    }

    /// The prerequisites, borrowed.
    pub(crate) fn get(&self) -> &Needs
        ensures { result.now ≡ self.now }
    {
        match &self.form {
            NeedsStorage::Own(needs) => needs,
            NeedsStorage::Shared(needs) => needs.needs(),
        }
    }

    /// Whether `.WAIT` is one of them, which is told once of those that several entries hold.
    pub(crate) fn wait(&self) -> bool
        ensures { result ≡ needs_wait self.now }
    {
        match &self.form {
            NeedsStorage::Own(needs) => needs_wait(needs),
            NeedsStorage::Shared(needs) => needs.wait(),
        }
    }

    /// Those that others may hold, too.
    pub(crate) fn as_shared(&self) -> Option<&PlainNeeds>
        ensures quick { IfSome result (λ plain. plain.now.1 ≡ self.now) }
    {
        match &self.form {
            NeedsStorage::Own(_) => None,
            NeedsStorage::Shared(needs) => Some(needs),
        }
    }

    /// As `as_shared`, but no longer held by this entry.
    pub(crate) fn into_shared(self) -> Option<Rc<PlainNeeds>>
        ensures quick { IfSome result (λ plain. plain.value.1 ≡ self) }
    {
        match self.form {
            NeedsStorage::Own(_) => None,
            NeedsStorage::Shared(needs) => Some(needs),
        }
    }
}

/// The prerequisites of a text without a byte that needs a second look, and the text.
///
/// A contract sees them as both. That texts are the same is quickly told, and then the prerequisites are.
#[derive(Drop)]
pub(crate) struct PlainNeeds {
    text: Vec<u8>,
    needs: Needs,
    // Whether `.WAIT` is one of them.
    waits: bool,
}

impl Model for PlainNeeds {
    ghost use Rattle.kt_text.specs.Words.{Text};
    ghost use Rattle.kt_rules.specs.declared.line.entry.Needs.{Needs};

    ghost Value = { Text × Needs };

    ghost use Rattle.kt_rules.specs.inner.Remembered.{AreToldOf};

    ghost view = { λ plain. (plain.text.items, plain.needs) };

    ghost invariant = { λ plain. AreToldOf plain.text.items plain.needs plain.waits };
}

impl PlainNeeds {
    /// The prerequisites of a text, which is copied.
    pub(crate) fn of(alloc: Global, text: &[u8], needs: Needs) -> Result<PlainNeeds, AllocError>
        requires { NamesNeeds text.now needs }
        ensures { IfOk result (λ plain. plain ≡ (text.now, needs)) }
    {
        let waits = needs_wait(&needs);
        let text = Vec::from_slice(alloc, text)?;
        Ok(PlainNeeds { text, needs, waits })
    }

    /// The prerequisites.
    pub(crate) fn needs(&self) -> &Needs
        ensures { result.now ≡ self.now.1 }
    {
        &self.needs
    }

    /// Whether `.WAIT` is one of them.
    pub(crate) fn wait(&self) -> bool
        ensures { result ≡ needs_wait self.now.1 }
    {
        let _needs = &self.needs;
        self.waits
    }

    /// Whether they are those of a text.
    pub(crate) fn are_of(&self, text: &[u8]) -> bool
        ensures quick { IsTrue result → NamesNeeds text.now self.now.1 }
    {
        let _needs = &self.needs;
        self.text.as_slice() == text
    }

    /// Whether others have the same text.
    pub(crate) fn are_same(&self, other: &PlainNeeds) -> bool
        ensures quick { IsTrue result → self.now.1 ≡ other.now.1 }
    {
        other.are_of(self.text.as_slice())
    }
}
