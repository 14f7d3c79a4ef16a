//! Texts that macros, bindings and arguments hold.
//! Fast: a long value is held by all that share it, and grows in place where nothing else holds it. Spares a copy at
//! each use, and at each `+=`.
ghost use Rattle.std.specs.Prelude.{◌≡◌, ◌++◌, IfOk, OnErr, OnOk};
ghost use Rattle.std.specs.Cow.{cow_slice_items};

use kt_list::{Shared, ShortText};
use std::alloc::{AllocError, Global};
use std::borrow::CowSlice;
use std::marker::Model;

/// The value of a macro, a bound word or an argument. A short one lies in the value itself and takes no memory; a long
/// one is held by all that share it.
///
/// A contract sees it as just its bytes.
#[derive(Debug, Drop)]
pub struct Value {
    form: ValueStorage,
}

#[derive(Debug, Drop)]
enum ValueStorage {
    Short(ShortText),
    Long(Shared<u8>),
}

impl Model for Value {
    ghost use Rattle.std.specs.Prelude.{ℕ, List};
    ghost use Rattle.kt_eval.specs.inner.Values.{stored_value};

    ghost Value = { List ℕ };

    ghost view = { λ value. stored_value value.form };
}

impl Value {
    /// A copy of bytes. Takes memory where they are more than 30.
    pub fn copied(alloc: Global, bytes: &[u8]) -> Result<Value, AllocError>
        ensures { IfOk result (λ value. value ≡ bytes.now) }
    {
        match ShortText::of(bytes) {
            Some(short) => Ok(Value {
                form: ValueStorage::Short(short),
            }),
            None => Value::long(Vec::from_slice(alloc, bytes)?),
        }
    }

    /// The bytes of a vector, which is given back where they are at most 30.
    pub fn from_vec(bytes: Vec<u8>) -> Result<Value, AllocError>
        ensures { IfOk result (λ value. value ≡ bytes.items) }
    {
        match ShortText::of(bytes.as_slice()) {
            Some(short) => Ok(Value {
                form: ValueStorage::Short(short),
            }),
            None => Value::long(bytes),
        }
    }

    // The bytes of a text, copied where they are borrowed.
    pub(crate) fn from_text(alloc: Global, text: CowSlice<'_, u8>) -> Result<Value, AllocError>
        ensures { IfOk result (λ value. value ≡ cow_slice_items text.entry) }
    {
        match text {
            CowSlice::Borrowed(bytes) => Value::copied(alloc, bytes),
            CowSlice::Owned(bytes) => Value::from_vec(bytes),
        }
    }

    /// The bytes, borrowed.
    pub fn as_slice(&self) -> &[u8]
        ensures { result.now ≡ self.now }
    {
        match &self.form {
            ValueStorage::Short(short) => short.as_slice(),
            ValueStorage::Long(text) => text.as_slice(),
        }
    }

    /// This value once more. Many bytes are shared, not copied.
    pub fn share(&self) -> Result<Value, AllocError>
        ensures { IfOk result (λ value. value ≡ self.now) }
    {
        match &self.form {
            ValueStorage::Short(short) => Ok(Value {
                form: ValueStorage::Short(short.again()),
            }),
            ValueStorage::Long(text) => Ok(Value {
                form: ValueStorage::Long(text.share()?),
            }),
        }
    }

    // Puts more bytes after these: in place where they are many and nothing else holds them, else after a copy.
    pub(crate) fn extend_from_slice(&mut self, alloc: Global, more: &[u8]) -> Result<(), AllocError>
        ensures done { OnOk result (self.new ≡ self.old ++ more.now) }
        ensures refused { OnErr result (self.new ≡ self.old) }
    {
        if let ValueStorage::Long(text) = &mut self.form {
            return text.extend_from_slice(more);
        }
        *self = joined(alloc, self.as_slice(), more)?;
        Ok(())
    }

    fn long(bytes: Vec<u8>) -> Result<Value, AllocError>
        ensures { IfOk result (λ value. value ≡ bytes.items) }
    {
        Ok(Value {
            form: ValueStorage::Long(Shared::from_vec(bytes)?),
        })
    }
}

// Bytes, and more after them.
fn joined(alloc: Global, front: &[u8], more: &[u8]) -> Result<Value, AllocError>
    ensures { IfOk result (λ value. value ≡ front.now ++ more.now) }
{
    let mut bytes = Vec::with_capacity(alloc, front.len().saturating_add(more.len()))?;
    bytes.extend_from_slice(front)?;
    bytes.extend_from_slice(more)?;
    Value::from_vec(bytes)
}
