//! Automatic macros of a recipe (GNU make manual, "Automatic Variables").
ghost use Rattle.std.specs.Prelude.{◌≡◌, IfOk, option_map};
ghost use Rattle.std.specs.Cow.{cow_slice_items};
ghost use Rattle.kt_eval.specs.files.Files.{Store, look};

use std::alloc::AllocError;
use std::borrow::CowSlice;

/// The automatic macros of a recipe, each of which is computed when it is looked up.
pub trait Automatic {
    /// Their names and values.
    ghost values: { Self → Store };

    /// The value of this name, if it is an automatic macro. A value that exists already is borrowed.
    fn value(&self, name: &[u8]) -> Result<Option<CowSlice<'_, u8>>, AllocError>
        ensures { IfOk result (λ found. option_map cow_slice_items found ≡ look (values self.now) name.now) };
}

/// No automatic macro, as outside recipes.
#[derive(Clone, Copy, Debug)]
pub struct NoAutomatic;

impl Automatic for NoAutomatic {
    ghost use Rattle.std.specs.Prelude.{[]};

    ghost values = { λ _. [] };

    fn value(&self, _name: &[u8]) -> Result<Option<CowSlice<'_, u8>>, AllocError> {
        Ok(None)
    }
}
