//! A place in a makefile.
ghost use Rattle.std.specs.Prelude.{◌≡◌, ◌++◌, IfOk, OnErr, OnOk};

use itoa::Buffer;
use kt_list::Shared;
use std::alloc::AllocError;

/// A logical line of a file.
#[derive(Debug, Drop)]
pub struct Place {
    /// The file's name as it was requested.
    pub file: Shared<u8>,
    /// The number of the logical line's first physical line, from 1.
    pub line: u64,
}

impl Place {
    ghost use Rattle.kt_text.specs.views.Begun.{HasBegun};
    ghost use Rattle.kt_rules.specs.Places.{place_text};

    /// This place once more; the file's name is shared, not copied.
    pub fn share(&self) -> Result<Place, AllocError>
        ensures { IfOk result (λ place. place ≡ self.now) }
    {
        Ok(Place {
            file: self.file.share()?,
            line: self.line,
        })
    }

    /// Appends `FILE:LINE`. If memory runs out, a prefix of it may have been appended.
    #[tactic(auto, using(kt_list::proofs::general::Results::on_err))]
    pub fn append_to(&self, text: &mut Vec<u8>) -> Result<(), AllocError>
        ensures appended { OnOk result (text.new.items ≡ text.old.items ++ place_text self.now) }
        ensures refused { OnErr result (HasBegun (place_text self.now) text.old.items text.new.items) }
    {
        let mut buffer = Buffer::new();
        text.extend_from_slice(self.file.as_slice())?;
        text.push(b':')?;
        text.extend_from_slice(buffer.format(self.line).as_bytes())
    }
}
