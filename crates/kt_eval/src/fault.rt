//! Faults of makefiles.
ghost use Rattle.std.specs.Prelude.{◌≡◌, ◌++◌, IfOk, OnErr, OnOk};
ghost use Rattle.kt_text.specs.views.Begun.{HasBegun};
ghost use Rattle.kt_eval.specs.Faults.{fault_line, two_digits};
ghost use Rattle.kt_eval.specs.State.{message_place};
ghost use Rattle.kt_eval.specs.Step.{fault_of};

use itoa::Buffer;
use kt_list::Sequence;
use kt_rules::{FaultKind, Place};
use std::alloc::{AllocError, Global};

/// A fault of a makefile, which ends its reading.
#[derive(Debug, Drop)]
pub struct Fault {
    /// Its place, if it is at a line.
    pub place: Option<Place>,
    /// The number at the end of the fault line, such as 26 in `[E26]`.
    pub number: u8,
    /// The message, as bytes: names are copied into it as they are.
    pub words: Sequence<u8>,
}

impl Fault {
    /// A fault of this kind about this name.
    pub fn new(
        alloc: Global,
        kind: FaultKind,
        name: &[u8],
        place: Option<Place>,
    ) -> Result<Fault, AllocError>
        ensures { IfOk result (λ fault. fault ≡ fault_of place kind name.now) }
    {
        let words = kind.words_with(alloc, name)?;
        Ok(Fault {
            place,
            number: kind.number(),
            words: Sequence::from(words),
        })
    }

    /// Appends the fault line: `FILE:LINE: *** WORDS [Enn]`, without its newline. If the fault is at no line, the
    /// program's name is in its place. If memory runs out, a prefix of the line may have been appended.
    pub fn append_to(&self, text: &mut Vec<u8>) -> Result<(), AllocError>
        ensures appended { OnOk result (text.new.items ≡ text.old.items ++ fault_line self.now) }
        ensures refused { OnErr result (HasBegun (fault_line self.now) text.old.items text.new.items) }
    {
        append_place(&self.place, text)?;
        text.extend_from_slice(b": *** ")?;
        text.extend_from_slice(self.words.as_slice())?;
        text.extend_from_slice(b" [E")?;
        append_number(self.number, text)?;
        text.push(b']')?;
        Ok(())
    }
}

// Appends the place, or the program's name if there is none.
pub(crate) fn append_place(place: &Option<Place>, text: &mut Vec<u8>) -> Result<(), AllocError>
    ensures appended { OnOk result (text.new.items ≡ text.old.items ++ message_place place.now) }
    ensures refused { OnErr result (HasBegun (message_place place.now) text.old.items text.new.items) }
{
    match place {
        None => text.extend_from_slice(b"kati"),
        Some(place) => place.append_to(text),
    }
}

// Appends a number with at least two digits.
fn append_number(number: u8, text: &mut Vec<u8>) -> Result<(), AllocError>
    ensures appended { OnOk result (text.new.items ≡ text.old.items ++ two_digits number) }
    ensures refused { OnErr result (HasBegun (two_digits number) text.old.items text.new.items) }
{
    let mut buffer = Buffer::new();
    if number < 10 {
        text.push(b'0')?;
    }
    text.extend_from_slice(buffer.format(number).as_bytes())
}
