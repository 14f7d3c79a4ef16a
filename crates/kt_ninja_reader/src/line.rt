//! A joined line and its text.
//! Fast: a line borrows its text from the file; one that is joined, or has no newline, is held apart. Spares a copy of
//! the file, and room in each line.
ghost use Rattle.std.specs.Prelude.{◌≡◌, ◌++◌, [], IfOk, IfSome, OnOk};

use std::alloc::{AllocError, Global};
use std::boxed::Box;
use std::marker::Model;
use std::mem;

/// A slice of the file, or a text of its own where lines were joined.
#[derive(Drop)]
pub(crate) struct JoinedText<'t> {
    front: &'t [u8],
    joined: Option<Box<Vec<u8>>>,
}

impl<'t> Model for JoinedText<'t> {
    ghost use Rattle.std.specs.Prelude.{ℕ, List, option_map, unwrap_or};

    ghost Value = { List ℕ };

    ghost view = { λ line. unwrap_or (option_map (λ b. b.value.items) line.joined) line.front.now };
}

impl<'t> JoinedText<'t> {
    pub(crate) fn empty() -> JoinedText<'t>
        ensures { result ≡ [] }
    {
        JoinedText {
            front: &[],
            joined: None,
        }
    }

    // The slice of the file that it is, if no lines were joined.
    fn of_file(&self) -> Option<&'t [u8]>
        ensures quick { IfSome result (λ slice. slice.now ≡ self.now) }
    {
        match &self.joined {
            Some(_) => None,
            None => Some(self.front),
        }
    }

    fn into_own(self, alloc: Global) -> Result<Vec<u8>, AllocError>
        ensures { IfOk result (λ text. text.items ≡ self.entry) }
    {
        let JoinedText { front, joined } = self;
        match joined {
            Some(text) => Ok(Box::into_inner(text)),
            None => Vec::from_slice(alloc, front),
        }
    }

    /// Puts bytes of the file after it. Nothing is copied where it was empty.
    pub(crate) fn add(&mut self, alloc: Global, bytes: &'t [u8]) -> Result<(), AllocError>
        ensures { OnOk result (self.new ≡ self.old ++ bytes.now) }
    {
        match mem::replace(&mut self.joined, None) {
            Some(text) => {
                let mut text = Box::into_inner(text);
                text.extend_from_slice(bytes)?;
                self.joined = Some(Box::new(alloc, text)?);
            }
            None if self.front.is_empty() => self.front = bytes,
            None => {
                let text = both(alloc, self.front, bytes)?;
                self.joined = Some(Box::new(alloc, text)?);
            }
        }
        Ok(())
    }
}

fn both(alloc: Global, first: &[u8], second: &[u8]) -> Result<Vec<u8>, AllocError>
    ensures { IfOk result (λ text. text.items ≡ first.now ++ second.now) }
{
    let mut text = Vec::from_slice(alloc, first)?;
    text.extend_from_slice(second)?;
    Ok(text)
}

/// A line with those that are joined to it, without newlines.
#[derive(Drop)]
pub(crate) struct JoinedLine<'t> {
    form: LineStorage<'t>,
}

// Most lines are one line of the file with its newline. The others are held apart, so that each takes less room.
#[derive(Drop)]
enum LineStorage<'t> {
    Plain { number: u64, text: &'t [u8] },
    Other(Box<OtherLine>),
}

#[derive(Drop)]
struct OtherLine {
    number: u64,
    text: Vec<u8>,
    ended: bool,
}

impl<'t> Model for JoinedLine<'t> {
    ghost use Rattle.kt_ninja_reader.specs.JoinedLines.{JoinedLine};
    ghost use Rattle.kt_ninja_reader.specs.inner.Joining.{line_view};

    ghost Value = { JoinedLine };

    ghost view = { λ s. line_view s.form };
}

impl<'t> JoinedLine<'t> {
    pub(crate) fn new(
        alloc: Global,
        number: u64,
        text: JoinedText<'t>,
        ended: bool,
    ) -> Result<JoinedLine<'t>, AllocError>
        ensures { IfOk result (λ line. line ≡ record { number = number; text = text.entry; ended = ended }) }
    {
        let form = match text.of_file() {
            Some(text) if ended => LineStorage::Plain { number, text },
            _ => {
                let line = OtherLine {
                    number,
                    text: text.into_own(alloc)?,
                    ended,
                };
                LineStorage::Other(Box::new(alloc, line)?)
            }
        };
        Ok(JoinedLine { form })
    }

    /// The number of its first line in the file, from 1.
    pub(crate) fn number(&self) -> u64
        ensures { result ≡ self.now.number }
    {
        match &self.form {
            LineStorage::Plain { number, .. } => *number,
            LineStorage::Other(line) => line.as_ref().number,
        }
    }

    pub(crate) fn text(&self) -> &[u8]
        ensures { result.now ≡ self.now.text }
    {
        match &self.form {
            LineStorage::Plain { text, .. } => text,
            LineStorage::Other(line) => line.as_ref().text.as_slice(),
        }
    }

    /// Whether it ends with a newline.
    pub(crate) fn is_ended(&self) -> bool
        ensures { result ≡ self.now.ended }
    {
        match &self.form {
            LineStorage::Plain { .. } => true,
            LineStorage::Other(line) => line.as_ref().ended,
        }
    }
}
