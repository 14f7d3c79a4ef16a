//! Lines as they stand in their file, with their continuations condensed.
//! Fast: a line without a continuation is its own text. Spares an allocation a line.
ghost use Rattle.std.specs.Prelude.{◌≡◌, IfOk, IfSome};
ghost use Rattle.kt_text.specs.Lines.{condensed_of};

use kt_text::{condensed, has_byte};
use std::alloc::{AllocError, Global};
use std::marker::Model;

/// A line as it stands in its file, and its text: the same with each continuation as a space.
///
/// Memory is taken for the text of a line that has a continuation alone; any other line is its own text. A contract
/// sees the line.
#[derive(Drop)]
pub struct LineText<'a> {
    line: &'a [u8],
    condensed: Option<Vec<u8>>,
}

impl<'a> Model for LineText<'a> {
    ghost use Rattle.std.specs.Prelude.{◌≡◌, option_map};
    ghost use Rattle.kt_text.specs.Words.{Text};
    ghost use Rattle.kt_text.specs.Lines.{condensed_of};
    ghost use Rattle.kt_syntax.specs.inner.LineTexts.{text_beside};

    ghost Value = { Text };

    ghost view = { λ l. l.line.now };

    ghost invariant = { λ l. text_beside l.line.now (option_map (λ text. text.items) l.condensed)
        ≡ condensed_of l.line.now };
}

impl<'a> LineText<'a> {
    /// A line with its text.
    #[tactic(auto, using(kt_text::proofs::lemmas::CondensedLemmas::without_newline))]
    pub fn new(alloc: Global, line: &'a [u8]) -> Result<LineText<'a>, AllocError>
        ensures { IfOk result (λ l. l ≡ line.now) }
    {
        if has_byte(line, b'\n') {
            let condensed = condensed(alloc, line)?;
            return Ok(LineText {
                line,
                condensed: Some(condensed),
            });
        }
        Ok(LineText {
            line,
            condensed: None,
        })
    }

    /// The line as it stands.
    pub fn line(&self) -> &[u8]
        ensures { result.now ≡ self.now }
    {
        self.line
    }

    // The line, where it is its own text.
    pub(crate) fn own_text(&self) -> Option<&[u8]>
        ensures quick_value { IfSome result (λ text. text.now ≡ self.now) }
        ensures quick_own { IfSome result (λ text. condensed_of self.now ≡ self.now) }
    {
        match &self.condensed {
            None => Some(self.line),
            Some(_) => None,
        }
    }

    /// Its text.
    pub fn text(&self) -> &[u8]
        ensures { result.now ≡ condensed_of self.now }
    {
        match &self.condensed {
            None => self.line,
            Some(text) => text.as_slice(),
        }
    }
}
