//! The lines of the recipe that was expanded last.
//! Fast: a line is kept by its place in a recipe, up to 64, and the next node's line with the same text there only has
//! its automatic macros put in. Spares its expansion.
ghost use Rattle.std.specs.Prelude.{◌≡◌, IfOk, IfSome, MatchOption, false, true};
ghost use Rattle.kt_recipe.specs.inner.Prepared.{IsFilled, IsRightLine, filled};

use crate::prepared::PreparedText;
use kt_eval::Macros;
use kt_graph::Node;
use std::alloc::{AllocError, Global};
use std::marker::Model;

// Up to this many lines of a recipe are kept.
const MOST: usize = 64;

/// A line without its run, and what is known of its expansion.
#[derive(Drop)]
pub(crate) struct KeptLine {
    text: Vec<u8>,
    pieces: Option<PreparedText>,
}

impl KeptLine {
    fn of(alloc: Global, macros: &Macros, limit: u64, text: &[u8]) -> Result<KeptLine, AllocError>
        ensures { IfOk result (λ line. IsRightLine macros.now limit line × (line.text.items ≡ text.now)) }
    {
        let pieces = PreparedText::of(alloc, macros, limit, text)?;
        Ok(KeptLine {
            text: Vec::from_slice(alloc, text)?,
            pieces,
        })
    }

    // Sets a text to the expansion in a part of a node. Returns whether it is known.
    fn fill(&self, node: &Node, part: usize, out: &mut Vec<u8>) -> Result<bool, AllocError>
        ensures { IfOk result (λ known. MatchOption self.now.pieces (known ≡ false)
            (λ pieces. out.new.items ≡ filled node.now part pieces)) }
    {
        match &self.pieces {
            Some(pieces) => {
                out.clear();
                pieces.fill(node, part, out)?;
                Ok(true)
            }
            None => Ok(false),
        }
    }
}

/// Expands lines of recipes. The line at each place in a recipe is kept, since that of the next node mostly has the
/// same text there: then only the automatic macros are put in.
#[derive(Drop)]
pub(crate) struct KeptLines<'m> {
    alloc: Global,
    macros: &'m Macros,
    limit: u64,
    lines: Vec<KeptLine>,
}

impl<'m> Model for KeptLines<'m> {
    ghost use Rattle.kt_recipe.specs.views.Commands.{Commands};
    ghost use Rattle.kt_recipe.specs.inner.Prepared.{IsRightLine};
    ghost use Rattle.std.specs.List.{All};

    ghost Value = { Commands };

    ghost view = { λ kept. record { table = kept.macros.now; limit = kept.limit } };

    ghost invariant = { λ kept. All (IsRightLine kept.macros.now kept.limit) kept.lines.items };
}

impl<'m> KeptLines<'m> {
    /// No line so far.
    pub(crate) fn new(alloc: Global, macros: &'m Macros, limit: u64) -> KeptLines<'m>
        ensures { result ≡ record { table = macros.now; limit = limit } }
    {
        KeptLines {
            alloc,
            macros,
            limit,
            lines: Vec::new(alloc),
        }
    }

    /// Sets a text to the expansion of the line with this number in the recipe of a node's part. Returns whether it is
    /// known: if not, the line has to be expanded.
    pub(crate) fn fill(
        &mut self,
        number: usize,
        line: &[u8],
        node: &Node,
        part: usize,
        out: &mut Vec<u8>,
    ) -> Result<bool, AllocError>
        ensures same { self.new ≡ self.old }
        ensures quick_filled { IfOk result (λ known. known ≡ true
            → IsFilled self.old line.now node.now part out.new.items) }
    {
        if number >= MOST {
            return Ok(false);
        }
        match self.kept(number, line) {
            Some(kept) => kept.fill(node, part, out),
            None => self.fill_anew(number, line, node, part, out),
        }
    }

    // The line with this number, if it has this text.
    fn kept(&self, number: usize, text: &[u8]) -> Option<&KeptLine>
        ensures quick { IfSome result (λ line. IsRightLine self.now.table self.now.limit line.now
            × (line.now.text.items ≡ text.now)) }
    {
        let line = self.lines.as_slice().get(number)?;
        if line.text.as_slice() == text {
            Some(line)
        } else {
            None
        }
    }

    fn fill_anew(
        &mut self,
        number: usize,
        line: &[u8],
        node: &Node,
        part: usize,
        out: &mut Vec<u8>,
    ) -> Result<bool, AllocError>
        ensures same { self.new ≡ self.old }
        ensures quick_filled { IfOk result (λ known. known ≡ true
            → IsFilled self.old line.now node.now part out.new.items) }
    {
        let made = KeptLine::of(self.alloc, self.macros, self.limit, line)?;
        let known = made.fill(node, part, out)?;
        self.keep(number, made)?;
        Ok(known)
    }

    // Keeps a line in place of the one with its number. A line that is beyond the next place isn't kept.
    fn keep(&mut self, number: usize, line: KeptLine) -> Result<(), AllocError>
        requires { IsRightLine self.old.table self.old.limit line }
        ensures same { self.new ≡ self.old }
    {
        if number == self.lines.len() {
            self.lines.push(line)?;
            return Ok(());
        }
        if let Some(place) = self.lines.get_mut(number) {
            *place = line;
        }
        Ok(())
    }
}
