//! Logical lines as a text's reader holds them: in less than half the room of a `Line`.
ghost use Rattle.std.specs.Prelude.{◌≡◌, ◌<◌, ◌≤◌, false, true, IfOk, OnErr};
ghost use Rattle.kt_text.specs.views.Lines.{HasNoMark};

use crate::line::Line;
use kt_list::narrow;
use std::alloc::AllocError;
use std::marker::Model;

/// A logical line in three numbers of 32 bits; contracts see the line.
#[derive(Debug, Drop)]
pub struct LineMark {
    // Where the line begins and ends; the other way round where it begins with a tab, which is a byte of it at least.
    first: u32,
    second: u32,
    number: u32,
}

impl Model for LineMark {
    ghost use Rattle.kt_text.specs.declared.line.Line.{Line};
    ghost use Rattle.kt_text.specs.inner.Marks.{marked_line};

    ghost Value = { Line };

    ghost view = { λ mark. marked_line mark.first mark.second mark.number };
}

impl LineMark {
    /// The mark of a line. One beyond the first 4,294,967,295 bytes or lines has none, as if memory were refused; nor
    /// has one that ends before its begin, or at it in spite of a tab.
    pub fn of(line: &Line) -> Result<LineMark, AllocError>
        ensures same { IfOk result (λ mark. mark ≡ line.now) }
        ensures none { OnErr result (HasNoMark line.now) }
    {
        let start = narrow(line.span.start)?;
        let end = narrow(line.span.end)?;
        let number = narrow(line.number as usize)?;
        if line.tab {
            LineMark::tabbed(start, end, number)
        } else {
            LineMark::untabbed(start, end, number)
        }
    }

    fn tabbed(start: u32, end: u32, number: u32) -> Result<LineMark, AllocError>
        ensures same { IfOk result (λ mark. mark ≡ record {
          span = record { start = start; end = end };
          number = number;
          tab = true;
        }) }
        ensures empty { OnErr result (end ≤ start) }
    {
        if start >= end {
            return Err(AllocError);
        }
        Ok(LineMark {
            first: end,
            second: start,
            number,
        })
    }

    fn untabbed(start: u32, end: u32, number: u32) -> Result<LineMark, AllocError>
        ensures same { IfOk result (λ mark. mark ≡ record {
          span = record { start = start; end = end };
          number = number;
          tab = false;
        }) }
        ensures falls { OnErr result (end < start) }
    {
        if start > end {
            return Err(AllocError);
        }
        Ok(LineMark {
            first: start,
            second: end,
            number,
        })
    }

    /// The line.
    pub fn line(&self) -> Line
        ensures { result ≡ self.now }
    {
        let first = self.first as usize;
        let second = self.second as usize;
        let tab = first > second;
        Line {
            span: if tab { second..first } else { first..second },
            number: self.number as u64,
            tab,
        }
    }
}
