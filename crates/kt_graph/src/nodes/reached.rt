//! Numbers in the order in which they were reached.
ghost use Rattle.std.specs.Prelude.{◌≡◌, ◌<◌, ◌^◌, [], List, length, get_or, slice_get};
ghost use Rattle.std.specs.Prelude.{IfOk, OnErr, OnOk};
ghost use Rattle.kt_text.specs.Words.{Text};
ghost use Rattle.kt_graph.specs.inner.nodes.Reached.{HasSame, IsPlaced, IsPushed, ReachesNumber, StaysPlaced};
ghost use Rattle.kt_graph.specs.inner.nodes.Reached.{place_marked};

use kt_list::narrow;
use std::alloc::{AllocError, Global};

/// The numbers that were reached, each once, and the place of each.
#[derive(Drop)]
pub(crate) struct ReachedNumbers {
    numbers: Vec<u32>,
    // The mark of a number is its place plus 1, or 0 if it wasn't reached; those that are left out are 0.
    marks: Vec<u32>,
}

impl ReachedNumbers {
    /// None is reached; so many are the first to be.
    pub(crate) fn none(alloc: Global, count: usize) -> Result<ReachedNumbers, AllocError>
        ensures none { IfOk result (λ reached. reached.numbers.items ≡ []) }
        ensures placed { IfOk result (λ reached. (names : List Text)
            → IsPlaced names reached.numbers.items reached.marks.items) }
    {
        Ok(ReachedNumbers {
            numbers: Vec::new(alloc),
            marks: Vec::from_elem(alloc, 0u32, count)?,
        })
    }

    /// How many were reached.
    pub(crate) fn len(&self) -> usize
        ensures len { result ≡ length self.now.numbers.items }
        ensures small { result < 2 ^ 63 }
    {
        self.numbers.len()
    }

    /// The number at a place.
    pub(crate) fn at(&self, place: usize) -> Option<usize>
        ensures { result ≡ slice_get self.now.numbers.items place }
    {
        match self.numbers.get(place) {
            Some(number) => Some(*number as usize),
            None => None,
        }
    }

    /// The place of a number, if it was reached.
    pub(crate) fn place(&self, number: usize) -> Option<usize>
        ensures { result ≡ place_marked (get_or self.now.marks.items number 0) }
    {
        match self.marks.get(number) {
            Some(mark) => place_marked(*mark),
            None => None,
        }
    }

    /// Reaches a number, and gives its place. One beyond 4,294,967,295, or with a place there, is refused as if memory
    /// were.
    pub(crate) fn reach(&mut self, number: usize) -> Result<usize, AllocError>
        ensures reached { IfOk result (ReachesNumber self.old number self.new) }
        ensures refused { OnErr result (StaysPlaced self.old self.new) }
    {
        match self.place(number) {
            Some(place) => Ok(place),
            None => self.push(number),
        }
    }

    // Puts a number after the others.
    fn push(&mut self, number: usize) -> Result<usize, AllocError>
        ensures pushed { IfOk result (IsPushed self.old number self.new) }
        ensures refused { OnErr result (self.new.numbers.items ≡ self.old.numbers.items) }
        ensures same { OnErr result (HasSame self.old.marks.items self.new.marks.items) }
    {
        let place = self.numbers.len();
        let held = narrow(number)?;
        let mark = narrow(place + 1)?;
        make_room(&mut self.marks, number)?;
        self.numbers.push(held)?;
        self.marks[number] = mark;
        Ok(place)
    }
}

fn place_marked(mark: u32) -> Option<usize>
    ensures { result ≡ place_marked mark }
{
    if mark == 0 {
        None
    } else {
        Some(mark as usize - 1)
    }
}

// Puts marks of 0 after others, until a number has one.
fn make_room(marks: &mut Vec<u32>, number: usize) -> Result<(), AllocError>
    ensures room { OnOk result (number < length marks.new.items) }
    ensures same { HasSame marks.old.items marks.new.items }
{
    while marks.len() <= number {
        marks.push(0)?;
    }
    Ok(())
}
